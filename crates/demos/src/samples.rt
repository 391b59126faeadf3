// The forms and pictures that several programs show.
ghost use Rattle.std.specs.Prelude.{◌≡◌, ℕ};
ghost use Rattle.games.specs.Numbered.{list_of};
ghost use Rattle.games.specs.declared.side.Side.{Side};
ghost use Rattle.nodesets.specs.Pairs.{by};
ghost use Rattle.nodesets.specs.Sets.{has};
ghost use Rattle.hackenbush.specs.Pictures.{edges_of};
ghost use Rattle.demos.specs.Samples.{named, stalk};

use hackenbush::edge::{Colour, Edge};
use hackenbush::picture::Picture;
use nodesets::nodeset::NodeSet;
use nodesets::pair::Pair;

// The forms {|}, {0|}, {|0}, {0|0}, {0,1|}, {*|*}, {0|1} and {0|*}, by the nodes of their options,
// and a form with an option that is no node.
pub const FORMS: [(&str, &[u16], &[u16]); 9] = [
    ("{|}", &[], &[]),
    ("{0|}", &[0], &[]),
    ("{|0}", &[], &[0]),
    ("{0|0}", &[0], &[0]),
    ("{0,1|}", &[0, 1], &[]),
    ("{*|*}", &[3], &[3]),
    ("{0|1}", &[0], &[1]),
    ("{0|*}", &[0], &[3]),
    ("{9|}", &[9], &[]),
];

// How many rows the stores have room for in which the forms are sealed:
// one fewer than would be wanted.
pub const ROWS: usize = 6;

// Pairs of their nodes, of which none is 6.
pub const PAIRS: [(u16, u16); 5] = [(1, 0), (2, 3), (0, 3), (4, 4), (0, 6)];

// The set of the nodes in a list.
fn set(nodes: &[u16]) -> NodeSet
    ensures { (k : ℕ) → has result k ≡ named nodes.now k }
{
    let mut set = NodeSet::default();
    for node in nodes {
        set.insert(usize::from(*node));
    }
    set
}

// The sets of two lists of nodes.
pub fn pair(left: &[u16], right: &[u16]) -> Pair
    ensures { (s : Side) (k : ℕ) → by result s k
        ≡ named (list_of s (record { left = left.now; right = right.now })) k }
{
    Pair {
        left: set(left),
        right: set(right),
    }
}

// An edge of Left's on the ground, and one of the colour on top of it.
pub fn stalk(colour: Colour) -> Picture
    ensures { edges_of result ≡ stalk colour }
{
    let low = Edge {
        from: 0,
        to: 1,
        colour: Colour::Left,
    };
    let high = Edge {
        from: 1,
        to: 2,
        colour,
    };
    Picture::new(&[low, high]).unwrap()
}
