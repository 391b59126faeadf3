// How a game compares with the nodes: it is given by its options, a set of nodes for each side.
ghost use Rattle.std.specs.Prelude.{◌≡◌, ℕ, ◌<◌, true, ◌&&◌, length, vec_len, nat_lt};
ghost use Rattle.games.specs.declared.side.Side.{Side};
ghost use Rattle.games.specs.Sides.{other};
ghost use Rattle.games.specs.Tests.{as_good};
ghost use Rattle.nodesets.specs.Pairs.{Sets, Within, by};
ghost use Rattle.nodesets.specs.Sets.{has};
ghost use Rattle.sealing.specs.Forms.{node, game};
ghost use Rattle.sealing.specs.Steps.{bested_by, Further, LowestUndecided, Partly};
ghost use Rattle.sealing.specs.Views.{links, ranks};

use crate::game::Game;
use crate::nodes::Nodes;
use games::side::Side;
use nodesets::nodeset::NodeSet;
use nodesets::pair::Pair;

// What is known of a game for one side: the nodes that are decided,
// and of those the ones that it is as good as.
#[derive(Clone, Copy)]
pub struct Known {
    pub decided: NodeSet,
    pub worse: NodeSet,
}

impl Nodes {
    // The nodes that some node of the set is as good as for the side.
    fn bested(&self, side: Side, set: &NodeSet) -> NodeSet
        requires { (k : ℕ) → has set.now k ≡ true → k < vec_len self.now.rows }
        ensures { (h : ℕ) → has result h ≡ bested_by (ranks self.now) side (has set.now) h }
    {
        let mut all = NodeSet::default();
        let mut rest = *set;
        while let Some(node) = rest.take_lowest() {
            all.union(self.rows[node].worse.of(side));
        }
        all
    }

    // The lowest node that is not decided for both sides.
    fn undecided(&self, left: &Known, right: &Known) -> Option<usize>
        ensures { LowestUndecided (vec_len self.now.rows) (has left.now.decided)
            (has right.now.decided) result }
    {
        let node = left.decided.missing(&right.decided)?;
        (node < self.rows.len()).then_some(node)
    }

    // Decides the node h for the side, and with it all nodes that are as good as h,
    // or that h is as good as.
    // theirs: of the nodes below h those that the game is as good as for the other side.
    fn decide(&self, side: Side, known: &mut Known, theirs: &NodeSet, h: usize)
        requires { h < vec_len self.now.rows }
        ensures { (o : Sets) → Within (length (links self.now)) o
            → Partly (links self.now) (ranks self.now) side o (has known.old.decided)
            (has known.old.worse)
            → ((k : ℕ) → k < h
            → has theirs.now k ≡ as_good (other side) (game (links self.now) o)
            (node (links self.now) k))
            → Further (links self.now) (ranks self.now) side o h (has known.old.decided)
            (has known.new.decided) (has known.new.worse) }
    {
        if known.decided.contains(h) {
            return;
        }
        let row = &self.rows[h];
        if row.options.of(side).meets(theirs) {
            known.decided.union(row.worse.of(side.other()));
        } else {
            known.decided.union(row.worse.of(side));
            known.worse.union(row.worse.of(side));
        }
    }

    // The game with these options, and the nodes that it is as good as, for each side.
    pub fn compare(&self, moves: &Pair) -> Game<'_>
        requires { Within (vec_len self.now.rows) (by moves.now) }
        ensures nodes { result.nodes.now ≡ self.now }
        ensures moves { result.moves ≡ moves.now }
    {
        let mut left = Known {
            decided: self.bested(Side::Right, &moves.right),
            worse: NodeSet::default(),
        };
        let mut right = Known {
            decided: self.bested(Side::Left, &moves.left),
            worse: NodeSet::default(),
        };
        while let Some(h) = self.undecided(&left, &right) {
            self.decide(Side::Left, &mut left, &right.worse, h);
            self.decide(Side::Right, &mut right, &left.worse, h);
        }
        Game {
            nodes: self,
            moves: *moves,
            worse: Pair {
                left: left.worse,
                right: right.worse,
            },
        }
    }

    // Whether a and b are nodes, and a is as good as b for the side.
    pub fn is_as_good(&self, side: Side, a: usize, b: usize) -> bool
        ensures { result ≡ ((nat_lt a (length (links self.now))
            && nat_lt b (length (links self.now)))
            && as_good side (node (links self.now) a) (node (links self.now) b)) }
    {
        a < self.rows.len() && self.rows[a].worse.of(side).contains(b)
    }
}
