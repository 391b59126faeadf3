// What the tables answer: how many nodes there are, how two compare,
// and what two sets of them seal to.
ghost use Rattle.std.specs.Prelude.{◌≡◌, ◌≤◌, ◌&&◌, ◌++◌, length, take, drop, Decides, nat_lt};
ghost use Rattle.std.specs.Option.{SomeIff, option_map};
ghost use Rattle.games.specs.Numbered.{Lists};
ghost use Rattle.games.specs.Tests.{as_good};
ghost use Rattle.nodesets.specs.Pairs.{by};
ghost use Rattle.nodesets.specs.Sets.{has};
ghost use Rattle.sealing.specs.Seals.{CanonicalRow, Narrow, SealsTo, Sound, count, listed, node_of, row_of};

use super::Tables;
use crate::order::{count_listed, few_listed, write_listed};
use crate::seal::{SealFault, Sealed};
use arrayvec::ArrayVec;
use games::bounds::MOST_OPTIONS;
use games::side::Side;
use nodesets::nodeset::NodeSet;
use nodesets::pair::Pair;

impl Tables {
    // How many nodes there are.
    pub fn count(&self) -> usize
        ensures number { result ≡ count self.now }
        ensures sound { Sound self.now }
    {
        self.nodes.count()
    }

    // Whether a and b are nodes, and a is as good as b for the side.
    pub fn is_as_good(&self, side: Side, a: usize, b: usize) -> bool
        ensures { result ≡ ((nat_lt a (count self.now) && nat_lt b (count self.now))
            && as_good side (node_of self.now a) (node_of self.now b)) }
    {
        self.nodes.is_as_good(side, a, b)
    }

    // The nodes of the set in listing order, as the options of a row;
    // none where there are more than 16.
    pub fn options(&self, set: &NodeSet) -> Option<ArrayVec<u16, MOST_OPTIONS>>
        ensures { SomeIff (option_map (λ nodes. nodes.items) result)
            (length (listed self.now (has set.now)) ≤ 16) (listed self.now (has set.now)) }
    {
        few_listed(&self.listing, set)
    }

    // Writes the nodes of the set in listing order, as many as fit, to the front of the buffer;
    // answers how many there are.
    pub fn list(&self, set: &NodeSet, buffer: &mut [u16]) -> usize
        ensures number { result ≡ length (listed self.now (has set.now)) }
        ensures written { buffer.new ≡ take (length buffer.old) (listed self.now (has set.now))
            ++ drop result buffer.old }
    {
        write_listed(&self.listing, set, buffer)
    }

    // Whether no set of the pair has more than 16 nodes.
    fn is_narrow(&self, form: &Pair) -> bool
        ensures { Decides result (Narrow (row_of self.now (by form.now))) }
    {
        count_listed(&self.listing, &form.left) <= MOST_OPTIONS
            && count_listed(&self.listing, &form.right) <= MOST_OPTIONS
    }

    // What the two sets seal to. Nothing is added.
    pub fn find(&self, moves: &Pair) -> Result<Sealed, SealFault>
        ensures seals { SealsTo result self.now (by moves.now) }
        ensures one { (l m : Lists) → CanonicalRow self.now (by moves.now) l
            → CanonicalRow self.now (by moves.now) m → l ≡ m }
    {
        if !moves.is_below(self.count()) {
            return Err(SealFault::Unknown);
        }
        let game = self.nodes.compare(moves);
        if let Some(node) = game.equal() {
            return Ok(Sealed::Node(node));
        }
        let form = game.settle();
        if self.is_narrow(&form) {
            Ok(Sealed::New(form))
        } else {
            Err(SealFault::Wide)
        }
    }
}
