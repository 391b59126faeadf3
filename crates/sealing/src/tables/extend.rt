// New tables, and one more node.
ghost use Rattle.std.specs.Prelude.{◌≡◌, ◌<◌, [], ◌∷◌, ◌++◌, IfOk};
ghost use Rattle.games.specs.Canon.{Canonical};
ghost use Rattle.nodesets.specs.Pairs.{Within, by};
ghost use Rattle.sealing.specs.Seals.{Extended, Fresh, count, form_of, row_of, rows_of};

use super::Tables;
use crate::nodes::Nodes;
use crate::seal::Sealed;
use games::bounds::MOST_NODES;
use nodesets::pair::Pair;
use std::alloc::{AllocError, Global};

impl Tables {
    // No node yet, with room for all.
    pub fn new(heap: Global) -> Result<Tables, AllocError>
        ensures { IfOk result (λ t. rows_of t ≡ []) }
    {
        let nodes = Nodes::new(heap)?;
        let listing = Vec::with_capacity(heap, MOST_NODES)?;
        Ok(Tables { nodes, listing })
    }

    // One more node, and its number in the listing; answers the number.
    fn append(&mut self, form: &Pair) -> usize
        requires room { count self.old < 384 }
        requires within { Within (count self.old) (by form.now) }
        requires canonical { Canonical (form_of self.old (by form.now)) }
        requires fresh { Fresh self.old (by form.now) }
        ensures number { result ≡ count self.old }
        ensures rows { rows_of self.new ≡ rows_of self.old ++ (row_of self.old (by form.now) ∷ []) }
    {
        let number = self.nodes.count();
        self.nodes.push(form);
        let place = self.nodes.place(&self.listing, number);
        let _ = self.listing.insert(place, number as u16);
        number
    }

    // The new row that the two sets seal to, if they do, becomes the last node while there is room;
    // answers its number.
    pub fn extend(&mut self, moves: &Pair) -> Option<usize>
        ensures { Extended result self.old self.new (by moves.now) }
    {
        match self.find(moves) {
            Ok(Sealed::New(form)) if self.nodes.count() < MOST_NODES => Some(self.append(&form)),
            _ => None,
        }
    }
}
