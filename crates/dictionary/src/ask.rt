// What is asked about nodes: how two compare, and the outcome of one.
ghost use Rattle.calls.specs.Asking.{Compares, TellsOutcome};
ghost use Rattle.dictionary.specs.Faults.{answer_of};
ghost use Rattle.dictionary.specs.Kept.{Kept};

use crate::dictionary::Dictionary;
use crate::fault::DictionaryFault;
use games::outcome::{Comparison, Outcome};
use games::side::Side;
use stores::store::Store;

impl<S: Store> Dictionary<S> {
    // How the games of two nodes compare.
    pub fn compare(&self, a: u16, b: u16) -> Result<Comparison, DictionaryFault>
        ensures { Compares self.now.rows a b (answer_of result) }
    {
        let count = self.tables.count();
        let a = usize::from(a);
        let b = usize::from(b);
        if a >= count || b >= count {
            return Err(DictionaryFault::Unknown);
        }
        let above = self.tables.is_as_good(Side::Left, a, b);
        let below = self.tables.is_as_good(Side::Right, a, b);
        Ok(Comparison::by_play(!below, !above))
    }

    // Who wins the game of a node: how it compares with 0, which is the node of the first row.
    pub fn outcome(&self, node: u16) -> Result<Outcome, DictionaryFault>
        ensures { TellsOutcome self.now.rows node (answer_of result) }
    {
        // opens the dictionary, of which the proof needs to know that the first row is 0's
        let _ = &self.tables;
        Ok(Outcome::from(self.compare(node, 0)?))
    }
}
