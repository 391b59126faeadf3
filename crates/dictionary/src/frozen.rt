// A frozen dictionary: it keeps the nodes that it has, and takes no more.
ghost use Rattle.std.specs.Prelude.{◌≡◌};
ghost use Rattle.calls.specs.Asking.{Compares, TellsOutcome};
ghost use Rattle.calls.specs.Sound.{Sound};
ghost use Rattle.stores.specs.Rows.{Lawful, lowest};
ghost use Rattle.dictionary.specs.Faults.{answer_of, print_answer};
ghost use Rattle.dictionary.specs.Printing.{Printed};

use crate::dictionary::Dictionary;
use crate::fault::{DictionaryFault, PrintFault};
use games::outcome::{Comparison, Outcome};
use std::marker::Model;
use stores::row::Row;
use stores::store::Store;

#[derive(Drop)]
pub struct Frozen<S: Store> {
    dictionary: Dictionary<S>,
}

impl<S: Store> Model for Frozen<S> {
    ghost use Rattle.dictionary.specs.Holding.{Holding};

    ghost Value = { Holding };

    ghost view = { λ f. f.dictionary };
}

impl<S: Store> Dictionary<S> {
    // The dictionary, which takes no more nodes.
    pub fn freeze(self) -> Frozen<S>
        ensures { result ≡ self }
    {
        Frozen { dictionary: self }
    }
}

impl<S: Store> Frozen<S> {
    // How the games of two nodes compare.
    pub fn compare(&self, a: u16, b: u16) -> Result<Comparison, DictionaryFault>
        ensures { Compares self.now.rows a b (answer_of result) }
    {
        self.dictionary.compare(a, b)
    }

    // Who wins the game of a node.
    pub fn outcome(&self, node: u16) -> Result<Outcome, DictionaryFault>
        ensures { TellsOutcome self.now.rows node (answer_of result) }
    {
        self.dictionary.outcome(node)
    }

    // Writes the text of a node at the front of a buffer, and answers how long it is.
    pub fn print(&self, node: u16, out: &mut [u8]) -> Result<usize, PrintFault>
        ensures { Printed self.now.rows node out.old (print_answer result) out.new }
    {
        self.dictionary.print(node, out)
    }

    // The node whose row has these two lists, as written. It is the store that knows its rows.
    pub fn find(&self, left: &[u16], right: &[u16]) -> Option<u16>
        ensures found { result ≡ lowest self.now.rows
            (record { left = left.entry.now; right = right.now }) }
        ensures sound { Sound self.now.rows }
        ensures lawful { Lawful self.now.rows self.now.room }
    {
        let dictionary = &self.dictionary;
        let store = &dictionary.store;
        store.find(&Row::new(left, right)?)
    }
}
