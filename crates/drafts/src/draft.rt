// A draft: the numbers put on each side, and the calls on it alone.
ghost use Rattle.calls.specs.Rows.{no_numbers};
ghost use Rattle.dictionary.specs.Faults.{answer_of};
ghost use Rattle.drafts.specs.Holding.{DraftsHold, Holds, PutsInto, Unspent};
ghost use Rattle.drafts.specs.Steps.{AbandonSteps, OpenSteps, PutSteps};

use crate::slip::Slip;
use dictionary::fault::DictionaryFault;
use games::bounds::MOST_NODES;
use games::side::Side;
use nodesets::pair::Pair;

// Two sets of numbers. Whether they are nodes shows when the draft is sealed.
#[derive(Default, Drop)]
pub struct Draft {
    pub(crate) numbers: Pair,
}

impl Draft {
    // A draft with nothing put.
    pub fn new() -> Draft
        ensures empty { Holds result no_numbers }
        ensures some { DraftsHold }
    {
        Draft::default()
    }

    // Takes back all numbers put.
    fn clear(&mut self)
        ensures { Holds self.new no_numbers }
    {
        *self = Draft::new();
    }

    // Empties the draft and hands out a slip.
    pub fn open(&mut self) -> Slip
        ensures empty { Holds self.new no_numbers }
        ensures unspent { Unspent result }
        ensures step { OpenSteps self.new }
    {
        self.clear();
        Slip::new()
    }

    // Adds a number to a side, and refuses one that no node can have.
    // The slip shows that the draft is open.
    pub fn put(&mut self, _slip: &Slip, side: Side, number: u16) -> Result<(), DictionaryFault>
        ensures puts { PutsInto self.old side number (answer_of result) self.new }
        ensures step { PutSteps self.old side number (answer_of result) self.new }
    {
        let node = usize::from(number);
        if node >= MOST_NODES {
            return Err(DictionaryFault::Unknown);
        }
        self.numbers.insert(side, node);
        Ok(())
    }

    // Empties the draft and takes the slip back.
    pub fn abandon(&mut self, slip: Slip)
        ensures empty { Holds self.new no_numbers }
        ensures step { AbandonSteps self.new }
    {
        self.clear();
        slip.spend();
    }
}
