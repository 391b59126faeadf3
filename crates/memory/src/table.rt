// The table of a memory.
ghost use Rattle.memory.specs.Memories.{InTable};

use crate::direct::Direct;
use crate::notes::Notes;
use crate::slots::Slots;

// A hashed table, or one with a place for every code where that is not too large.
#[derive(Drop)]
pub enum Table {
    Hashed(Slots),
    Indexed(Direct),
}

impl Table {
    // Whether a larger table should take over.
    pub fn is_crowded(&self) -> bool {
        match self {
            Table::Hashed(slots) => slots.is_crowded(),
            Table::Indexed(_) => false,
        }
    }
}

impl Notes for Table {
    ghost holds = { InTable };

    fn recall(&self, code: u64) -> Option<u16> {
        match self {
            Table::Hashed(slots) => slots.recall(code),
            Table::Indexed(direct) => direct.recall(code),
        }
    }

    fn note(&mut self, code: u64, number: u16) {
        match self {
            Table::Hashed(slots) => slots.note(code, number),
            Table::Indexed(direct) => direct.note(code, number),
        }
    }
}
