// A memory of numbers by codes.
ghost use Rattle.std.specs.Prelude.{ℕ};
ghost use Rattle.memory.specs.Memories.{Holds, HoldsLess, HoldsOf};

use crate::direct::Direct;
use crate::notes::Notes;
use crate::slots::Slots;
use crate::table::Table;
use std::alloc::Global;

// The places that a hashed table begins with, and the most that it may have:
// 16 bytes each, so 256 MiB.
const FIRST: usize = 256;

const MOST: usize = 16_777_216;

// A table with a place for every code serves, where there are at most so many codes for each place
// of a hashed one: at 2 bytes a code it is up to twice as large as that, and faster.
const SPREAD: usize = 16;

// The most codes that may have a place each: 32 MiB.
const MOST_CODES: usize = 16_777_216;

// Numbers by codes. It takes more memory as it needs it; where there is none, it forgets.
#[derive(Drop)]
pub struct Memory {
    heap: Global,
    // how many codes there are, where a table may have a place for each
    codes: Option<usize>,
    // whether the largest number was noted
    largest: bool,
    table: Table,
}

impl Memory {
    // A memory that holds nothing, takes no room yet, and is ready for any code.
    pub fn new(heap: Global) -> Memory
        ensures { (code n : ℕ) → Holds result code n → ⊥ }
    {
        Memory {
            heap,
            codes: None,
            largest: false,
            table: Table::Hashed(Slots::new(heap)),
        }
    }

    // Forgets all, and is ready for codes below the limit.
    pub fn forget(&mut self, limit: u64)
        ensures { (code n : ℕ) → Holds self.new code n → ⊥ }
    {
        self.codes = usize::try_from(limit)
            .ok()
            .filter(|codes| *codes <= MOST_CODES);
        self.largest = false;
        self.table = Table::Hashed(Slots::new(self.heap));
    }

    // A larger table takes over from a hashed one, if there is memory for it. Few notes ask for
    // that, so it is kept apart from the rest.
    #[cold]
    #[inline(never)]
    fn make_room(&mut self)
        ensures { HoldsLess self.old self.new }
    {
        let Table::Hashed(slots) = &self.table else {
            return;
        };
        if let Some(table) = self.larger(slots) {
            self.table = table;
        }
    }

    // A larger table that holds what this one does, if there is memory for it.
    fn larger(&self, slots: &Slots) -> Option<Table>
        ensures { HoldsOf slots.now result }
    {
        let places = slots.places().saturating_mul(4).clamp(FIRST, MOST);
        self.indexed(slots, places)
            .or_else(|| self.wider(slots, places))
    }

    // A table with a place for every code, if it is not too large next to a hashed one of so many
    // places, and there is memory for it.
    fn indexed(&self, slots: &Slots, places: usize) -> Option<Table>
        ensures { HoldsOf slots.now result }
    {
        let codes = self.codes?;
        if codes / SPREAD > places {
            return None;
        }
        if self.largest {
            return self.by_codes(slots, codes);
        }
        let mut direct = Direct::with_places(self.heap, codes)?;
        slots.copy_into(&mut direct);
        Some(Table::Indexed(direct))
    }

    // A table with a place for every code and for every number, if its places are more and there is
    // memory for it.
    fn by_codes(&self, slots: &Slots, codes: usize) -> Option<Table>
        ensures { HoldsOf slots.now result }
    {
        if codes <= slots.places() {
            return None;
        }
        let mut wide = Slots::by_codes(self.heap, codes)?;
        slots.copy_into(&mut wide);
        Some(Table::Hashed(wide))
    }

    // A hashed table of so many places, if they are more and there is memory for it.
    fn wider(&self, slots: &Slots, places: usize) -> Option<Table>
        ensures { HoldsOf slots.now result }
    {
        if places <= slots.places() {
            return None;
        }
        let mut wide = slots.with_places(self.heap, places)?;
        slots.copy_into(&mut wide);
        Some(Table::Hashed(wide))
    }

    // A table with a place of 2 bytes for every code has none for the largest number. One whose
    // places are larger takes over, if there is memory for it.
    #[cold]
    #[inline(never)]
    fn ready_for_largest(&mut self)
        ensures { HoldsLess self.old self.new }
    {
        self.largest = true;
        let Table::Indexed(direct) = &self.table else {
            return;
        };
        let Some(mut slots) = Slots::by_codes(self.heap, direct.places()) else {
            return;
        };
        direct.copy_into(&mut slots);
        self.table = Table::Hashed(slots);
    }
}

impl Notes for Memory {
    ghost holds = { λ memory code n. Holds memory code n };

    fn recall(&self, code: u64) -> Option<u16> {
        self.table.recall(code)
    }

    fn note(&mut self, code: u64, number: u16) {
        if number == u16::MAX {
            self.ready_for_largest();
        }
        if self.table.is_crowded() {
            self.make_room();
        }
        self.table.note(code, number);
    }
}

#[cfg(test)]
mod tests {
    use super::Memory;
    use crate::notes::Notes;

    // No clause says that a number is kept. Here a table with a place for every code serves at
    // first, and keeps all when the largest number comes.
    #[test]
    fn the_largest_number_comes_late(rt: HostRuntime) {
        let mut memory = Memory::new(rt.alloc());
        for limit in [1, 200, 16_000] {
            memory.forget(limit);
            for code in 0..limit {
                memory.note(code, 7);
            }
            for number in [u16::MAX, 0, u16::MAX, u16::MAX - 1] {
                memory.note(0, number);
                assert_eq!(rt; memory.recall(0), Some(number), "0 below {limit}");
            }
            for code in 1..limit {
                assert_eq!(rt; memory.recall(code), Some(7), "{code} below {limit}");
                memory.note(code, u16::MAX);
            }
            for code in 1..limit {
                assert_eq!(rt; memory.recall(code), Some(u16::MAX), "{code} below {limit}");
            }
        }
    }

    // Here it comes first, so that a hashed table serves, until there are places for all codes.
    #[test]
    fn the_largest_number_comes_first(rt: HostRuntime) {
        let mut memory = Memory::new(rt.alloc());
        for (limit, codes) in [(200, 200), (16_000, 16_000), (u64::MAX, 200)] {
            memory.forget(limit);
            memory.note(5, u16::MAX);
            for code in 6..codes {
                memory.note(code, 7);
            }
            assert_eq!(rt; memory.recall(5), Some(u16::MAX), "5 below {limit}");
            for code in 6..codes {
                assert_eq!(rt; memory.recall(code), Some(7), "{code} below {limit}");
            }
            assert_eq!(rt; memory.recall(4), None, "4 below {limit}");
        }
    }
}
