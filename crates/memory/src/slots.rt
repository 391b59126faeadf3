// A hashed table of codes, each near the place that its hash names.
ghost use Rattle.std.specs.Prelude.{◌≡◌, ◌^◌, ◌<◌, [], IfSome, length};
ghost use Rattle.memory.specs.Holds.{Among, Joined};
ghost use Rattle.memory.specs.Tables.{AllFree};

use crate::notes::Notes;
use crate::slot::Slot;
use std::alloc::Global;

// How many places are tried for a code, from the one that its hash names.
const TRIES: usize = 16;

// What codes are multiplied by so that they are spread over the places, and so that each code below
// their number has its own.
const SPREADING: u64 = 0x9E37_79B9_7F4A_7C15;

const OWN: u64 = 1 << 32;

const FREE: Slot = Slot {
    code: 0,
    number: None,
};

#[derive(Drop)]
pub struct Slots {
    slots: Vec<Slot>,
    taken: usize,
    factor: u64,
}

impl Slots {
    // A table without places, which takes no memory.
    pub fn new(heap: Global) -> Slots
        ensures { result.slots.items ≡ [] }
    {
        Slots {
            slots: Vec::new(heap),
            taken: 0,
            factor: SPREADING,
        }
    }

    // A table with free places, in which each of so many codes has its own, if there is memory for
    // it.
    pub fn by_codes(heap: Global, codes: usize) -> Option<Slots>
        ensures { AllFree result }
    {
        Slots::free(heap, codes.checked_next_power_of_two()?, OWN)
    }

    // A table with so many free places, to be searched as this one is, if there is memory for it.
    pub fn with_places(&self, heap: Global, places: usize) -> Option<Slots>
        ensures { AllFree result }
    {
        Slots::free(heap, places, self.factor)
    }

    fn free(heap: Global, places: usize, factor: u64) -> Option<Slots>
        ensures { AllFree result }
    {
        let mut slots = Vec::new(heap);
        slots.resize(places, FREE).ok()?;
        Some(Slots {
            slots,
            taken: 0,
            factor,
        })
    }

    pub fn places(&self) -> usize {
        self.slots.len()
    }

    // Whether more than half of the places are taken.
    pub fn is_crowded(&self) -> bool {
        self.taken >= self.slots.len() / 2
    }

    // The place that a code's hash names, in a table of a power of two places.
    fn home(&self, code: u64) -> usize
        ensures { result < 2 ^ 32 }
    {
        (code.wrapping_mul(self.factor) >> 32) as usize
    }

    // The first place tried that is free or has the code, or else the first one tried;
    // none in a table without places.
    fn place(&self, code: u64) -> Option<usize>
        ensures { IfSome result (λ p. p < length self.now.slots.items) }
    {
        let last = self.slots.len().checked_sub(1)?;
        let home = self.home(code);
        (home..home + TRIES)
            .map(|tried| tried & last)
            .find(|place| self.slots[*place].suits(code))
            .or(Some(home & last))
    }

    // Notes in another table what this one holds.
    pub fn copy_into<N: Notes>(&self, other: &mut N)
        ensures { Joined (Among self.now.slots.items) (N.holds other.old) (N.holds other.new) }
    {
        for slot in &self.slots {
            if let Some(number) = slot.number {
                other.note(slot.code, number);
            }
        }
    }
}

impl Notes for Slots {
    ghost holds = { λ s. Among s.slots.items };

    fn recall(&self, code: u64) -> Option<u16> {
        let slot = self.slots[self.place(code)?];
        if slot.code == code { slot.number } else { None }
    }

    // Where all the places tried are taken, the number is noted in the place of another.
    fn note(&mut self, code: u64, number: u16) {
        let Some(place) = self.place(code) else {
            return;
        };
        if self.slots[place].number.is_none() {
            self.taken = self.taken.saturating_add(1);
        }
        self.slots[place] = Slot {
            code,
            number: Some(number),
        };
    }
}
