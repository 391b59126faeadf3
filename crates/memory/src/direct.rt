// A table with a place for every code below a limit.
ghost use Rattle.memory.specs.Holds.{At, Joined};
ghost use Rattle.memory.specs.Tables.{NothingNoted};

use crate::notes::Notes;
use std::alloc::Global;

// One more than the number of a code, at the code's place; 0 where none is known. So a place takes
// 2 bytes, and the largest number has none.
#[derive(Drop)]
pub struct Direct {
    numbers: Vec<u16>,
}

impl Direct {
    // A table with a place for every code below the limit, if there is memory for it.
    pub fn with_places(heap: Global, limit: usize) -> Option<Direct>
        ensures { NothingNoted result }
    {
        let mut numbers = Vec::new(heap);
        numbers.resize(limit, 0).ok()?;
        Some(Direct { numbers })
    }

    pub fn places(&self) -> usize {
        self.numbers.len()
    }

    // Notes in another table what this one holds.
    pub fn copy_into<N: Notes>(&self, other: &mut N)
        ensures { Joined (At self.now.numbers.items) (N.holds other.old) (N.holds other.new) }
    {
        for code in 0..self.numbers.len() as u64 {
            if let Some(number) = self.recall(code) {
                other.note(code, number);
            }
        }
    }
}

impl Notes for Direct {
    ghost holds = { λ d. At d.numbers.items };

    fn recall(&self, code: u64) -> Option<u16> {
        self.numbers.get(code as usize)?.checked_sub(1)
    }

    fn note(&mut self, code: u64, number: u16) {
        let place = self.numbers.get_mut(code as usize);
        if let (Some(place), Some(more)) = (place, number.checked_add(1)) {
            *place = more;
        }
    }
}
