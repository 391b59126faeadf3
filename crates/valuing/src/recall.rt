// What one call of valuing may remember of the positions that it has valued.
ghost use Rattle.std.specs.Prelude.{ℕ};

use memory::memory::Memory;
use memory::notes::Notes;

// Notes that can be forgotten all at once.
pub trait Recall: Notes {
    // Forgets all, and is ready for codes below the limit.
    fn forget(&mut self, limit: u64)
        ensures { (code n : ℕ) → Self.holds self.new code n → ⊥ };
}

impl Recall for Memory {
    fn forget(&mut self, limit: u64) {
        Memory::forget(self, limit);
    }
}

// No memory: every position is valued as often as play comes to it.
#[derive(Clone, Copy, Debug, Default, PartialEq, Eq)]
pub struct Nothing;

impl Notes for Nothing {
    ghost holds = { λ nothing code n. ⊥ };

    fn recall(&self, _code: u64) -> Option<u16> {
        None
    }

    fn note(&mut self, _code: u64, _number: u16) {}
}

impl Recall for Nothing {
    fn forget(&mut self, _limit: u64) {}
}
