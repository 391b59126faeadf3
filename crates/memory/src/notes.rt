// What numbers are noted in by codes: it may forget one at any time, and never tells a wrong one.
ghost use Rattle.std.specs.Prelude.{ℕ};
ghost use Rattle.memory.specs.Holds.{More, Recalls};

pub trait Notes {
    // the numbers that it holds for a code
    ghost holds: { Self → ℕ → ℕ → Type 0 };

    // The number that was noted for the code, if it is still known.
    fn recall(&self, code: u64) -> Option<u16>
        ensures { Recalls (holds self.now code) result };

    // Notes the number for the code, if there is a place for it.
    fn note(&mut self, code: u64, number: u16)
        ensures { More (holds self.old) code number (holds self.new) };
}
