// What a reader takes byte by byte: the items of a board, and the text of a form.
ghost use Rattle.std.specs.Prelude.{ℕ, List};
ghost use Rattle.lines.specs.Machine.{Symbol};
ghost use Rattle.lines.specs.Walks.{Ongoing, Stepped};

use calls::fault::TextFault;
use std::ops::ControlFlow;

// Where a reader stands between two of the bytes.
pub trait Walk: Drop {
    // what is to come, and the byte that ends the walk
    ghost stack: { Self → List Symbol };

    ghost last: { ℕ };

    // Goes on where the byte leads, or ends behind the last one;
    // or its fault, the byte standing at the place.
    fn step(&mut self, byte: u8, place: usize) -> Result<ControlFlow<()>, TextFault>
        ensures { Stepped last (stack self.old) (stack self.new) byte place result };

    ghost ongoing: { (walk : Self) → Ongoing (stack walk) };
}
