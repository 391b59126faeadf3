// Closing the brackets of a text one after the other: each is named a node by what its options are.
ghost use Rattle.std.specs.Prelude.{◌≡◌, ℕ, ◌<◌, [], Result, IfOk};
ghost use Rattle.games.specs.Form.{Form};
ghost use Rattle.games.specs.Numbered.{Lists};
ghost use Rattle.calls.specs.Texts.{Written};
ghost use Rattle.reading.specs.Held.{stack_of};
ghost use Rattle.reading.specs.Walked.{Walked};

use crate::frames::Frames;
use crate::mark::Mark;
use crate::options::Options;

// What names a node for a bracket that closes.
pub(crate) trait Closing<T: Options, E> {
    // Closing a bracket: what is there before, the numbers of its options, the place of the mark,
    // what is answered, and what is there after.
    ghost closes: { Self → Lists → ℕ → Result ℕ E → Self → Type 0 };

    // The node of the bracket that the mark at the place closes.
    fn close(&mut self, options: &T, place: usize) -> Result<u16, E>
        ensures { (l : Lists) → T.Options.keeps options.now l
            → closes self.old l place result self.new × IfOk result (λ n. n < 384) };
}

// The node of the last bracket of a form's text, if none is refused;
// each is an option of the bracket outside, if there is one.
pub(crate) fn walk<T: Options, E, C: Closing<T, E>>(
    closing: &mut C,
    frames: &mut Frames<T>,
    text: &[u8],
) -> Result<u16, E>
    requires none_open { stack_of frames.old ≡ [] }
    requires written { (g : Form) × Written text.now g }
    ensures { (g : Form) → Written text.now g
        → Walked C.Closing.closes closing.old g result closing.new }
{
    let mut last = 0;
    for (place, byte) in text.iter().enumerate() {
        match Mark::try_from(*byte).unwrap() {
            Mark::Open => frames.open(),
            Mark::Bar => frames.bar(),
            Mark::Close => {
                let options = frames.close().unwrap();
                let node = closing.close(&options, place)?;
                frames.put(node);
                last = node;
            }
            Mark::Comma => {}
        }
    }
    Ok(last)
}
