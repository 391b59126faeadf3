// Whether a text is a form's, nested at most 96 deep, and what is wrong with any other.
ghost use Rattle.reading.specs.Verdict.{Verdict};

use crate::fault::TextFault;
use calls::nest::Nest;

// Refuses a text that is no form's, or is nested too deep, at the first byte that is not in order.
pub fn check(text: &[u8]) -> Result<(), TextFault>
    ensures { Verdict text.now result }
{
    let mut nest = Nest::default();
    for (place, byte) in text.iter().enumerate() {
        if nest.take(*byte, place)?.is_break() {
            let behind = place + 1;
            if behind < text.len() {
                return Err(TextFault::WrongByte(behind));
            }
            return Ok(());
        }
    }
    Err(TextFault::EarlyEnd(text.len()))
}
