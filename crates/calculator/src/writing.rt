// Writing at the front of a buffer: each function answers how much it wrote,
// and leaves the rest as it was.
ghost use Rattle.std.specs.Prelude.{◌≡◌, ◌≤◌, flat_map, length};
ghost use Rattle.dictionary.specs.Printing.{over};
ghost use Rattle.calculator.specs.Faults.{number_of, place_of};
ghost use Rattle.calculator.specs.Replies.{fault_text, head_text};

use crate::bounds::LONGEST_ANSWER;
use crate::fault::CalculatorFault;
use games::outcome::Outcome;
use itoa::Buffer;

// Writes some parts, one behind the other.
pub fn put(out: &mut [u8; LONGEST_ANSWER], parts: &[&[u8]]) -> usize
    requires { length (flat_map (λ part. part.now) parts.now) ≤ 4096 }
    ensures behind { result ≡ length (flat_map (λ part. part.now) parts.now) }
    ensures written { out.new ≡ over out.old 0 (flat_map (λ part. part.now) parts.now) }
{
    let mut end = 0;
    for part in parts {
        let next = end + part.len();
        out[end..next].copy_from_slice(part);
        end = next;
    }
    end
}

// Writes a fault: its number and its place.
pub fn put_fault(out: &mut [u8; LONGEST_ANSWER], fault: CalculatorFault) -> usize
    ensures behind { result ≡ length (fault_text (number_of fault) (place_of fault)) }
    ensures inside { result ≤ 4096 }
    ensures written { out.new ≡ over out.old 0 (fault_text (number_of fault) (place_of fault)) }
{
    put(
        out,
        &[
            b"fault ",
            Buffer::new().format(fault.number()).as_bytes(),
            b" ",
            Buffer::new().format(fault.place()).as_bytes(),
        ],
    )
}

// Writes the head of a value: the node's number and its outcome, a space after each.
pub fn put_head(out: &mut [u8; LONGEST_ANSWER], node: u16, outcome: Outcome) -> usize
    ensures behind { result ≡ length (head_text node outcome) }
    ensures written { out.new ≡ over out.old 0 (head_text node outcome) }
{
    let letter = [b' ', outcome.letter() as u8, b' '];
    put(out, &[Buffer::new().format(node).as_bytes(), &letter])
}
