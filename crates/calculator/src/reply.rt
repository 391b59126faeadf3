// Replies to what a right line asks, written at the front of a buffer.
ghost use Rattle.std.specs.Prelude.{◌≡◌, ℕ, ◌+◌, ◌^◌, ◌<◌, ◌≤◌, length};
ghost use Rattle.games.specs.declared.side.Side.{Side};
ghost use Rattle.lines.specs.Questions.{DescribesBoard, DescribesSubject};
ghost use Rattle.lines.specs.Syntax.{Board as Written, Subject as Named, comparison, first_move, spell_subject, value};
ghost use Rattle.games.specs.Outcomes.{sign};
ghost use Rattle.calculator.specs.Replies.{board_place, first_place, move_text, second_place, value_place};
ghost use Rattle.calculator.specs.Written.{AtFront, Replied, WroteValue};

use crate::bounds::LONGEST_ANSWER;
use crate::calculator::Calculator;
use crate::fault::CalculatorFault;
use crate::laying::stand;
use crate::writing::{put, put_head};
use games::outcome::Comparison;
use games::side::Side;
use itoa::Buffer;
use lines::question::{Board, Subject};
use stores::store::Store;
use valuing::first_move::first_move_with;

// Writes how two games compare.
fn put_comparison(out: &mut [u8; LONGEST_ANSWER], comparison: Comparison) -> usize
    ensures behind { result ≡ length (sign comparison) }
    ensures written { AtFront out.old (sign comparison) out.new }
{
    put(out, &[comparison.sign().as_bytes()])
}

// Writes the index of a move, or that there is none.
fn put_move(out: &mut [u8; LONGEST_ANSWER], index: Option<usize>) -> usize
    ensures behind { result ≡ length (move_text index) }
    ensures written { AtFront out.old (move_text index) out.new }
{
    match index {
        Some(index) => put(out, &[Buffer::new().format(index).as_bytes()]),
        None => put(out, &[b"none"]),
    }
}

impl<S: Store> Calculator<S> {
    // Writes a node's number, its outcome and its text. The text goes into what remains of the
    // answer line behind the others, and is printed first,
    // so that nothing is written where it does not fit.
    fn write_value(
        &self,
        node: u16,
        out: &mut [u8; LONGEST_ANSWER],
    ) -> Result<usize, CalculatorFault>
        ensures { node < length self.now.dictionary.rows
            → WroteValue self.now.dictionary.rows node out.old out.new result }
    {
        let outcome = self.dictionary.outcome(node)?;
        let start = Buffer::new().format(node).len() + 3;
        let length = self
            .dictionary
            .print(node, &mut out[start..LONGEST_ANSWER])?;
        put_head(out, node, outcome);
        Ok(start + length)
    }

    // The value of what a line names.
    pub(crate) fn reply_value(
        &mut self,
        subject: &Subject<'_>,
        out: &mut [u8; LONGEST_ANSWER],
    ) -> Result<usize, CalculatorFault>
        ensures replied { (s : Named) → DescribesSubject value_place subject.now s
            → value_place + length (spell_subject s) < 2 ^ 64
            → Replied self.old.dictionary.room self.old.dictionary.rows (value s) out.old out.new
            self.new.dictionary.rows result }
        ensures room { self.new.dictionary.room ≡ self.old.dictionary.room }
    {
        let node = self.enter_subject(subject)?;
        self.write_value(node, out)
    }

    // How two things compare that a line names, the first of them done before the second.
    pub(crate) fn reply_compare(
        &mut self,
        first: &Subject<'_>,
        second: &Subject<'_>,
        out: &mut [u8; LONGEST_ANSWER],
    ) -> Result<usize, CalculatorFault>
        ensures replied { (s u : Named) → DescribesSubject first_place first.now s
            → DescribesSubject (second_place s) second.now u
            → first_place + length (spell_subject s) < 2 ^ 64
            → second_place s + length (spell_subject u) < 2 ^ 64
            → Replied self.old.dictionary.room self.old.dictionary.rows (comparison s u) out.old
            out.new self.new.dictionary.rows result }
        ensures room { self.new.dictionary.room ≡ self.old.dictionary.room }
    {
        let left = self.enter_subject(first)?;
        let right = self.enter_subject(second)?;
        let comparison = self.dictionary.compare(left, right)?;
        Ok(put_comparison(out, comparison))
    }

    // A first move that wins on a board of the line.
    pub(crate) fn reply_move(
        &mut self,
        side: Side,
        board: &Board<'_>,
        out: &mut [u8; LONGEST_ANSWER],
    ) -> Result<usize, CalculatorFault>
        ensures replied { (b : Written) → DescribesBoard (board_place side) board.now b
            → Replied self.old.dictionary.room self.old.dictionary.rows (first_move side b) out.old
            out.new self.new.dictionary.rows result }
        ensures room { self.new.dictionary.room ≡ self.old.dictionary.room }
    {
        let setup = stand(board)?;
        let place = board.place;
        let index = first_move_with(
            &mut self.dictionary,
            &mut self.memory,
            &setup.board,
            side,
            setup.code,
        )
        .map_err(|fault| CalculatorFault::Position { place, fault })?;
        Ok(put_move(out, index))
    }
}
