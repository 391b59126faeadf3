// Answering a line.
ghost use Rattle.std.specs.Prelude.{◌≡◌, ℕ, ◌≤◌, length};
ghost use Rattle.lines.specs.Questions.{Describes};
ghost use Rattle.lines.specs.Syntax.{Line, spell};
ghost use Rattle.calculator.specs.Laws.{AnswersKeepTheLaws};
ghost use Rattle.calculator.specs.Written.{Answered, Handled, Replied};

use crate::bounds::{LONGEST_ANSWER, LONGEST_LINE};
use crate::calculator::Calculator;
use crate::fault::{BufferFault, CalculatorFault};
use crate::writing::put_fault;
use lines::parse::parse;
use lines::question::Question;
use stores::store::Store;

impl<S: Store> Calculator<S> {
    // Replies to what a right line asks, at the front of the buffer.
    fn reply(
        &mut self,
        question: &Question<'_>,
        out: &mut [u8; LONGEST_ANSWER],
    ) -> Result<usize, CalculatorFault>
        ensures replied { (l : Line) → Describes question.now l → length (spell l) ≤ 1000
            → Replied self.old.dictionary.room self.old.dictionary.rows l out.old out.new
            self.new.dictionary.rows result }
        ensures room { self.new.dictionary.room ≡ self.old.dictionary.room }
    {
        match question {
            Question::Value(subject) => self.reply_value(subject, out),
            Question::Compare(first, second) => self.reply_compare(first, second, out),
            Question::Move(side, board) => self.reply_move(*side, board, out),
        }
    }

    // Replies to a line, or tells why not: then nothing is written.
    fn handle(
        &mut self,
        line: &[u8],
        out: &mut [u8; LONGEST_ANSWER],
    ) -> Result<usize, CalculatorFault>
        ensures handled { Handled self.old.dictionary.room self.old.dictionary.rows line.now out.old
            out.new self.new.dictionary.rows result }
        ensures room { self.new.dictionary.room ≡ self.old.dictionary.room }
    {
        if line.len() > LONGEST_LINE {
            return Err(CalculatorFault::LongLine);
        }
        let question = parse(line)?;
        self.reply(&question, out)
    }

    // Writes the answer to a line at the front of the buffer, and tells its length.
    // A fault is an answer too; only a buffer that an answer may not fit into is refused.
    pub fn answer(&mut self, line: &[u8], buffer: &mut [u8]) -> Result<usize, BufferFault>
        ensures answered { Answered self.old.dictionary.room self.old.dictionary.rows line.now
            buffer.old buffer.new self.new.dictionary.rows result }
        ensures room { self.new.dictionary.room ≡ self.old.dictionary.room }
        ensures laws { AnswersKeepTheLaws }
    {
        let out = buffer
            .first_chunk_mut::<LONGEST_ANSWER>()
            .ok_or(BufferFault::Short)?;
        match self.handle(line, out) {
            Ok(length) => Ok(length),
            Err(fault) => Ok(put_fault(out, fault)),
        }
    }
}
