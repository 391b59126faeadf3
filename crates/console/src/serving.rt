// Answering the lines of an input, one by one.
ghost use Rattle.std.specs.Prelude.{◌≡◌, ◌==◌, ℕ, List, [], ◌∷◌, ◌++◌, Some, IfOk, IfSome, OnOk, position};
ghost use Rattle.std.specs.Io.Buffered.{reader_remaining, writer_buffer, writer_contents};
ghost use Rattle.std.specs.Io.KnownBytes.{Appends};
ghost use Rattle.calculator.specs.Replies.{Answers};
ghost use Rattle.console.specs.Serving.{Begins, Serves, Takes, TakesLine};

use crate::line::Line;
use calculator::bounds::LONGEST_ANSWER;
use calculator::calculator::Calculator;
use std::alloc::Global;
use std::io;
use std::io::{BufRead, BufReader, BufWriter, ErrorKind, Read, Write};
use stores::store::Store;

// What stops a line among the bytes at hand.
enum Stop {
    // Nothing: the line goes on, in bytes that are not at hand yet.
    Nowhere,
    // A line break.
    Break,
    // The end of the input.
    End,
}

// The place of the first line break.
fn line_break(bytes: &[u8]) -> Option<usize>
    ensures { result ≡ position (λ b. b == 10) bytes.now }
{
    bytes.iter().position(|byte| *byte == b'\n')
}

// Takes the bytes at hand that belong to the line, and its line break.
fn take_part<B: BufRead>(input: &mut B, line: &mut Line) -> io::Result<Stop>
    ensures { IfOk result (λ stop. IfSome (B.remaining input.old) (λ bytes. (rest : List ℕ)
        × (B.remaining input.new ≡ Some rest)
        × Takes line.old.bytes.items bytes line.new.bytes.items rest stop)) }
{
    let at_hand = match input.fill_buf() {
        Ok(at_hand) => at_hand,
        Err(fault) if fault.kind() == ErrorKind::Interrupted => return Ok(Stop::Nowhere),
        Err(fault) => return Err(fault),
    };
    if at_hand.is_empty() {
        return Ok(Stop::End);
    }
    match line_break(at_hand) {
        Some(place) => {
            line.keep(&at_hand[..place])?;
            input.consume(place + 1);
            Ok(Stop::Break)
        }
        None => {
            let taken = at_hand.len();
            line.keep(at_hand)?;
            input.consume(taken);
            Ok(Stop::Nowhere)
        }
    }
}

// The next line without its line break, or as much of it as shows that it is too long;
// false where the input has ended.
fn next_line<B: BufRead>(input: &mut B, line: &mut Line) -> io::Result<bool>
    ensures { IfOk result (λ more. IfSome (B.remaining input.old) (λ bytes. (rest : List ℕ)
        × (B.remaining input.new ≡ Some rest) × TakesLine bytes line.new.bytes.items rest more)) }
{
    line.clear();
    for _ in 0..u64::MAX {
        match take_part(input, line)? {
            Stop::Nowhere => {}
            Stop::Break => return Ok(true),
            Stop::End => return Ok(!line.bytes().is_empty()),
        }
    }
    Err(io::Error::from(ErrorKind::TimedOut))
}

// Writes the answer to a line, and a line break.
fn answer_line<S: Store, W: Write>(
    calculator: &mut Calculator<S>,
    line: &[u8],
    answer: &mut [u8; LONGEST_ANSWER],
    output: &mut W,
) -> io::Result<()>
    ensures answered { (t : List ℕ) × Answers calculator.old.dictionary.room
        calculator.old.dictionary.rows line.now t calculator.new.dictionary.rows
        × OnOk result (Appends (W.contents output.old) (W.contents output.new) (t ++ (10 ∷ []))) }
    ensures room { calculator.new.dictionary.room ≡ calculator.old.dictionary.room }
{
    let length = calculator.answer(line, answer).unwrap();
    output.write_all(&answer[..length])?;
    output.write_all(b"\n")
}

// Answers each line of the input with a line, until the input ends.
// What is written goes out before more input is waited for.
// After an error the calculator has answered the first lines,
// and how much of the last answers was written is not known.
pub fn serve<S: Store, R: Read + Drop, W: Write + Drop>(
    heap: Global,
    calculator: &mut Calculator<S>,
    input: &mut BufReader<R>,
    output: &mut BufWriter<W>,
) -> io::Result<()>
    ensures served { OnOk result (Serves calculator.old.dictionary.room
        calculator.old.dictionary.rows (reader_remaining R.remaining input.old)
        (writer_contents W.contents output.old) (writer_contents W.contents output.new)
        calculator.new.dictionary.rows) }
    ensures begun { Begins calculator.old.dictionary.room calculator.old.dictionary.rows
        (reader_remaining R.remaining input.old) calculator.new.dictionary.rows }
    ensures ended { OnOk result (IfSome (reader_remaining R.remaining input.old)
        (λ _. reader_remaining R.remaining input.new ≡ Some [])) }
    ensures flushed { OnOk result (writer_buffer output.new ≡ []) }
    ensures room { calculator.new.dictionary.room ≡ calculator.old.dictionary.room }
{
    let mut line = Line::new(heap)?;
    let mut answer = [0; LONGEST_ANSWER];
    for _ in 0..u64::MAX {
        if !next_line(input, &mut line)? {
            return output.flush();
        }
        answer_line(calculator, line.bytes(), &mut answer, output)?;
        if line_break(input.buffer()).is_none() {
            output.flush()?;
        }
    }
    Err(io::Error::from(ErrorKind::TimedOut))
}
