// Entering what a line names into the dictionary: a board, its minus, a sum, or a text.
ghost use Rattle.std.specs.Prelude.{◌≡◌, ℕ, ◌+◌, ◌^◌, ◌<◌, ◌≤◌, ◌++◌, length, codes};
ghost use Rattle.lines.specs.Questions.{DescribesBoard, DescribesSubject};
ghost use Rattle.lines.specs.Syntax.{Board as Written, Subject as Named, plain, minus, spell_board, spell_subject, sum};
ghost use Rattle.reading.specs.Faults.{fault_place};
ghost use Rattle.calculator.specs.declared.fault.CalculatorFault.TheVariants.{Text};
ghost use Rattle.calculator.specs.Entering.{ReadAt, ValuedAt};
ghost use Rattle.calculator.specs.Faults.{answer_of};
ghost use Rattle.calculator.specs.Subjects.{EntersSubject};

use crate::calculator::Calculator;
use crate::fault::CalculatorFault;
use crate::laying::{stand, stand_both};
use boards::sum::add;
use lines::question::{Board, Content, Part, Subject};
use reading::fault::ReadFault;
use reading::read::read;
use rulesets::ruleset::Ruleset;
use stores::store::Store;
use sums::minus::Minus;
use valuing::value::value_with;

// A fault in a text that begins at this place of the line: it has its own place.
fn within(start: usize, fault: ReadFault) -> CalculatorFault
    ensures { start + fault_place fault < 2 ^ 64 → result ≡ Text (start + fault_place fault) fault }
{
    let place = start.saturating_add(fault.place());
    CalculatorFault::Text { place, fault }
}

impl<S: Store> Calculator<S> {
    // Values a position that stands at a place of the line; what valuing refuses is refused there.
    fn enter<R: Ruleset>(
        &mut self,
        place: usize,
        board: &R,
        code: u64,
    ) -> Result<u16, CalculatorFault>
        ensures valued { ValuedAt (R.Ruleset.rules board.now) self.old.dictionary.room
            self.old.dictionary.rows place code (answer_of result) self.new.dictionary.rows }
        ensures room { self.new.dictionary.room ≡ self.old.dictionary.room }
    {
        value_with(&mut self.dictionary, &mut self.memory, board, code).map_err(
            |fault| CalculatorFault::Position { place, fault },
        )
    }

    // A board.
    fn enter_plain(&mut self, place: usize, board: &Board<'_>) -> Result<u16, CalculatorFault>
        ensures entered { (b : Written) → DescribesBoard place board.now b
            → EntersSubject self.old.dictionary.room self.old.dictionary.rows place (plain b)
            (answer_of result) self.new.dictionary.rows }
        ensures room { self.new.dictionary.room ≡ self.old.dictionary.room }
    {
        let setup = stand(board)?;
        self.enter(place, &setup.board, setup.code)
    }

    // The minus of a board, which stands at a place of its own.
    fn enter_minus(&mut self, place: usize, board: &Board<'_>) -> Result<u16, CalculatorFault>
        ensures entered { (b : Written)
            → DescribesBoard (place + length (codes "(minus ")) board.now b
            → EntersSubject self.old.dictionary.room self.old.dictionary.rows place (minus b)
            (answer_of result) self.new.dictionary.rows }
        ensures room { self.new.dictionary.room ≡ self.old.dictionary.room }
    {
        let setup = stand(board)?;
        self.enter(place, &Minus::new(setup.board), setup.code)
    }

    // The sum of two boards: both are set up, and then both are tested for a legal position.
    fn enter_sum(
        &mut self,
        place: usize,
        first: &Board<'_>,
        second: &Board<'_>,
    ) -> Result<u16, CalculatorFault>
        ensures entered { (a b : Written)
            → DescribesBoard (place + length (codes "(sum ")) first.now a
            → DescribesBoard (place + length (codes "(sum " ++ (spell_board a ++ codes " ")))
            second.now b
            → EntersSubject self.old.dictionary.room self.old.dictionary.rows place (sum a b)
            (answer_of result) self.new.dictionary.rows }
        ensures room { self.new.dictionary.room ≡ self.old.dictionary.room }
    {
        let (left, right) = stand_both(first, second)?;
        let code = left.code * right.board.limit() + right.code;
        self.enter(place, &add(left.board, right.board), code)
    }

    // A text, which begins at a place of the line: a fault in it has its own place.
    fn enter_text(&mut self, text: &Part<'_>) -> Result<u16, CalculatorFault>
        ensures entered { text.now.place + length text.now.bytes.now < 2 ^ 64
            → ReadAt self.old.dictionary.room self.old.dictionary.rows text.now.place
            text.now.bytes.now (answer_of result) self.new.dictionary.rows }
        ensures room { self.new.dictionary.room ≡ self.old.dictionary.room }
    {
        let start = text.place;
        let node = read(&mut self.dictionary, text.bytes).map_err(|fault| within(start, fault))?;
        Ok(node)
    }

    // What a line names, by what it is.
    pub(crate) fn enter_subject(&mut self, subject: &Subject<'_>) -> Result<u16, CalculatorFault>
        ensures entered { (i : ℕ) (s : Named) → DescribesSubject i subject.now s
            → i + length (spell_subject s) < 2 ^ 64
            → EntersSubject self.old.dictionary.room self.old.dictionary.rows i s (answer_of result)
            self.new.dictionary.rows }
        ensures room { self.new.dictionary.room ≡ self.old.dictionary.room }
    {
        match &subject.content {
            Content::Plain(board) => self.enter_plain(subject.place, board),
            Content::Minus(board) => self.enter_minus(subject.place, board),
            Content::Sum(first, second) => self.enter_sum(subject.place, first, second),
            Content::Form(text) => self.enter_text(text),
        }
    }
}
