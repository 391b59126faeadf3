// The boards of a line: set up, and tested for a legal position.
ghost use Rattle.std.specs.Prelude.{◌≡◌, ℕ};
ghost use Rattle.lines.specs.Questions.{DescribesBoard};
ghost use Rattle.lines.specs.Syntax.{Board as Written};
ghost use Rattle.calculator.specs.Laying.{BothLegal, Laid, Permitted, Stood, StoodBoth};

use crate::fault::CalculatorFault;
use boards::setup::{Setup, set_up_domineering, set_up_hackenbush, set_up_toads};
use lines::question::{Board, Kind};
use rulesets::ruleset::Ruleset;

// Sets up a board of a line; refused is a size beyond its rules, at the board's place.
pub fn lay(board: &Board<'_>) -> Result<Setup, CalculatorFault>
    ensures { (place : ℕ) (b : Written) → DescribesBoard place board.now b → Laid place b result }
{
    let items = board.items.bytes;
    let place = board.place;
    let setup = match board.kind {
        Kind::Domineering => set_up_domineering(items),
        Kind::Toads => set_up_toads(items),
        Kind::Hackenbush => set_up_hackenbush(items),
    }
    .map_err(|fault| CalculatorFault::Board { place, fault })?;
    Ok(setup)
}

// Refuses a position that is not legal, at the board's place.
pub fn permit(setup: &Setup, place: usize) -> Result<(), CalculatorFault>
    ensures { Permitted setup.now place result }
{
    if setup.board.is_legal(setup.code) {
        Ok(())
    } else {
        Err(CalculatorFault::Illegal { place })
    }
}

// Sets up a board of a line, and refuses a position that is not legal.
pub fn stand(board: &Board<'_>) -> Result<Setup, CalculatorFault>
    ensures { (place : ℕ) (b : Written) → DescribesBoard place board.now b → Stood place b result }
{
    let setup = lay(board)?;
    permit(&setup, board.place)?;
    Ok(setup)
}

// Sets up two boards, and then refuses a position that is not legal.
pub fn stand_both(first: &Board<'_>, second: &Board<'_>) -> Result<(Setup, Setup), CalculatorFault>
    ensures stood { (i j : ℕ) (a b : Written) → DescribesBoard i first.now a
        → DescribesBoard j second.now b → StoodBoth i a j b result }
    ensures both { BothLegal result }
{
    let left = lay(first)?;
    let right = lay(second)?;
    permit(&left, first.place)?;
    permit(&right, second.place)?;
    Ok((left, right))
}
