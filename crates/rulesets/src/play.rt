// Who wins a position, found by play alone: a second opinion that knows nothing of values.
ghost use Rattle.std.specs.Prelude.{◌≡◌, IfOk};
ghost use Rattle.games.specs.Outcomes.{outcome};
ghost use Rattle.rulesets.specs.Laws.{GameReads};
ghost use Rattle.rulesets.specs.Rules.{game};
ghost use Rattle.rulesets.specs.Winning.{mover_wins, starter_wins, winning};

use crate::ruleset::Ruleset;
use crate::successors::successors_of;
use games::outcome::Outcome;
use games::side::Side;
use std::alloc::{AllocError, Global};

// Whether the side, starting at the position, can win: some move leaves a position that the other,
// starting it, cannot win.
pub fn can_win<R: Ruleset>(board: &R, side: Side, code: u64) -> bool
    ensures { result ≡ starter_wins (R.Ruleset.rules board.now) side code }
{
    successors_of(board, side, code).any(
        |next|
            ensures { result ≡ mover_wins (R.Ruleset.rules board.entry.now) side next }
        { !can_win(board, side.other(), next) },
    )
}

// The outcome of the position's game, told by who can win when starting.
pub fn outcome_of<R: Ruleset>(board: &R, code: u64) -> Outcome
    ensures { result ≡ outcome (game (R.Ruleset.rules board.now) code) }
{
    Outcome::by_play(
        can_win(board, Side::Left, code),
        can_win(board, Side::Right, code),
    )
}

// The indices, rising, of the side's moves that win: from there the other, starting, cannot win.
// Fails only for want of memory.
pub fn winning_moves<R: Ruleset>(
    heap: Global,
    board: &R,
    side: Side,
    code: u64,
) -> Result<Vec<usize>, AllocError>
    ensures winning { IfOk result (λ v. v.items ≡ winning (R.Ruleset.rules board.now) side code) }
    ensures reads { GameReads (R.Ruleset.rules board.now) }
{
    successors_of(board, side, code)
        .enumerate()
        .filter(|(_, left)| !can_win(board, side.other(), *left))
        .map(|(index, _)| index)
        .collect(heap)
}
