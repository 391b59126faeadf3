// A first move that wins: every successor of the mover is valued, and the values tell who wins.
ghost use Rattle.std.specs.Prelude.{◌≡◌, ◌<◌, length};
ghost use Rattle.games.specs.Form.{𝟎};
ghost use Rattle.games.specs.Tests.{as_good};
ghost use Rattle.calls.specs.Rows.{node};
ghost use Rattle.valuing.specs.Answers.{answer_at};
ghost use Rattle.valuing.specs.Moved.{Earliest, Latest, Moved, earlier_of, later_of, won_by};
ghost use Rattle.valuing.specs.Stepping.{FirstMoveSteps};
ghost use Rattle.valuing.specs.Sure.{GivenBack};

use crate::fault::ValueFault;
use crate::recall::{Nothing, Recall};
use crate::value::enter;
use dictionary::dictionary::Dictionary;
use games::outcome::Outcome;
use games::side::Side;
use rulesets::ruleset::Ruleset;
use rulesets::successors::successors_of;
use stores::store::Store;

// Whether the side, moving second, wins a game of the outcome.
fn is_won(side: Side, outcome: Outcome) -> bool
    ensures { result ≡ won_by side outcome }
{
    match outcome {
        Outcome::Zero => true,
        Outcome::Fuzzy => false,
        Outcome::Positive => side == Side::Left,
        Outcome::Negative => side == Side::Right,
    }
}

// Whether the side, moving second, wins the game of a node.
fn wins<S: Store>(dictionary: &Dictionary<S>, side: Side, number: u16) -> bool
    ensures { number < length dictionary.now.rows
        → result ≡ as_good side (node dictionary.now.rows number) 𝟎 }
{
    dictionary
        .outcome(number)
        .is_ok_and(|outcome| is_won(side, outcome))
}

// The move found before, or else this one if it wins.
fn earlier(found: Option<usize>, index: usize, wins: bool) -> Option<usize>
    ensures { result ≡ earlier_of found index wins }
{
    found.or(wins.then_some(index))
}

// This move if it wins, or else the one found before.
fn later(found: Option<usize>, index: usize, wins: bool) -> Option<usize>
    ensures { result ≡ later_of found index wins }
{
    wins.then_some(index).or(found)
}

// The index of the earliest first move that wins for the side, if there is one.
// All of the side's successors are valued.
// The memory is lent for the call, and forgets what it held.
pub fn first_move_with<S: Store, M: Recall, R: Ruleset>(
    dictionary: &mut Dictionary<S>,
    memory: &mut M,
    board: &R,
    side: Side,
    code: u64,
) -> Result<Option<usize>, ValueFault>
    ensures moved { Moved (R.Ruleset.rules board.now) dictionary.old.room dictionary.old.rows side
        code (answer_at result) dictionary.new.rows }
    ensures step { FirstMoveSteps (R.Ruleset.rules board.now) dictionary.old.room
        dictionary.old.rows side code (answer_at result) dictionary.new.rows }
    ensures earliest { Earliest (R.Ruleset.rules board.now) side code (answer_at result) }
    ensures memory { GivenBack M.Notes.holds (R.Ruleset.rules board.now) code memory.old
        dictionary.new.rows memory.new }
    ensures room { dictionary.new.room ≡ dictionary.old.room }
{
    if !board.is_legal(code) {
        return Err(ValueFault::Illegal);
    }
    memory.forget(board.limit());
    let mut winning = None;
    for (index, next) in successors_of(board, side, code).enumerate() {
        let number = enter(dictionary, memory, board, next)?;
        winning = earlier(winning, index, wins(dictionary, side, number));
    }
    Ok(winning)
}

// The index of the last first move that wins for the side, if there is one.
// All of the side's successors are valued, without a memory: it is for small boards.
pub fn first_move<S: Store, R: Ruleset>(
    dictionary: &mut Dictionary<S>,
    board: &R,
    side: Side,
    code: u64,
) -> Result<Option<usize>, ValueFault>
    ensures moved { Moved (R.Ruleset.rules board.now) dictionary.old.room dictionary.old.rows side
        code (answer_at result) dictionary.new.rows }
    ensures step { FirstMoveSteps (R.Ruleset.rules board.now) dictionary.old.room
        dictionary.old.rows side code (answer_at result) dictionary.new.rows }
    ensures latest { Latest (R.Ruleset.rules board.now) side code (answer_at result) }
    ensures room { dictionary.new.room ≡ dictionary.old.room }
{
    if !board.is_legal(code) {
        return Err(ValueFault::Illegal);
    }
    let mut winning = None;
    for (index, successor) in successors_of(board, side, code).enumerate() {
        let number = enter(dictionary, &mut Nothing, board, successor)?;
        winning = later(winning, index, wins(dictionary, side, number));
    }
    Ok(winning)
}
