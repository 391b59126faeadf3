// The value of a position: its successors are valued first, and then it is sealed.
ghost use Rattle.std.specs.Prelude.{◌≡◌, ℕ, ◌<◌, false, IfOk};
ghost use Rattle.games.specs.Sides.{other};
ghost use Rattle.nodesets.specs.Pairs.{by};
ghost use Rattle.valuing.specs.Answers.{answer_at};
ghost use Rattle.valuing.specs.Sides.{Turned};
ghost use Rattle.valuing.specs.Stepping.{ValueSteps};
ghost use Rattle.valuing.specs.Sure.{GivenBack, Sure};
ghost use Rattle.valuing.specs.Valued.{Entered, Valued};

use crate::fault::ValueFault;
use crate::recall::{Nothing, Recall};
use dictionary::dictionary::Dictionary;
use games::side::Side;
use nodesets::pair::Pair;
use rulesets::ruleset::Ruleset;
use rulesets::successors::successors_of;
use stores::store::Store;

// The node of a position. One that was valued before in the call is told from memory:
// valuing it again would tell the same and add nothing.
// Most are, so this is kept apart from the rest.
#[inline]
#[cycle(entering)]
pub(crate) fn enter<S: Store, M: Recall, R: Ruleset>(
    dictionary: &mut Dictionary<S>,
    memory: &mut M,
    board: &R,
    code: u64,
) -> Result<u16, ValueFault>
    ensures entered { Sure (R.Ruleset.rules board.now) dictionary.old.rows
        (M.Notes.holds memory.old)
        → Entered (R.Ruleset.rules board.now) dictionary.old.room dictionary.old.rows code
        (answer_at result) dictionary.new.rows }
    ensures sure { Sure (R.Ruleset.rules board.now) dictionary.old.rows (M.Notes.holds memory.old)
        → Sure (R.Ruleset.rules board.now) dictionary.new.rows (M.Notes.holds memory.new) }
    ensures small { Sure (R.Ruleset.rules board.now) dictionary.old.rows (M.Notes.holds memory.old)
        → IfOk result (λ node. node < 384) }
    ensures room { dictionary.new.room ≡ dictionary.old.room }
{
    if let Some(known) = memory.recall(code) {
        return Ok(known);
    }
    enter_anew(dictionary, memory, board, code)
}

// Values the Left successors of a position, then the Right ones, and then seals their numbers.
#[inline(never)]
#[cycle(entering)]
fn enter_anew<S: Store, M: Recall, R: Ruleset>(
    dictionary: &mut Dictionary<S>,
    memory: &mut M,
    board: &R,
    code: u64,
) -> Result<u16, ValueFault>
    ensures entered { Sure (R.Ruleset.rules board.now) dictionary.old.rows
        (M.Notes.holds memory.old)
        → Entered (R.Ruleset.rules board.now) dictionary.old.room dictionary.old.rows code
        (answer_at result) dictionary.new.rows }
    ensures sure { Sure (R.Ruleset.rules board.now) dictionary.old.rows (M.Notes.holds memory.old)
        → Sure (R.Ruleset.rules board.now) dictionary.new.rows (M.Notes.holds memory.new) }
    ensures small { Sure (R.Ruleset.rules board.now) dictionary.old.rows (M.Notes.holds memory.old)
        → IfOk result (λ node. node < 384) }
    ensures room { dictionary.new.room ≡ dictionary.old.room }
{
    let mut moves = Pair::default();
    enter_side(dictionary, memory, board, Side::Left, code, &mut moves)?;
    enter_side(dictionary, memory, board, Side::Right, code, &mut moves)?;
    let node = dictionary
        .seal(&moves)
        .map_err(|fault| ValueFault::Position { code, fault })?;
    memory.note(code, node);
    Ok(node)
}

// Values the side's successors in order, and puts the node of each into the side's set.
#[cycle(entering)]
fn enter_side<S: Store, M: Recall, R: Ruleset>(
    dictionary: &mut Dictionary<S>,
    memory: &mut M,
    board: &R,
    side: Side,
    code: u64,
    moves: &mut Pair,
) -> Result<(), ValueFault>
    ensures turned { Sure (R.Ruleset.rules board.now) dictionary.old.rows (M.Notes.holds memory.old)
        → ((k : ℕ) → by moves.old side k ≡ false)
        → Turned (R.Ruleset.rules board.now) dictionary.old.room dictionary.old.rows side code
        (by moves.new side) dictionary.new.rows result }
    ensures sure { Sure (R.Ruleset.rules board.now) dictionary.old.rows (M.Notes.holds memory.old)
        → Sure (R.Ruleset.rules board.now) dictionary.new.rows (M.Notes.holds memory.new) }
    ensures theirs { (k : ℕ) → by moves.new (other side) k ≡ by moves.old (other side) k }
    ensures room { dictionary.new.room ≡ dictionary.old.room }
{
    for next in successors_of(board, side, code) {
        let node = enter(dictionary, memory, board, next)?;
        moves.insert(side, usize::from(node));
    }
    Ok(())
}

// The node of a position's value. The memory is lent for the call, and forgets what it held.
pub fn value_with<S: Store, M: Recall, R: Ruleset>(
    dictionary: &mut Dictionary<S>,
    memory: &mut M,
    board: &R,
    code: u64,
) -> Result<u16, ValueFault>
    ensures valued { Valued (R.Ruleset.rules board.now) dictionary.old.room dictionary.old.rows code
        (answer_at result) dictionary.new.rows }
    ensures step { ValueSteps (R.Ruleset.rules board.now) dictionary.old.room dictionary.old.rows
        code (answer_at result) dictionary.new.rows }
    ensures memory { GivenBack M.Notes.holds (R.Ruleset.rules board.now) code memory.old
        dictionary.new.rows memory.new }
    ensures room { dictionary.new.room ≡ dictionary.old.room }
{
    if !board.is_legal(code) {
        return Err(ValueFault::Illegal);
    }
    memory.forget(board.limit());
    enter(dictionary, memory, board, code)
}

// The same without a memory, for small boards.
pub fn value<S: Store, R: Ruleset>(
    dictionary: &mut Dictionary<S>,
    board: &R,
    code: u64,
) -> Result<u16, ValueFault>
    ensures valued { Valued (R.Ruleset.rules board.now) dictionary.old.room dictionary.old.rows code
        (answer_at result) dictionary.new.rows }
    ensures step { ValueSteps (R.Ruleset.rules board.now) dictionary.old.room dictionary.old.rows
        code (answer_at result) dictionary.new.rows }
    ensures room { dictionary.new.room ≡ dictionary.old.room }
{
    value_with(dictionary, &mut Nothing, board, code)
}
