// A side's successors of a position, one after another.
ghost use Rattle.std.specs.Prelude.{◌≡◌};
ghost use Rattle.std.specs.Iterator.{YieldsFirst, item_count};
ghost use Rattle.rulesets.specs.Remaining.{moves_left};

use crate::ruleset::Ruleset;
use games::side::Side;

// The successors from an index on.
#[derive(Drop)]
pub struct Successors<'a, R> {
    board: &'a R,
    side: Side,
    code: u64,
    index: usize,
}

impl<'a, R: Ruleset> Iterator for Successors<'a, R> {
    type Item = u64;

    ghost next_gives = { YieldsFirst (moves_left R.Ruleset.rules) };

    ghost remaining = { item_count (moves_left R.Ruleset.rules) };

    fn next(&mut self) -> Option<u64> {
        let next = self.board.successor(self.side, self.code, self.index)?;
        self.index += 1;
        Some(next)
    }
}

// The side's successors of a position, in order.
pub fn successors_of<'a, R: Ruleset>(board: &'a R, side: Side, code: u64) -> Successors<'a, R>
    ensures { moves_left R.Ruleset.rules result ≡ (R.Ruleset.rules board.now).moves side code }
{
    Successors {
        board,
        side,
        code,
        index: 0,
    }
}
