// The sum of two boards.
ghost use Rattle.std.specs.Prelude.{◌≡◌};
ghost use Rattle.sums.specs.Laws.{SumAdds};
ghost use Rattle.boards.specs.AnyBoards.{any_rules};
ghost use Rattle.boards.specs.Laws.{BoardsFit};

use crate::board::AnyBoard;
use sums::sum::Sum;

// No two boards are too large to be added.
pub fn add(first: AnyBoard, second: AnyBoard) -> Sum<AnyBoard, AnyBoard>
    ensures parts { (result.first ≡ first) × (result.second ≡ second) }
    ensures fit { BoardsFit }
    ensures adds { SumAdds (any_rules first) (any_rules second) }
{
    Sum::new(first, second).unwrap()
}
