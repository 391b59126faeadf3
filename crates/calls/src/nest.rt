// Where a reader stands in the text of a form: at a place in a list of its options,
// and in the brackets outside.
ghost use Rattle.std.specs.Prelude.{◌≡◌, ◌+◌, ◌≤◌, true, length};
ghost use Rattle.std.specs.List.{list_all};
ghost use Rattle.calls.specs.TextSpots.{is_after, open_at};

use arrayvec::ArrayVec;
use games::side::Side;

mod steps;

// The most brackets that may be open.
pub const MOST_OPEN: usize = 96;

// Before a form, at the start of a side's options, or after one of them.
#[derive(Clone, Copy, Debug, Default, PartialEq, Eq)]
pub enum TextSpot {
    #[default]
    Form,
    Start(Side),
    After(Side),
}

// The brackets outside wait for an option to end: where each goes on then, the innermost last.
#[derive(Debug, PartialEq, Eq, Drop)]
pub struct Nest {
    spot: TextSpot,
    outside: ArrayVec<TextSpot, MOST_OPEN>,
    ghost waits: { list_all is_after outside.items ≡ true },
    ghost few: { open_at spot + length outside.items ≤ 96 },
}
