// The open brackets of a text.
ghost use Rattle.std.specs.Prelude.{◌≤◌, length};

use arrayvec::ArrayVec;
use calls::nest::MOST_OPEN;
use games::side::Side;

mod stack;

// An open bracket: the side whose options are being read, and what is kept of the options so far.
#[derive(Clone, Copy, Debug, PartialEq, Eq)]
pub(crate) struct Frame<T> {
    side: Side,
    options: T,
}

// The open brackets, outermost first.
#[derive(Debug, PartialEq, Eq, Drop)]
pub(crate) struct Frames<T> {
    items: ArrayVec<Frame<T>, MOST_OPEN>,
    ghost few: { length items.items ≤ 96 },
}
