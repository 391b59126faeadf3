// Rows: the numbers of a node's options on each side.
use crate::numbers::Numbers;
use games::bounds::MOST_OPTIONS;

mod lists;
mod text;

// The numbers of the Left options and of the Right options, at most `MOST` on a side.
#[derive(Clone, Copy, Debug, Default, PartialEq, Eq, PartialOrd, Ord)]
pub struct Sides<const MOST: usize> {
    left: Numbers<MOST>,
    right: Numbers<MOST>,
}

// A row of a store.
pub type Row = Sides<MOST_OPTIONS>;
