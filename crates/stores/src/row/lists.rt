// How the numbers of both sides are made and read.
ghost use Rattle.std.specs.Prelude.{◌≡◌, ◌≤◌, length};
ghost use Rattle.std.specs.Option.{option_map};
ghost use Rattle.games.specs.Numbered.{list_of};
ghost use Rattle.stores.specs.Rows.{all_below, names_below, pushed, row_of_lists};
ghost use Rattle.stores.specs.Reading.{lists_of};

use super::{Row, Sides};
use crate::numbers::Numbers;
use games::side::Side;

impl<const MOST: usize> Sides<MOST> {
    // The list of a side.
    pub fn list(&self, side: Side) -> &[u16]
        ensures value { result.now ≡ list_of side (lists_of self.now) }
        ensures few { length result.now ≤ MOST }
    {
        match side {
            Side::Left => self.left.list(),
            Side::Right => self.right.list(),
        }
    }

    // One number more on a side, if there is room.
    pub fn push(&mut self, side: Side, number: u16)
        ensures { lists_of self.new ≡ pushed MOST side number (lists_of self.old) }
    {
        match side {
            Side::Left => self.left.push(number),
            Side::Right => self.right.push(number),
        }
    }
}

impl Row {
    // The row with these two lists, unless one has more than 16 numbers.
    pub fn new(left: &[u16], right: &[u16]) -> Option<Row>
        ensures { option_map lists_of result ≡ row_of_lists left.now right.now }
    {
        let left = Numbers::new(left)?;
        let right = Numbers::new(right)?;
        Some(Sides { left, right })
    }

    // Whether the row names only numbers below `limit`.
    pub fn names_below(&self, limit: usize) -> bool
        ensures { result ≡ names_below limit (lists_of self.now) }
    {
        all_below(self.list(Side::Left), limit) && all_below(self.list(Side::Right), limit)
    }
}

fn all_below(numbers: &[u16], limit: usize) -> bool
    ensures { result ≡ all_below limit numbers.now }
{
    numbers.iter().all(|number| usize::from(*number) < limit)
}
