// How the rows of a store compare with a row.
ghost use Rattle.std.specs.Prelude.{◌≡◌};
ghost use Rattle.stores.specs.Kept.{rows_in};
ghost use Rattle.stores.specs.Order.{row_order};
ghost use Rattle.stores.specs.Reading.{lists_of};
ghost use Rattle.stores.specs.Rows.{row_at, same_lists};

use super::RowList;
use crate::row::Row;
use std::cmp::Ordering;

impl RowList {
    // Whether the row of `node` has the same two lists as another.
    pub fn same(&self, node: u16, row: &Row) -> bool
        ensures { result ≡ same_lists (row_at (rows_in self.now) node) (lists_of row.now) }
    {
        match self.rows.get(usize::from(node)) {
            Some(kept) => kept == row,
            None => &Row::default() == row,
        }
    }

    // Whether the row of `node` is earlier than another or later,
    // by their Left lists and then by their Right lists.
    pub fn order(&self, node: u16, row: &Row) -> Ordering
        ensures { result ≡ row_order (row_at (rows_in self.now) node) (lists_of row.now) }
    {
        match self.rows.get(usize::from(node)) {
            Some(kept) => kept.cmp(row),
            None => Row::default().cmp(row),
        }
    }
}
