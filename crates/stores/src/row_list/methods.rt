// What every store answers from its rows alone.
ghost use Rattle.std.specs.Prelude.{◌≡◌, [], length};
ghost use Rattle.std.specs.List.{slice_get};
ghost use Rattle.games.specs.Numbered.{list_of};
ghost use Rattle.stores.specs.Kept.{room_of, rows_in};
ghost use Rattle.stores.specs.Reading.{lists_of};
ghost use Rattle.stores.specs.Rows.{Made, append_answer, append_rows, row_at};

use super::RowList;
use crate::fault::{MakeFault, StoreFault};
use crate::row::Row;
use games::bounds::MOST_NODES;
use games::side::Side;
use std::alloc::Global;

impl RowList {
    // An empty list, with memory for `capacity` rows.
    pub fn new(heap: Global, capacity: usize) -> Result<RowList, MakeFault>
        ensures { Made rows_in room_of capacity result }
    {
        if capacity < 1 || capacity > MOST_NODES {
            return Err(MakeFault::Capacity);
        }
        let rows = Vec::with_capacity(heap, capacity)?;
        Ok(RowList { rows, capacity })
    }

    // How many rows the list can hold.
    pub fn capacity(&self) -> usize
        ensures { result ≡ room_of self.now }
    {
        self.capacity
    }

    // How many rows the list has.
    pub fn count(&self) -> usize
        ensures { result ≡ length (rows_in self.now) }
    {
        self.rows.len()
    }

    // The list of a side of a row, which is empty where there is no such row.
    pub fn list(&self, side: Side, node: u16) -> &[u16]
        ensures { result.now ≡ list_of side (row_at (rows_in self.now) node) }
    {
        match self.rows.get(usize::from(node)) {
            Some(row) => row.list(side),
            None => &[],
        }
    }

    // How many options a row has on a side.
    pub fn list_len(&self, side: Side, node: u16) -> usize
        ensures { result ≡ length (list_of side (row_at (rows_in self.now) node)) }
    {
        self.list(side, node).len()
    }

    // The option of a row at an index of a side, if it is there.
    pub fn option(&self, side: Side, node: u16, index: usize) -> Option<u16>
        ensures { result ≡ slice_get (list_of side (row_at (rows_in self.now) node)) index }
    {
        self.list(side, node).get(index).copied()
    }

    // Takes a row as the last, and answers its number.
    pub fn append(&mut self, row: Row) -> Result<u16, StoreFault>
        ensures answer { result ≡ append_answer (rows_in self.old) (room_of self.old)
            (lists_of row) }
        ensures rows { rows_in self.new ≡ append_rows (rows_in self.old) (room_of self.old)
            (lists_of row) }
        ensures capacity { room_of self.new ≡ room_of self.old }
    {
        let count = self.rows.len();
        if !row.names_below(count) {
            return Err(StoreFault::Unknown);
        }
        if count == self.capacity {
            return Err(StoreFault::Full);
        }
        self.rows.push_reserved(row);
        Ok(count as u16)
    }

    // Forgets every row.
    pub fn clear(&mut self)
        ensures rows { rows_in self.new ≡ [] }
        ensures capacity { room_of self.new ≡ room_of self.old }
    {
        self.rows.clear();
    }
}
