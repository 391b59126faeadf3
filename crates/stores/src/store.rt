// What a store of rows is: its rows, numbered from 0 up, and a capacity that never changes.
ghost use Rattle.std.specs.Prelude.{◌≡◌, ℕ, [], length};
ghost use Rattle.std.specs.List.{slice_get};
ghost use Rattle.games.specs.Numbered.{list_of};
ghost use Rattle.stores.specs.Reading.{lists_of};
ghost use Rattle.stores.specs.Rows.{Lawful, Rows, append_answer, append_rows, lowest, row_at};

use crate::fault::StoreFault;
use crate::row::Row;
use games::side::Side;

pub trait Store {
    ghost rows: { Self → Rows };

    ghost room: { Self → ℕ };

    // How many rows the store can hold.
    fn capacity(&self) -> usize
        ensures { result ≡ room self.now };

    // How many rows the store has.
    fn count(&self) -> usize
        ensures { result ≡ length (rows self.now) };

    // How many options a row has on a side: 0 where there is no such row.
    fn list_len(&self, side: Side, node: u16) -> usize
        ensures { result ≡ length (list_of side (row_at (rows self.now) node)) };

    // The option of a row at an index of a side, if it is there.
    fn option(&self, side: Side, node: u16, index: usize) -> Option<u16>
        ensures { result ≡ slice_get (list_of side (row_at (rows self.now) node)) index };

    // The lowest number whose row has the same two lists.
    fn find(&self, row: &Row) -> Option<u16>
        ensures { result ≡ lowest (rows self.now) (lists_of row.now) };

    // Takes a row as the last, and answers its number.
    fn append(&mut self, row: Row) -> Result<u16, StoreFault>
        ensures answer { result ≡ append_answer (rows self.old) (room self.old) (lists_of row) }
        ensures rows { rows self.new ≡ append_rows (rows self.old) (room self.old) (lists_of row) }
        ensures room { room self.new ≡ room self.old };

    // Forgets every row.
    fn clear(&mut self)
        ensures rows { rows self.new ≡ [] }
        ensures room { room self.new ≡ room self.old };

    ghost lawful: { (s : Self) → Lawful (rows s) (room s) };
}
