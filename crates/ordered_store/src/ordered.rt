// The ordered list: its rows are found by halving a sorted list of their numbers.
ghost use Rattle.std.specs.Prelude.{◌≡◌, ◌≤◌, length, vec_len, vec_capacity};
ghost use Rattle.stores.specs.Kept.{room_of, rows_in};
ghost use Rattle.ordered_store.specs.Rising.{HaveRows, HoldsAll, Rises};

use stores::row_list::RowList;

mod calls;
mod places;

// The rows by number, and beside them all their numbers in rising order of the rows.
#[derive(Drop)]
pub struct OrderedList {
    list: RowList,
    order: Vec<u16>,
    ghost reserved: { room_of list ≤ vec_capacity order },
    ghost level: { vec_len order ≡ length (rows_in list) },
    ghost have_rows: { HaveRows (rows_in list) order.items },
    ghost holds_all: { HoldsAll (rows_in list) order.items },
    ghost rises: { Rises (rows_in list) order.items },
}
