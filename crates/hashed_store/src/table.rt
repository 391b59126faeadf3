// The hash-consed table: its rows are found by 128 chains.
ghost use Rattle.std.specs.Prelude.{◌≡◌, ◌≤◌, length, vec_len, vec_capacity};
ghost use Rattle.hashed_store.specs.Chains.{Begins, GoesOn};
ghost use Rattle.stores.specs.Kept.{room_of, rows_in};

use stores::row_list::RowList;

mod calls;
mod chains;

// How many chains there are.
const CHAINS: usize = 128;

// A chain runs from the last row of its own down to the first:
// `firsts` has where each begins, `lowers` where it goes on from a row.
// So each row is in the chain of the sum of its options, and in no other.
#[derive(Drop)]
pub struct HashTable {
    list: RowList,
    firsts: [Option<u16>; CHAINS],
    lowers: Vec<Option<u16>>,
    ghost reserved: { room_of list ≤ vec_capacity lowers },
    ghost level: { vec_len lowers ≡ length (rows_in list) },
    ghost full: { length firsts ≡ 128 },
    ghost begins: { Begins (rows_in list) firsts },
    ghost goes_on: { GoesOn (rows_in list) lowers.items },
}
