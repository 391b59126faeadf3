// The calls of a store as values, and its answers.
ghost use Rattle.std.specs.Prelude.{◌≡◌};
ghost use Rattle.store_runs.specs.Runs.{answer_to, rows_after};

use games::side::Side;
use stores::fault::StoreFault;
use stores::row::Row;
use stores::store::Store;

#[derive(Clone, Copy, Debug, PartialEq, Eq)]
pub enum StoreCall {
    Capacity,
    Count,
    ListLen(Side, u16),
    OptionAt(Side, u16, usize),
    Find(Row),
    Append(Row),
    Clear,
}

#[derive(Clone, Copy, Debug, PartialEq, Eq)]
pub enum StoreAnswer {
    Size(usize),
    Number(Option<u16>),
    Appended(Result<u16, StoreFault>),
    Done,
}

// Makes a call, and gives what the store answers.
pub fn ask<S: Store>(store: &mut S, call: StoreCall) -> StoreAnswer
    ensures answer { result ≡ answer_to (S.Store.rows store.old) (S.Store.room store.old) call }
    ensures rows { S.Store.rows store.new ≡ rows_after (S.Store.rows store.old)
        (S.Store.room store.old) call }
    ensures room { S.Store.room store.new ≡ S.Store.room store.old }
{
    match call {
        StoreCall::Capacity => StoreAnswer::Size(store.capacity()),
        StoreCall::Count => StoreAnswer::Size(store.count()),
        StoreCall::ListLen(side, node) => StoreAnswer::Size(store.list_len(side, node)),
        StoreCall::OptionAt(side, node, index) => StoreAnswer::Number(store.option(
            side, node, index,
        )),
        StoreCall::Find(row) => StoreAnswer::Number(store.find(&row)),
        StoreCall::Append(row) => StoreAnswer::Appended(store.append(row)),
        StoreCall::Clear => {
            store.clear();
            StoreAnswer::Done
        }
    }
}
