// The same calls on one store or on two.
ghost use Rattle.std.specs.Prelude.{◌≡◌, ◌+◌, ◌≤◌, ◌++◌, length, vec_len, vec_capacity};
ghost use Rattle.store_runs.specs.Runs.{Alike, Replayed, answers_to, first_of, rows_at_end, second_of};

use crate::call::{StoreAnswer, StoreCall, ask};
use std::alloc::{AllocError, Global};
use stores::store::Store;

// Makes the calls one after another, and adds the answers to `answers`, which has memory for them.
fn replay_into<S: Store>(store: &mut S, calls: &[StoreCall], answers: &mut Vec<StoreAnswer>)
    requires { vec_len answers.old + length calls.now ≤ vec_capacity answers.old }
    ensures answers { answers.new.items ≡ answers.old.items ++ answers_to (S.Store.rows store.old)
        (S.Store.room store.old) calls.now }
    ensures rows { S.Store.rows store.new ≡ rows_at_end (S.Store.rows store.old)
        (S.Store.room store.old) calls.now }
    ensures room { S.Store.room store.new ≡ S.Store.room store.old }
{
    for call in calls {
        answers.push_reserved(ask(store, *call));
    }
}

// Makes the calls one after another, and gives the answers.
// Where there is no memory for them, no call is made.
pub fn replay<S: Store>(
    heap: Global,
    store: &mut S,
    calls: &[StoreCall],
) -> Result<Vec<StoreAnswer>, AllocError>
    ensures { Replayed (S.Store.rows store.old) (S.Store.room store.old) calls.now result
        (S.Store.rows store.new) (S.Store.room store.new) }
{
    let mut answers = Vec::with_capacity(heap, calls.len())?;
    replay_into(store, calls, &mut answers);
    Ok(answers)
}

// Makes the same calls on two stores, and gives the answers of each:
// stores with the same rows and the same capacity answer alike, and have the same rows then.
// Where there is no memory for the answers, no call is made.
pub fn replay_both<S: Store, T: Store>(
    heap: Global,
    first: &mut S,
    second: &mut T,
    calls: &[StoreCall],
) -> Result<(Vec<StoreAnswer>, Vec<StoreAnswer>), AllocError>
    ensures first { Replayed (S.Store.rows first.old) (S.Store.room first.old) calls.now
        (first_of result) (S.Store.rows first.new) (S.Store.room first.new) }
    ensures second { Replayed (T.Store.rows second.old) (T.Store.room second.old) calls.now
        (second_of result) (T.Store.rows second.new) (T.Store.room second.new) }
    ensures alike { S.Store.rows first.old ≡ T.Store.rows second.old
        → S.Store.room first.old ≡ T.Store.room second.old
        → Alike result (S.Store.rows first.new) (T.Store.rows second.new) }
{
    let mut answers = Vec::with_capacity(heap, calls.len())?;
    let mut others = Vec::with_capacity(heap, calls.len())?;
    replay_into(first, calls, &mut answers);
    replay_into(second, calls, &mut others);
    Ok((answers, others))
}
