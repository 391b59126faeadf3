// The calls that both stores are given.
use anyhow::Context;
use games::side::Side;
use std::alloc::Global;
use store_runs::call::StoreCall;
use stores::row::Row;

fn row(left: &[u16], right: &[u16]) -> anyhow::Result<Row> {
    Row::new(left, right).context("a row has at most 16 options on a side")
}

// Fills a store of five rows, asks for what is there and what is not, and empties it.
pub fn script(heap: Global) -> anyhow::Result<Vec<StoreCall>> {
    let zero = row(&[], &[])?;
    let one = row(&[0], &[])?;
    let minus_one = row(&[], &[0])?;
    let star = row(&[0], &[0])?;
    let above = row(&[1, 0], &[2])?;
    let unknown = row(&[5], &[])?;
    Ok(vec![in heap;
        StoreCall::Capacity,
        StoreCall::Append(one),
        StoreCall::Append(zero),
        StoreCall::Append(star),
        StoreCall::Append(one),
        StoreCall::Append(one),
        StoreCall::Append(above),
        StoreCall::Append(minus_one),
        StoreCall::Append(unknown),
        StoreCall::Count,
        StoreCall::Find(zero),
        StoreCall::Find(one),
        StoreCall::Find(minus_one),
        StoreCall::ListLen(Side::Left, 4),
        StoreCall::ListLen(Side::Right, 9),
        StoreCall::OptionAt(Side::Left, 4, 1),
        StoreCall::OptionAt(Side::Right, 4, 1),
        StoreCall::Clear,
        StoreCall::Count,
        StoreCall::Find(zero),
    ]?)
}
