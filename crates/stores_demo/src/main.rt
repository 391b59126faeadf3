// Makes one script of calls on both stores, and prints what each was asked and answered.
#![tactic(auto)]

mod script;

use anyhow::anyhow;
use hashed_store::table::HashTable;
use ordered_store::ordered::OrderedList;
use script::script;
use store_runs::call::{StoreAnswer, StoreCall};
use store_runs::replay::replay_both;

const CAPACITY: usize = 5;

fn print_run(
    rt: &HostRuntime,
    name: &str,
    calls: &[StoreCall],
    answers: &[StoreAnswer],
) -> anyhow::Result<()> {
    println!(rt; "{name}")?;
    for (call, answer) in calls.iter().zip(answers) {
        println!(rt; "  {call}: {answer}")?;
    }
    Ok(())
}

fn main(rt: HostRuntime) -> anyhow::Result<()> {
    let heap = rt.alloc();
    let calls = script(heap)?;
    let mut list = OrderedList::new(heap, CAPACITY).map_err(|_| anyhow!(
        "no memory for the ordered list"
    ))?;
    let mut table = HashTable::new(heap, CAPACITY).map_err(|_| anyhow!("no memory for the table"))?;
    let (first, second) = replay_both(heap, &mut list, &mut table, &calls)?;
    print_run(&rt, "ordered list", &calls, &first)?;
    print_run(&rt, "hash-consed table", &calls, &second)
}
