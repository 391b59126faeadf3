// The calculator: a line of standard input is answered with a line.
#![tactic(auto)]

use console::session::answer_all;
use games::bounds::MOST_NODES;
use hashed_store::table::HashTable;
use ordered_store::ordered::OrderedList;
use std::process::ExitCode;
use std::{env, io};
use stores::store::Store;

mod choice;

use choice::{Choice, Kind, choose};

const HELP: &'static str = "usage: kondzuvel [--store ordered|hashed] [--help]

Each line of standard input is answered with a line, over one dictionary of 384 rows:

  (value P)      the number, the outcome and the canonical form of P
  (compare P P)  <, >, = or ||
  (move S B)     the index of a first move of S on B that wins, or none

P is B, (minus B), (sum B B) or (form TEXT); S is L or R; B is one of

  (domineering ../#.)   rows of . and #
  (toads T.F)           cells T, F and .
  (hackenbush 0-1L,1-2R)  edges

docs/LINES.md has the whole language, with all refusals.";

// Answers standard input over a store.
fn answer<S: Store + Drop>(rt: &HostRuntime, store: S) -> anyhow::Result<()> {
    answer_all(rt.alloc(), store, rt.reader(), io::writer(rt))?;
    Ok(())
}

fn main(rt: HostRuntime) -> anyhow::Result<ExitCode> {
    let heap = rt.alloc();
    let args: Vec<String> = env::args(&rt)?.skip(1).collect(heap)?;
    let words: Vec<&str> = args.iter().map(|arg| arg.as_str()).collect(heap)?;
    match choose(&words) {
        Ok(Choice::Help) => println!(rt; "{HELP}")?,
        Ok(Choice::Serve(Kind::Ordered)) => answer(&rt, OrderedList::new(heap, MOST_NODES)?)?,
        Ok(Choice::Serve(Kind::Hashed)) => answer(&rt, HashTable::new(heap, MOST_NODES)?)?,
        Err(fault) => {
            eprintln!(rt; "kondzuvel: {fault}")?;
            return Ok(ExitCode::from(2));
        }
    }
    Ok(ExitCode::SUCCESS)
}
