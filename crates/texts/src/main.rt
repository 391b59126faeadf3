// Texts over each store: what is wrong with a text, what it is read as,
// and what is found in a frozen dictionary.
#![tactic(auto)]

mod checks;
mod look_ups;
mod reads;
mod shown;
mod spelt;

use checks::{checks, deep_checks};
use demos::shown::over_both;
use look_ups::{LookUps, NoNodes};
use reads::{Extremes, OneRow, Reads};

fn main(rt: HostRuntime) -> anyhow::Result<()> {
    checks(&rt)?;
    deep_checks(&rt)?;
    over_both(&rt, &OneRow)?;
    over_both(&rt, &Reads)?;
    over_both(&rt, &Extremes)?;
    over_both(&rt, &NoNodes)?;
    over_both(&rt, &LookUps)
}
