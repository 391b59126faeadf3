// A dictionary over each store: a few forms sealed from the nodes before them, their outcomes,
// and how they compare.
#![tactic(auto)]

use demos::desk::Detail;
use demos::forms::seal_forms;
use demos::samples::PAIRS;
use demos::shown::{Demo, Shown, over_both};
use demos::told::compare;

struct Forms;

impl Demo for Forms {
    fn over<S: Shown>(&self, rt: &HostRuntime) -> anyhow::Result<()> {
        match seal_forms::<S>(rt, Detail::Outcome)? {
            Some(dictionary) => compare(rt, &dictionary, &PAIRS),
            None => Ok(()),
        }
    }
}

fn main(rt: HostRuntime) -> anyhow::Result<()> {
    over_both(&rt, &Forms)
}
