// Positions of every board, a minus and sums, valued with a memory in one dictionary over each
// store: the node of each, its outcome, and the text of its canonical form.
#![tactic(auto)]

use demos::desk::{Detail, show_values};
use demos::shown::{Demo, Shown, over_both};
use memory::memory::Memory;

struct Values;

impl Demo for Values {
    fn over<S: Shown>(&self, rt: &HostRuntime) -> anyhow::Result<()> {
        show_values::<S, Memory>(rt, Memory::new(rt.alloc()), Detail::OutcomeAndText)
    }
}

fn main(rt: HostRuntime) -> anyhow::Result<()> {
    over_both(&rt, &Values)
}
