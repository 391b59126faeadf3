// Positions of every board, a minus and sums, valued in one dictionary over each store:
// the node of each, and its outcome.
#![tactic(auto)]

use demos::desk::{Detail, show_values};
use demos::shown::{Demo, Shown, over_both};
use valuing::recall::Nothing;

struct Values;

impl Demo for Values {
    fn over<S: Shown>(&self, rt: &HostRuntime) -> anyhow::Result<()> {
        show_values::<S, Nothing>(rt, Nothing, Detail::Outcome)
    }
}

fn main(rt: HostRuntime) -> anyhow::Result<()> {
    over_both(&rt, &Values)
}
