// Short partizan games under normal play: the definitions that every other crate speaks of
// (specs/), and their theorems.
#![tactic(auto)]

pub mod bounds;
pub mod laws;
pub mod outcome;
pub mod side;
