// The interface of a ruleset, and what can be made or asked of any ruleset.
#![tactic(auto)]

pub mod fault;
pub mod play;
pub mod ruleset;
pub mod successors;
