// Sets of nodes: a set of numbers below 384, and a pair of sets, one for each side.
#![tactic(auto)]

pub mod nodeset;
pub mod pair;
