// A store that finds its rows by halving a sorted list of their numbers.
#![tactic(auto)]

pub mod ordered;
