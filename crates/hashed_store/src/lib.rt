// A store that finds its rows by hash chains.
#![tactic(auto)]

pub mod table;
