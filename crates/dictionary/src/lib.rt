// A dictionary of games over any store: it keeps each value once, as the row of its canonical form.
#![tactic(auto)]

pub mod ask;
pub mod dictionary;
pub mod fault;
pub mod frozen;
pub mod print;
pub mod seal;
mod writer;
