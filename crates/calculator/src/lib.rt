// The calculator: a line in, a line out.
#![tactic(auto)]

mod answer;
pub mod bounds;
pub mod calculator;
mod enter;
pub mod fault;
mod laying;
mod reply;
mod writing;
