// The calculator at a terminal or in a pipe: the lines of an input are answered, one by one.
#![tactic(auto)]

mod line;
pub mod serving;
pub mod session;
