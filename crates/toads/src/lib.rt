// Toads-and-Frogs on a strip of 1 to 12 cells.
#![tactic(auto)]

pub mod cell;
pub mod strip;
pub mod text;
