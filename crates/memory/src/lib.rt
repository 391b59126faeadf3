// A memory of numbers by codes, which may forget at any time and never tells a wrong number.
#![tactic(auto)]

mod direct;
pub mod memory;
pub mod notes;
mod slot;
mod slots;
mod table;
