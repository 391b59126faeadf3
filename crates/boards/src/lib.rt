// Boards of any kind, and setting one up from the bytes that spell it.
#![tactic(auto)]

pub mod board;
pub mod laws;
pub mod setup;
pub mod sum;
