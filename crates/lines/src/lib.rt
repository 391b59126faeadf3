// The calculator's line language: its grammar (specs/), and a reader that takes a line apart.
#![tactic(auto)]

pub mod laws;
mod nest;
pub mod parse;
pub mod question;
mod reader;
mod spot;
mod walk;
mod words;
