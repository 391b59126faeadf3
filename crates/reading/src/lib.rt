// Texts of games: whether a text is a form's, reading one into a dictionary,
// and looking one up in a frozen one.
#![tactic(auto)]

pub mod check;
pub mod fault;
mod frames;
pub mod look_up;
pub mod mark;
mod options;
pub mod read;
mod spelling;
mod walk;
