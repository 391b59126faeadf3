// The value of a position, entered into a dictionary, and a first move that wins, told by values.
#![tactic(auto)]

pub mod fault;
pub mod first_move;
pub mod recall;
pub mod value;
