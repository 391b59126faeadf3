// Domineering: dominoes on a board of cells, upright for Left and flat for Right.
#![tactic(auto)]

pub mod board;
