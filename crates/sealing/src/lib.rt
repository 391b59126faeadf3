// Sealing: the nodes of a dictionary as tables, and what two sets of nodes seal to.
#![tactic(auto)]

mod compare;
mod game;
mod nodes;
mod order;
mod place;
pub mod recent;
mod row;
pub mod seal;
pub mod tables;
