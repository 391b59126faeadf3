// Stores of rows: numbered nodes, each with the numbers of its Left options and of its Right
// options.
#![tactic(auto)]

pub mod fault;
pub mod laws;
pub mod numbers;
pub mod options;
pub mod row;
pub mod row_list;
pub mod store;
