// Runs of calls on stores: what a store answers, and that any two stores answer alike.
#![tactic(auto)]

pub mod call;
pub mod replay;
mod shown;
