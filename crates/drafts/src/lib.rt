// Drafts: forms put together number by number, and sealed in a dictionary.
#![tactic(auto)]

pub mod draft;
pub mod seal;
pub mod slip;
