// Rulesets made of rulesets: the minus of one, and the sum of two.
#![tactic(auto)]

pub mod minus;
pub mod sum;
