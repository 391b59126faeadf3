// What the calls on a dictionary mean: definitions, and the theorems on them.
// The only other code here is what the crates above share:
// the fault of a text or of a line, and where a reader stands in the text of a form.
#![tactic(auto)]

pub mod fault;
pub mod laws;
pub mod nest;
pub mod runs;
