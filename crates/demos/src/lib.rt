// What the programs that show the calculator share: the two stores, the samples,
// and what is printed of them.
// A function that only prints has no contract, since no clause can say what is printed.
#![tactic(auto)]

pub mod desk;
pub mod forms;
pub mod samples;
pub mod shown;
pub mod told;
