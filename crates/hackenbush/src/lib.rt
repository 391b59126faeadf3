// Hackenbush: cutting the edges of a picture that stands on the ground.
#![tactic(auto)]

pub mod edge;
pub mod laws;
pub mod picture;
