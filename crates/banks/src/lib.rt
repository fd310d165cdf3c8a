// Banks: what the actors of a line remember, and how they react.
#![tactic(auto)]

pub mod bank;
pub mod laws;
pub mod pair;
pub mod silent;
