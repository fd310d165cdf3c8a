// The supplied bank: the kinds of actors that a project can name.
#![tactic(auto)]

pub mod bank;
pub mod kinds;
pub mod laws;
mod state;
