// A line at work: open and closed runtimes over a bank.
#![tactic(auto)]

mod advance;
mod arrive;
mod candidate;
mod closing;
mod deadline;
mod deliver;
mod early;
mod events;
mod finish;
mod limits;
mod opening;
mod outlets;
mod pick;
mod places;
mod reporting;
mod room;
pub mod rows;
pub mod runtime;
mod sending;
mod sent;
mod start;
mod startable;
pub mod state;
mod taken;
