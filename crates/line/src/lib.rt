// The words of a packaging line: what its actors do, how they are wired, and what its rules say.
#![tactic(auto)]

mod names;
mod numbers;
pub mod parts;

pub use numbers::UnknownKind;
