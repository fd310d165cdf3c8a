// Projects: lines that keep every rule, read from images and written as images.
#![tactic(auto)]

mod checks;
mod flaws;
pub mod project;
mod records;
mod tables;
mod waits;
mod wiring;
