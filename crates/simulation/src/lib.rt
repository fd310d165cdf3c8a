// Runs of a line: lists of calls performed over a bank, with the journal of what each call answered.
#![tactic(auto)]

mod asking;
mod comparing;
mod parting;
mod performing;
mod run_state;
mod working;

use banks::bank::Bank;
pub use comparing::compare;
pub use performing::perform;
use runs::records::{Status, Step};
use std::alloc::AllocError;

// A run: each call with its answer, whether the runtime is closed by now, and what it reports. The flag stands beside the
// status, which any runtime reports and which names no phase: one type for both would be no plainer.
#[derive(Drop)]
pub struct Run {
    pub journal: Vec<Step>,
    pub closed: bool,
    pub status: Status,
}

// What comes back once calls have been performed: the bank, and the run unless memory gave out.
pub struct Performed<B: Bank> {
    pub bank: B,
    pub run: Result<Run, AllocError>,
}
