use fault::{Fault, RunCause};

// The end of time, in microseconds.
pub(crate) const HORIZON: u64 = 1_000_000_000_000_000;

// The room for events, and for outputs.
pub(crate) const EVENT_ROOM: u64 = 128;

pub(crate) const OUTPUT_ROOM: u64 = 64;

// That there is nothing to do is refused at place 0.
pub(crate) const NOTHING: Fault = Fault::Run(RunCause::Nothing, 0);
