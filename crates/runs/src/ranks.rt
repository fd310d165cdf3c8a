// Events and outputs wait in the order of their timestamps.
use super::records::{Event, Output};
use queue::Ranked;

impl Ranked for Event {
    ghost order = { λ e. e.timestamp };

    fn rank(&self) -> u64 {
        self.timestamp
    }
}

impl Ranked for Output {
    ghost order = { λ o. o.timestamp };

    fn rank(&self) -> u64 {
        self.timestamp
    }
}
