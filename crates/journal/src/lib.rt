// What a journal of calls tells, and whether two journals tell the same.
#![tactic(auto)]

mod entry;
mod record;
#[cfg(test)]
mod tests;

ghost use Rattle.std.specs.Prelude.{◌≡◌, Decides};
ghost use Rattle.runs.specs.Laws.{EqualEvents, EqualRecords};
ghost use Rattle.journal.specs.Same.{EqualEventsBelow, Run, CompleteRuns};

use entry::Arrival;
use record::same_for_all;
use runs::records::{Firing, Output, Step};

// Whether each sensor gave both journals the same events: of two runs every sensor, since a line has at most 16, and of
// any other journals those with a number below 256. Complete runs of one line then have the same records, and only then.
pub fn same_events(first: &[Step], second: &[Step]) -> bool
    ensures below { Decides result (EqualEventsBelow 256 first.now second.now) }
    ensures runs { Run first.now → Run second.now → Decides result (EqualEvents first.now second.now) }
    ensures complete { CompleteRuns first.now second.now → Decides result (EqualRecords first.now second.now) }
{
    same_for_all::<Arrival>(first, second)
}

// Whether each actor and each actuator has the same record in both journals.
pub fn same_records(first: &[Step], second: &[Step]) -> bool
    ensures { Decides result (EqualRecords first.now second.now) }
{
    same_for_all::<Firing>(first, second) && same_for_all::<Output>(first, second)
}

// What two journals have in common: two answers to two questions, each of which may be yes or no.
#[derive(Clone, Copy, PartialEq, Eq, Debug)]
pub struct Comparison {
    // Each sensor gave both the same events.
    pub same_events: bool,
    // Each actor and each actuator has the same record in both.
    pub same_records: bool,
}

// Compares two journals. Complete runs of one line have the same records exactly where they had the same events.
pub fn compare(first: &[Step], second: &[Step]) -> Comparison
    ensures below { Decides result.same_events (EqualEventsBelow 256 first.now second.now) }
    ensures runs { Run first.now → Run second.now → Decides result.same_events (EqualEvents first.now second.now) }
    ensures records { Decides result.same_records (EqualRecords first.now second.now) }
    ensures law { CompleteRuns first.now second.now → result.same_events ≡ result.same_records }
{
    Comparison {
        same_events: same_events(first, second),
        same_records: same_records(first, second),
    }
}
