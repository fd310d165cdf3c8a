ghost use Rattle.simulation.specs.Compared.{Compares};

use super::Run;
use journal::Comparison;

// Compares two runs: whether each sensor gave both the same events, and whether all records are equal.
pub fn compare(first: &Run, second: &Run) -> Comparison
    ensures { Compares first.now.journal.items second.now.journal.items result.same_events result.same_records }
{
    journal::compare(first.journal.as_slice(), second.journal.as_slice())
}
