ghost use Rattle.std.specs.Prelude.{◌≡◌, ◌++◌, IfOk};
ghost use Rattle.simulation.specs.Calls.{without};
ghost use Rattle.simulation.specs.Journals.{Worked, called};

use super::asking::Asking;
use banks::bank::Bank;
use runs::records::{Call, Step};
use runtime::runtime::Runtime;
use std::alloc::AllocError;

// Performs the calls that a runtime has in its phase, and notes them in a journal.
pub(crate) fn work<B: Bank, S: Asking>(
    line: &mut Runtime<B, S>,
    calls: &[Call],
    mut journal: Vec<Step>,
) -> Result<Vec<Step>, AllocError>
    ensures worked { IfOk result (λ k. Worked B.Bank.means line.old.inner journal.items line.new.inner k.items) }
    ensures calls { IfOk result (λ k. called k.items ≡ called journal.items ++ without S.lacks calls.now) }
{
    for call in calls {
        if let Some(answer) = S::ask(line, *call) {
            journal.push(Step {
                call: *call,
                answer,
            })?;
        }
    }
    Ok(journal)
}
