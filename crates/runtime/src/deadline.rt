ghost use Rattle.std.specs.Prelude.{◌≡◌, ◌<◌, ◌≤◌, [], ◌∷◌, length, nat_le};
ghost use Rattle.std.specs.Result.{result_err};
ghost use Rattle.fault.specs.declared.RunCause.TheVariants.{NotSooner};
ghost use Rattle.project.specs.Project.{line, plan};
ghost use Rattle.runs.specs.Calls.{horizon, refuse, verdict, when};
ghost use Rattle.runs.specs.State.{deadline_at};
ghost use Rattle.runtime.specs.Candidates.{sooner_check};

use super::candidate::Candidate;
use super::state::Core;
use fault::{Fault, RunCause};

// Refuses, at the limit, a deadline that is not below it.
fn below(deadline: u64, limit: u64) -> Result<(), Fault>
    ensures { result_err result ≡ verdict (refuse NotSooner (when (nat_le limit deadline) limit) ∷ []) }
{
    if limit <= deadline {
        return Err(Fault::Run(RunCause::NotSooner, limit));
    }
    Ok(())
}

impl Core {
    // The deadline of a firing.
    fn deadline_at(&self, actor: u8, timestamp: u64) -> u64
        requires inside { actor < length (plan self.now.project).actors }
        requires in_time { timestamp ≤ horizon }
        ensures { result ≡ deadline_at (line self.now.project) actor timestamp }
    {
        timestamp + self.project.deadline(usize::from(actor)).unwrap_or(0)
    }
}

impl Candidate<'_> {
    pub(crate) fn deadline(&self) -> u64
        ensures { result ≡ deadline_at (line self.now.core.now.project) self.now.firing.actor self.now.firing.timestamp }
    {
        self.core
            .deadline_at(self.firing.actor, self.firing.timestamp)
    }

    // The deadline is below that of the top of the stack.
    pub(crate) fn sooner_than_top(&self) -> Result<(), Fault>
        ensures { result_err result ≡ verdict (sooner_check self.now) }
    {
        let Some(top) = self.core.stack.last() else {
            return Ok(());
        };
        let limit = self.core.deadline_at(top.actor, top.timestamp);
        below(self.deadline(), limit)
    }
}
