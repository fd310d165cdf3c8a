ghost use Rattle.std.specs.Prelude.{◌≡◌, ◌≤◌, [], ◌∷◌, pos, ◌+ℤ◌, int_le};
ghost use Rattle.std.specs.Result.{result_err};
ghost use Rattle.fault.specs.declared.RunCause.TheVariants.{Early};
ghost use Rattle.runs.specs.Calls.{horizon, natural, refuse, verdict, when};
ghost use Rattle.runtime.specs.Candidates.{early_check};

use super::candidate::Candidate;
use fault::{Fault, RunCause};

// Refuses, at the first clock that has, where a clock has not passed a timestamp and a wait, which may be below zero.
fn passed(clock: u64, timestamp: u64, wait: i64) -> Result<(), Fault>
    requires { timestamp ≤ horizon }
    ensures { result_err result ≡ verdict (refuse Early (when (int_le (pos clock) (pos timestamp +ℤ wait)) (natural ((pos timestamp +ℤ wait) +ℤ pos 1))) ∷ []) }
{
    let last = i128::from(timestamp) + i128::from(wait);
    if i128::from(clock) <= last {
        return Err(Fault::Run(RunCause::Early, (last + 1) as u64));
    }
    Ok(())
}

impl Candidate<'_> {
    // No sensor can still send the actor an event up to the timestamp.
    pub(crate) fn not_early(&self) -> Result<(), Fault>
        ensures { result_err result ≡ verdict (early_check self.now) }
    {
        if !self.core.taking {
            return Ok(());
        }
        let wait = self
            .core
            .project
            .wait(usize::from(self.firing.actor))
            .unwrap_or(0);
        passed(self.core.clock, self.firing.timestamp, wait)
    }
}
