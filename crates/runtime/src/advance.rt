ghost use Rattle.std.specs.Prelude.{◌≡◌, [], ◌∷◌};
ghost use Rattle.std.specs.Result.{result_err};
ghost use Rattle.fault.specs.declared.RunCause.TheVariants.{Due};
ghost use Rattle.queue.specs.Held.{held};
ghost use Rattle.runs.specs.Calls.{due_before, refuse, verdict};
ghost use Rattle.runs.specs.declared.records.Call.TheVariants.{Advance};
ghost use Rattle.runtime.specs.Answers.{done};
ghost use Rattle.runtime.specs.Model.{Moves};

use super::limits::HORIZON;
use super::state::Core;
use fault::{Fault, RunCause};

impl Core {
    // No output is due before `clock`. The least timestamp of those that are refuses: the first output has it.
    fn none_due_before(&self, clock: u64) -> Result<(), Fault>
        ensures { result_err result ≡ verdict (refuse Due (due_before clock (held self.now.outputs.waiting)) ∷ []) }
    {
        match self.outputs.first() {
            Some(first) if first.timestamp < clock => Err(Fault::Run(
                RunCause::Due,
                first.timestamp,
            )),
            _ => Ok(()),
        }
    }

    // Sets the clock, which neither goes back nor passes an output that waits.
    pub(crate) fn advance(&mut self, clock: u64) -> Result<(), Fault>
        ensures { Moves self.old (Advance clock) (done result) self.new }
    {
        if clock < self.clock {
            return Err(Fault::Run(RunCause::Back, self.clock));
        }
        if clock > HORIZON {
            return Err(Fault::Run(RunCause::Horizon, HORIZON));
        }
        self.none_due_before(clock)?;
        self.clock = clock;
        Ok(())
    }
}
