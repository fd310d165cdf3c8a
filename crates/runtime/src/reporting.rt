ghost use Rattle.runs.specs.declared.records.Call.TheVariants.{Report};
ghost use Rattle.runs.specs.declared.records.Answer.TheVariants.{Told};
ghost use Rattle.runtime.specs.Model.{Moves};

use super::state::Core;
use runs::records::Status;

impl Core {
    pub(crate) fn report(&self) -> Status
        ensures { Moves self.now Report (Told result) self.now }
    {
        Status {
            clock: self.clock,
            events: self.events.count(),
            firings: self.firings(),
            outputs: self.outputs.count(),
        }
    }
}
