ghost use Rattle.std.specs.Prelude.{◌≡◌, ◌&&◌, Decides, ◌==◌};
ghost use Rattle.banks.specs.Meaning.{Meaning};
ghost use Rattle.runs.specs.Runs.{Complete};
ghost use Rattle.runs.specs.State.{State};
ghost use Rattle.simulation.specs.Performed.{Tells};

use super::Run;
use runs::records::Status;

// Whether no event, firing or output is left.
fn nothing_left(status: Status) -> bool
    ensures { result ≡ (status.events == 0) && (status.firings == 0 && status.outputs == 0) }
{
    status.events == 0 && status.firings == 0 && status.outputs == 0
}

impl Run {
    // Whether the runtime is closed, with no event, firing or output left.
    #[tactic(auto, using(crate::proofs::Ends::complete_by))]
    pub fn is_complete(&self) -> bool
        ensures { (s : State) (n : Meaning) → Tells s self.now n → Decides result (Complete s) }
    {
        self.closed && nothing_left(self.status)
    }
}
