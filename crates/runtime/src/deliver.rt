ghost use Rattle.std.specs.Prelude.{◌≡◌};
ghost use Rattle.runs.specs.declared.records.Call.TheVariants.{Deliver};
ghost use Rattle.runtime.specs.Answers.{handed, handing};
ghost use Rattle.runtime.specs.Model.{Moves};

use super::limits::NOTHING;
use super::state::Core;
use fault::Fault;
use runs::records::{Delivered, Output};

// An output as it is handed out at a clock: late where the clock has passed its timestamp.
fn hand_out(output: Output, clock: u64) -> Delivered
    ensures { result ≡ handing clock output }
{
    Delivered {
        actuator: output.actuator,
        timestamp: output.timestamp,
        value: output.value,
        late: output.timestamp < clock,
    }
}

impl Core {
    // Hands out the first output, if it is due.
    pub(crate) fn deliver(&mut self) -> Result<Delivered, Fault>
        ensures { Moves self.old Deliver (handed result) self.new }
    {
        let first = self.outputs.first().ok_or(NOTHING)?;
        if self.clock < first.timestamp {
            return Err(NOTHING);
        }
        let _ = self.outputs.take_first();
        Ok(hand_out(first, self.clock))
    }
}
