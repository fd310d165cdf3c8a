ghost use Rattle.std.specs.Prelude.{◌≡◌, ◌+◌, not, ◌&&◌, [], ◌∷◌, nat_le};
ghost use Rattle.std.specs.Result.{result_err};
ghost use Rattle.fault.specs.declared.RunCause.TheVariants.{Stale, Window};
ghost use Rattle.runs.specs.Calls.{not_above, refuse, verdict, when};

use fault::{Fault, RunCause};

// What a runtime keeps of a sensor: how late its events may come, and the timestamp of its last one.
#[derive(Clone, Copy)]
pub struct SensorRow {
    pub(crate) lateness: u32,
    pub(crate) last: Option<u64>,
}

impl SensorRow {
    // A timestamp is neither in the future nor older than the lateness allows, and above the last one.
    pub(crate) fn admits(&self, clock: u64, timestamp: u64) -> Result<(), Fault>
        ensures { result_err result ≡ verdict (refuse Window (when (not (nat_le timestamp clock && nat_le clock (timestamp + self.now.lateness))) clock) ∷ refuse Stale (not_above self.now.last timestamp) ∷ []) }
    {
        if timestamp > clock || clock - timestamp > u64::from(self.lateness) {
            return Err(Fault::Run(RunCause::Window, clock));
        }
        match self.last {
            Some(last) if timestamp <= last => Err(Fault::Run(RunCause::Stale, last)),
            _ => Ok(()),
        }
    }
}
