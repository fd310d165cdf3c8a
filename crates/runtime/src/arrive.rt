ghost use Rattle.std.specs.Prelude.{◌≡◌, true, length, Ok, Err, if◌then◌else◌, nat_lt, slice_index_or};
ghost use Rattle.std.specs.Result.{result_err};
ghost use Rattle.fault.specs.declared.Fault.{Fault};
ghost use Rattle.fault.specs.declared.RunCause.TheVariants.{NoSuch};
ghost use Rattle.project.specs.Project.{line, plan};
ghost use Rattle.runs.specs.Calls.{arrive_verdict};
ghost use Rattle.runs.specs.declared.records.Call.TheVariants.{Arrive};
ghost use Rattle.runtime.specs.Answers.{done};
ghost use Rattle.runtime.specs.Meant.{no_rows, no_sensor};
ghost use Rattle.runtime.specs.Model.{Moves, state_over};

use super::limits::EVENT_ROOM;
use super::rows::SensorRow;
use super::sent::Sent;
use super::state::Core;
use fault::{Fault, RunCause};
use runs::records::Event;

impl Core {
    // The row of a sensor of the project.
    fn sensor_row(&self, sensor: u64) -> Result<SensorRow, Fault>
        ensures { result ≡ (if nat_lt sensor (length (plan self.now.project).sensors) then Ok (slice_index_or self.now.sensors sensor no_sensor) else Err (Fault.Run NoSuch sensor)) }
    {
        if sensor < u64::from(self.project.sensors()) {
            Ok(self.sensors[sensor as usize])
        } else {
            Err(Fault::Run(RunCause::NoSuch, sensor))
        }
    }

    // An event of a sensor comes in its window, above the last one, and finds room.
    fn takes_in(&self, sensor: u64, timestamp: u64) -> Result<(), Fault>
        ensures { result_err result ≡ arrive_verdict (line self.now.project) (state_over self.now no_rows) sensor timestamp }
    {
        let row = self.sensor_row(sensor)?;
        row.admits(self.clock, timestamp)?;
        if self.events.places() >= EVENT_ROOM {
            return Err(Fault::Run(RunCause::Full, EVENT_ROOM));
        }
        Ok(())
    }

    // Puts the event at the sensor's actor.
    pub(crate) fn arrive(&mut self, sensor: u64, timestamp: u64, value: i32) -> Result<(), Fault>
        requires { self.old.taking ≡ true }
        ensures { Moves self.old (Arrive sensor timestamp value) (done result) self.new }
    {
        self.takes_in(sensor, timestamp)?;
        self.sensors[sensor as usize].last = Some(timestamp);
        let sink = self.project.feed(sensor as u8);
        self.events.post(Event::at(sink, timestamp, Some(value)));
        Ok(())
    }
}
