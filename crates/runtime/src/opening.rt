ghost use Rattle.std.specs.Prelude.{◌≡◌, ℕ, List, ℤ, None};
ghost use Rattle.line.specs.Plan.{lateness};
ghost use Rattle.project.specs.Project.{plan};
ghost use Rattle.runtime.specs.Meant.{lateness_at, last_at};
ghost use Rattle.runtime.specs.Model.{Begins};

use super::room::Room;
use super::rows::SensorRow;
use super::state::Core;
use bounded::Bounded;
use project::project::Project;
use runs::records::{Event, Output, Running};
use std::array;

// A row for each sensor of the project, none of which has sent an event; a sensor that is not there has lateness 0.
fn sensor_rows(project: &Project) -> [SensorRow; 16]
    ensures known { (x : ℕ) → lateness_at result x ≡ lateness (plan project.now) x }
    ensures silent { (x : ℕ) → last_at result x ≡ None }
{
    array::from_fn(|sensor| SensorRow {
        lateness: project.lateness(sensor).unwrap_or(0),
        last: None,
    })
}

impl Core {
    // At clock 0, with nothing waiting.
    pub(crate) fn open(project: Project) -> Core
        ensures { Begins project result }
    {
        Core {
            sensors: sensor_rows(&project),
            project,
            clock: 0,
            taking: true,
            events: Room::new(Event::default()),
            stack: Bounded::new(Running::default()),
            outputs: Room::new(Output::default()),
        }
    }
}
