ghost use Rattle.std.specs.Prelude.{◌≡◌, ℕ};
ghost use Rattle.bounded.specs.Held as bounded;
ghost use Rattle.queue.specs.Held as queue;
ghost use Rattle.line.specs.Plan.{lateness};
ghost use Rattle.project.specs.Project.{line, plan};
ghost use Rattle.runs.specs.Safe.{Secure};
ghost use Rattle.runs.specs.State.{aside, to_inlet, to_actuator};
ghost use Rattle.runtime.specs.Meant.{state_of, lateness_at, no_rows, top_first};

use super::room::{EventRoom, OutputRoom};
use super::rows::SensorRow;
use bounded::Bounded;
use project::project::Project;
use runs::records::Running;

// All of a runtime but its bank. The stack has its top last; the places that are set aside are those for what its
// firings will send.
#[derive(Drop)]
pub struct Core {
    pub(crate) project: Project,
    pub(crate) clock: u64,
    // A flag: as a parameter of `Core` the phase would stand at every call: no plainer.
    pub(crate) taking: bool,
    pub(crate) sensors: [SensorRow; 16],
    pub(crate) events: EventRoom,
    pub(crate) stack: Bounded<Running, 32>,
    pub(crate) outputs: OutputRoom,
    ghost secure: { Secure (line project) (state_of clock taking sensors (queue.held events.waiting) (bounded.held stack) (queue.held outputs.waiting) no_rows) },
    ghost known: { (x : ℕ) → lateness_at sensors x ≡ lateness (plan project) x },
    ghost inlets: { events.aside ≡ aside to_inlet (plan project) (top_first (bounded.held stack)) },
    ghost actuators: { outputs.aside ≡ aside to_actuator (plan project) (top_first (bounded.held stack)) },
}
