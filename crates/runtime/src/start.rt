ghost use Rattle.std.specs.Prelude.{◌≡◌};
ghost use Rattle.project.specs.Project.{line};
ghost use Rattle.runs.specs.Calls.{Startable, time_at};
ghost use Rattle.runs.specs.declared.records.Call.TheVariants.{Start};
ghost use Rattle.runtime.specs.Answers.{fired};
ghost use Rattle.runtime.specs.Meant.{no_rows};
ghost use Rattle.runtime.specs.Model.{Moves, Stacks, state_over};

use super::outlets::leading;
use super::state::Core;
use super::taken::Taken;
use fault::Fault;
use runs::records::{Event, Output, Running, Started};

impl Core {
    // Takes the events of a firing that start accepts, stacks it, and sets places aside for what it will send.
    fn stack_firing(&mut self, firing: Taken)
        requires accepted { Startable (line self.old.project) (state_over self.old no_rows) firing.actor }
        requires first { firing.timestamp ≡ time_at (state_over self.old no_rows) firing.actor }
        ensures { Stacks self.old firing.actor firing.timestamp self.new }
    {
        let events = leading::<Event>(&self.project, firing.actor);
        let outputs = leading::<Output>(&self.project, firing.actor);
        let inlets = firing.take(&mut self.events);
        // There is room.
        let _ = self.stack.push(Running {
            actor: firing.actor,
            timestamp: firing.timestamp,
            inlets,
        });
        self.events.set_aside(events);
        self.outputs.set_aside(outputs);
    }

    // Starts a firing of an actor, of all events of the least timestamp that waits there.
    pub(crate) fn start(&mut self, actor: u64) -> Result<Started, Fault>
        ensures { Moves self.old (Start actor) (fired result) self.new }
    {
        let started = self.startable(actor)?;
        self.stack_firing(Taken {
            actor: started.actor,
            timestamp: started.timestamp,
        });
        Ok(started)
    }
}
