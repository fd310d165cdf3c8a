ghost use Rattle.std.specs.Prelude.{◌≡◌};
ghost use Rattle.project.specs.Project.{plan};
ghost use Rattle.runs.specs.Calls.{event_places, output_places};
ghost use Rattle.runs.specs.State.{started};
ghost use Rattle.runtime.specs.Meant.{no_rows};
ghost use Rattle.runtime.specs.Model.{state_over};

use super::candidate::Candidate;
use super::outlets::leading;
use runs::records::{Event, Output};

impl Candidate<'_> {
    // The places for events that are held once the firing is stacked, which takes some of them.
    pub(crate) fn event_places(&self) -> u64
        ensures { result ≡ event_places (plan self.now.core.now.project) (started (state_over self.now.core.now no_rows) self.now.firing.actor self.now.firing.timestamp) }
    {
        let core = self.core;
        let left = self.firing.left_of(core.events.waiting());
        left + (leading::<Event>(&core.project, self.firing.actor) + core.events.aside)
    }

    // The places for outputs that are held then. It is no twin: a firing takes no outputs.
    pub(crate) fn output_places(&self) -> u64
        ensures { result ≡ output_places (plan self.now.core.now.project) (started (state_over self.now.core.now no_rows) self.now.firing.actor self.now.firing.timestamp) }
    {
        let core = self.core;
        core.outputs.places() + leading::<Output>(&core.project, self.firing.actor)
    }
}
