ghost use Rattle.std.specs.Prelude.{◌≡◌};
ghost use Rattle.std.specs.Result.{result_err};
ghost use Rattle.project.specs.Project.{line};
ghost use Rattle.runs.specs.Calls.{answer, start_answer, verdict};
ghost use Rattle.runtime.specs.Answers.{fired};
ghost use Rattle.runtime.specs.Candidates.{accepted, bound_checks, firing_checks, order_checks};
ghost use Rattle.runtime.specs.Meant.{no_rows};
ghost use Rattle.runtime.specs.Model.{state_over};

use super::candidate::Candidate;
use super::events::first_at;
use super::limits::{EVENT_ROOM, HORIZON, NOTHING, OUTPUT_ROOM};
use super::outlets::longest_delay;
use super::state::Core;
use super::taken::Taken;
use fault::{Fault, RunCause};
use runs::records::Started;

impl Candidate<'_> {
    // The firing keeps its order among events and firings.
    fn comes_in_order(&self) -> Result<(), Fault>
        ensures { result_err result ≡ verdict (order_checks self.now) }
    {
        self.not_early()?;
        self.not_behind()?;
        self.sooner_than_top()
    }

    // What the firing sends stays within the horizon, and finds room.
    fn sends_in_bounds(&self) -> Result<(), Fault>
        ensures { result_err result ≡ verdict (bound_checks self.now) }
    {
        if self.firing.timestamp + longest_delay(&self.core.project, self.firing.actor) > HORIZON {
            return Err(Fault::Run(RunCause::Horizon, HORIZON));
        }
        if self.event_places() > EVENT_ROOM {
            return Err(Fault::Run(RunCause::Full, EVENT_ROOM));
        }
        if self.output_places() > OUTPUT_ROOM {
            return Err(Fault::Run(RunCause::Full, OUTPUT_ROOM));
        }
        Ok(())
    }

    // What a start of the firing answers.
    fn startable(&self) -> Result<Started, Fault>
        ensures { fired result ≡ answer (verdict (firing_checks self.now)) (accepted self.now) }
    {
        self.comes_in_order()?;
        self.sends_in_bounds()?;
        Ok(Started {
            actor: self.firing.actor,
            timestamp: self.firing.timestamp,
            deadline: self.deadline(),
        })
    }
}

impl Core {
    // What a start of an actor answers, of all events of the least timestamp that waits there.
    pub(crate) fn startable(&self, actor: u64) -> Result<Started, Fault>
        ensures { fired result ≡ start_answer (line self.now.project) (state_over self.now no_rows) actor }
    {
        if actor >= self.project.actors().len() as u64 {
            return Err(Fault::Run(RunCause::NoSuch, actor));
        }
        let timestamp = first_at(self.events.waiting(), actor).ok_or(NOTHING)?;
        let firing = Taken {
            actor: actor as u8,
            timestamp,
        };
        Candidate { core: self, firing }.startable()
    }
}
