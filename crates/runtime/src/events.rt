ghost use Rattle.std.specs.Prelude.{◌≡◌, ◌<◌, length};
ghost use Rattle.std.specs.Result.{result_err};
ghost use Rattle.project.specs.Project.{line, plan};
ghost use Rattle.runs.specs.Calls.{within, could_reach, verdict};
ghost use Rattle.runs.specs.Lists.{keep, least, lower};
ghost use Rattle.runs.specs.State.{at_actor, event_time};
ghost use Rattle.runtime.specs.Candidates.{behind_check};

use super::candidate::Candidate;
use super::taken::Taken;
use fault::{Fault, RunCause};
use project::project::Project;
use runs::records::Event;

// The lower of a number and the least of those before it.
fn lower(number: u64, before: Option<u64>) -> u64
    ensures { result ≡ lower number before }
{
    before.map_or(number, |other| other.min(number))
}

// The least timestamp of the events that wait at an actor.
pub(crate) fn first_at(events: &[Event], actor: u64) -> Option<u64>
    ensures { result ≡ least event_time (keep (at_actor actor) events.now) }
{
    let mut first = None;
    // A loop over the events, as the project asks of every search among them.
    for event in events {
        if u64::from(event.actor) == actor {
            first = Some(lower(event.timestamp, first));
        }
    }
    first
}

// Whether a distance leads from one timestamp to no more than another.
fn within(distance: Option<u64>, from: u64, to: u64) -> bool
    ensures { result ≡ within distance from to }
{
    distance.is_some_and(|distance| from <= to && distance <= to - from)
}

// Whether what an event leads to could still come to an actor by a timestamp.
// The parts are passed one by one: as a method of the candidate it made a pick on the largest line a quarter slower.
fn could_reach(project: &Project, event: &Event, actor: u8, timestamp: u64) -> bool
    requires source { event.now.actor < length (plan project.now).actors }
    requires target { actor < length (plan project.now).actors }
    ensures { result ≡ could_reach (line project.now) actor timestamp event.now }
{
    let distance = project.distance(usize::from(event.actor), usize::from(actor));
    within(distance, event.timestamp, timestamp)
}

impl Candidate<'_> {
    // No event waits that could still come to the actor by the timestamp. The lowest actor of such an event refuses.
    pub(crate) fn not_behind(&self) -> Result<(), Fault>
        ensures { result_err result ≡ verdict (behind_check self.now) }
    {
        let Taken { actor, timestamp } = self.firing;
        let project = &self.core.project;
        let mut lowest = None;
        let events = self.core.events.waiting();
        // A loop over the events, as the project asks of every search among them.
        for event in events {
            if could_reach(project, event, actor, timestamp) {
                lowest = Some(lower(u64::from(event.actor), lowest));
            }
        }
        match lowest {
            Some(actor) => Err(Fault::Run(RunCause::Behind, actor)),
            None => Ok(()),
        }
    }
}
