// What can be wrong with the channels of a draft whose fields are in range.
ghost use Rattle.std.specs.Prelude.{◌<◌, Decides};
ghost use Rattle.image.specs.Drafts.{plan_of};
ghost use Rattle.line.specs.Rules.{Misplaced, Doubled, Idle, Unfed, weight};
ghost use Rattle.project.specs.Tables.{Serves, SeveredBy, InstantBy};

use super::tables::{EXIT, Table, leads, span_between};
use super::wiring::{end_of, origin_of};
use image::draft::Draft;
use line::parts::{Sink, Source};
use paths::Span;

// Whether channels from x stand before channels from y: sensors first, then by number, then by outlet.
// The derived order, in the words of the rules.
fn precedes(x: Source, y: Source) -> bool
    ensures { Decides result (weight x < weight y) }
{
    x < y
}

// Whether channel k does not stand above the one before it.
pub fn is_misplaced(draft: &Draft, k: usize) -> bool
    ensures { Decides result (Misplaced (plan_of draft.now) k) }
{
    let channels = draft.channels.as_slice();
    if k == 0 || k >= channels.len() {
        return false;
    }
    !precedes(channels[k - 1].source, channels[k].source)
}

// Whether channel k ends where an earlier one ends.
pub fn is_doubled(draft: &Draft, k: usize) -> bool
    ensures { Decides result (Doubled (plan_of draft.now) k) }
{
    let channels = draft.channels.as_slice();
    if k >= channels.len() {
        return false;
    }
    origin_of(&channels[0..k], channels[k].sink).is_some()
}

// Whether a sensor feeds nothing.
pub fn is_idle(draft: &Draft, sensor: usize) -> bool
    ensures { Decides result (Idle (plan_of draft.now) sensor) }
{
    if sensor >= draft.sensors.len() {
        return false;
    }
    end_of(draft.channels.as_slice(), Source::Sensor(sensor as u8)).is_none()
}

// Whether nothing feeds an actuator.
pub fn is_unfed(draft: &Draft, actuator: usize) -> bool
    ensures { Decides result (Unfed (plan_of draft.now) actuator) }
{
    if actuator >= usize::from(draft.actuators) {
        return false;
    }
    origin_of(draft.channels.as_slice(), Sink::Actuator(actuator as u8)).is_none()
}

// Whether a channel from x to y begins at a sensor and comes to the actor, there or by a path.
fn serves(reach: &Table<bool>, actor: u8, x: Source, y: Sink) -> bool
    ensures { Decides result (Serves reach.now actor x y) }
{
    match (x, y) {
        (Source::Sensor(_), Sink::Inlet { actor: b, inlet: _ }) => b == actor
            || leads(reach, b, actor),
        _ => false,
    }
}

// Whether no sensor comes to an actor, or it comes to no actuator.
pub fn is_cut_off(draft: &Draft, reach: &Table<bool>, actor: usize) -> bool
    ensures { Decides result (SeveredBy (plan_of draft.now) reach.now actor) }
{
    if actor >= draft.actors.len() {
        return false;
    }
    let actor = actor as u8;
    let channels = draft.channels.as_slice();
    !leads(reach, actor, EXIT)
        || !channels
            .iter()
            .any(|c| serves(reach, actor, c.source, c.sink))
}

// Whether an actor is on a cycle without delay.
pub fn is_instant(draft: &Draft, far: &Table<Span>, actor: usize) -> bool
    ensures { Decides result (InstantBy (plan_of draft.now) far.now actor) }
{
    actor < draft.actors.len() && span_between(far, actor as u8, actor as u8) == Some(0)
}
