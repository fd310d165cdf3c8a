ghost use Rattle.std.specs.Prelude.{◌≡◌, ◌<◌, length, MatchOption};
ghost use Rattle.std.specs.List.{slice_get};
ghost use Rattle.line.specs.Plan.{delay, wire, feed, start_of};
ghost use Rattle.line.specs.Paths.{Distance, Deadline, Wait};
ghost use Rattle.line.specs.Times.{Sound};
ghost use Rattle.line.specs.declared.parts.Sink.TheVariants.{Actuator};
ghost use Rattle.project.specs.Lookups.{distance_at, deadline_at, wait_at};
ghost use Rattle.project.specs.Project.{plan, line};

use super::Project;
use crate::tables::{EXIT, delay_at, span_between};
use crate::wiring::{end_of, origin_of};
use line::parts::{Actor, Channel, Sink, Source};

impl Project {
    // Every project keeps the rules, and its distances, deadlines and waits are those of its paths.
    pub fn keeps_the_rules(&self)
        ensures { ∥ Sound (line self.now) ∥₁ }
    {}

    // How many sensors there are.
    pub fn sensors(&self) -> u8
        ensures { result ≡ length (plan self.now).sensors }
    {
        self.draft.sensors.len() as u8
    }

    // The actors, by number.
    pub fn actors(&self) -> &[Actor]
        ensures { result.now ≡ (plan self.now).actors }
    {
        self.draft.actors.as_slice()
    }

    // How many actuators there are.
    pub fn actuators(&self) -> u8
        ensures { result ≡ (plan self.now).actuators }
    {
        self.draft.actuators
    }

    // The channels, in their order.
    pub fn channels(&self) -> &[Channel]
        ensures { result.now ≡ (plan self.now).channels }
    {
        self.draft.channels.as_slice()
    }

    pub fn lateness(&self, sensor: usize) -> Option<u32>
        ensures { result ≡ slice_get (plan self.now).sensors sensor }
    {
        self.draft.sensors.get(sensor)
    }

    // Kind, parameter and delay.
    pub fn actor(&self, number: usize) -> Option<Actor>
        ensures { result ≡ slice_get (plan self.now).actors number }
    {
        self.draft.actors.get(number)
    }

    // The delay of an outlet; 0 for an actor that is not in the project.
    pub fn delay(&self, actor: usize, outlet: usize) -> u32
        ensures { result ≡ delay (plan self.now) actor outlet }
    {
        delay_at(&self.draft, actor, outlet)
    }

    // Where an outlet leads.
    pub fn wire(&self, actor: u8, outlet: u8) -> Option<Sink>
        ensures { result ≡ wire (plan self.now) actor outlet }
    {
        end_of(self.channels(), Source::Outlet { actor, outlet })
    }

    // Where a sensor leads.
    pub fn feed(&self, sensor: u8) -> Option<Sink>
        ensures { result ≡ feed (plan self.now) sensor }
    {
        end_of(self.channels(), Source::Sensor(sensor))
    }

    // What feeds an actuator.
    pub fn origin(&self, actuator: u8) -> Option<Source>
        ensures { result ≡ start_of (Actuator actuator) (plan self.now).channels }
    {
        origin_of(self.channels(), Sink::Actuator(actuator))
    }

    // The least sum of delays on a path from one actor to another.
    pub fn distance(&self, from: usize, to: usize) -> Option<u64>
        ensures value { result ≡ distance_at (line self.now) from to }
        ensures least { from < length (plan self.now).actors → to < length (plan self.now).actors → ∥ Distance (plan self.now) from to result ∥₁ }
    {
        let count = self.draft.actors.len();
        if from >= count || to >= count {
            return None;
        }
        span_between(&self.far, from as u8, to as u8)
    }

    // The least sum of delays on a path from an actor to an actuator.
    pub fn deadline(&self, actor: usize) -> Option<u64>
        ensures value { result ≡ deadline_at (line self.now) actor }
        ensures least { actor < length (plan self.now).actors → MatchOption result ⊥ (λ d. ∥ Deadline (plan self.now) actor d ∥₁) }
    {
        if actor >= self.draft.actors.len() {
            return None;
        }
        Some(span_between(&self.far, actor as u8, EXIT).unwrap_or(0))
    }

    // The greatest difference of a sensor's lateness and its distance to an actor.
    pub fn wait(&self, actor: usize) -> Option<i64>
        ensures value { result ≡ wait_at (line self.now) actor }
        ensures greatest { actor < length (plan self.now).actors → MatchOption result ⊥ (λ w. ∥ Wait (plan self.now) actor w ∥₁) }
    {
        if actor >= self.draft.actors.len() {
            return None;
        }
        Some(self.waits[actor])
    }
}
