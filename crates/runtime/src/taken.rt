ghost use Rattle.std.specs.Prelude.{◌≡◌, ◌≤◌, not, ◌&&◌, length, ◌==◌};
ghost use Rattle.queue.specs.Held.{held};
ghost use Rattle.runs.specs.Lists.{keep};
ghost use Rattle.runs.specs.State.{taken, value_for, four};

use super::room::EventRoom;
use runs::records::Event;
use std::array;

// The events that a start takes: those of its actor at its timestamp.
#[derive(Clone, Copy)]
pub struct Taken {
    pub(crate) actor: u8,
    pub(crate) timestamp: u64,
}

impl Taken {
    fn takes(&self, event: &Event) -> bool
        ensures { result ≡ taken self.now.actor self.now.timestamp event.now }
    {
        event.actor == self.actor && event.timestamp == self.timestamp
    }

    // How many events stay.
    pub(crate) fn left_of(&self, events: &[Event]) -> u64
        ensures value { result ≡ length (keep (λ e. not (taken self.now.actor self.now.timestamp e)) events.now) }
        ensures few { result ≤ length events.now }
    {
        // A loop over the waiting events, as all searches of a start: with `filter` and `count` a pick takes a fifth more.
        let mut left = 0;
        for event in events {
            if !self.takes(event) {
                left += 1;
            }
        }
        left
    }

    // Whether an event is taken, and for an inlet.
    fn serves(&self, event: &Event, inlet: u8) -> bool
        ensures { result ≡ (taken self.now.actor self.now.timestamp event.now && event.now.inlet == inlet) }
    {
        self.takes(event) && event.inlet == inlet
    }

    // The value for an inlet.
    fn value_for(&self, events: &[Event], inlet: u8) -> Option<i32>
        ensures { result ≡ value_for inlet (keep (taken self.now.actor self.now.timestamp) events.now) }
    {
        events
            .iter()
            .find(|event| self.serves(event, inlet))
            .map(|event| event.value)
    }

    // The values for all inlets.
    fn inlets(&self, events: &[Event]) -> [Option<i32>; 4]
        ensures { result ≡ four (λ i. value_for i (keep (taken self.now.actor self.now.timestamp) events.now)) }
    {
        array::from_fn(|inlet| self.value_for(events, inlet as u8))
    }

    // Takes the events out of those that wait: the values for all inlets.
    pub(crate) fn take(&self, events: &mut EventRoom) -> [Option<i32>; 4]
        ensures inlets { result ≡ four (λ i. value_for i (keep (taken self.now.actor self.now.timestamp) (held events.old.waiting))) }
        ensures waiting { held events.new.waiting ≡ keep (λ e. not (taken self.now.actor self.now.timestamp e)) (held events.old.waiting) }
        ensures aside { events.new.aside ≡ events.old.aside }
    {
        let inlets = self.inlets(events.waiting());
        events.retain(|event| !self.takes(event));
        inlets
    }
}
