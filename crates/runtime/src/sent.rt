ghost use Rattle.std.specs.Prelude.{◌≡◌, ℕ, Bool, List, ℤ, Option};
ghost use Rattle.line.specs.declared.parts.Sink.{Sink};
ghost use Rattle.runs.specs.State.{event_at, output_at, to_actuator, to_inlet};
ghost use Rattle.runtime.specs.Meant.{listed};

use line::parts::Sink;
use queue::Ranked;
use runs::records::{Event, Output};

// What a value becomes at the end of its channel: an event at an inlet, an output at an actuator.
pub trait Sent: Ranked {
    ghost made: { Option Sink → ℕ → Option ℤ → List Self };

    ghost leads: { Option Sink → Bool };

    // The record that a value makes at the end of its channel, where it makes one of this kind.
    fn at(sink: Option<Sink>, timestamp: u64, value: Option<i32>) -> Option<Self>
        ensures { listed result ≡ made sink timestamp value };

    // Whether records of this kind wait at the end of a channel.
    fn waits_at(sink: Option<Sink>) -> bool
        ensures { result ≡ leads sink };
}

impl Sent for Event {
    ghost made = { event_at };

    ghost leads = { to_inlet };

    fn at(sink: Option<Sink>, timestamp: u64, value: Option<i32>) -> Option<Event> {
        let Some(Sink::Inlet { actor, inlet }) = sink else {
            return None;
        };
        let value = value?;
        Some(Event {
            actor,
            inlet,
            timestamp,
            value,
        })
    }

    fn waits_at(sink: Option<Sink>) -> bool {
        matches!(sink, Some(Sink::Inlet { .. }))
    }
}

impl Sent for Output {
    ghost made = { output_at };

    ghost leads = { to_actuator };

    fn at(sink: Option<Sink>, timestamp: u64, value: Option<i32>) -> Option<Output> {
        let Some(Sink::Actuator(actuator)) = sink else {
            return None;
        };
        let value = value?;
        Some(Output {
            actuator,
            timestamp,
            value,
        })
    }

    fn waits_at(sink: Option<Sink>) -> bool {
        matches!(sink, Some(Sink::Actuator(_)))
    }
}
