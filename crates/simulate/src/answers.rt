// How answers are printed.
ghost use Rattle.std.specs.Prelude.{Some};
ghost use Rattle.simulate.specs.Printing.{port_text, ports_text, answer_text};

use runs::records::Answer;
use std::fmt;

// The value at an inlet or an outlet: a type of its own, since Display cannot be written for an Option.
#[derive(Clone, Copy)]
struct Port(Option<i32>);

impl fmt::Display for Port {
    ghost output = { λ p. Some (port_text p.0) };

    fn fmt<W: fmt::Write>(&self, f: &mut fmt::Formatter<W>) -> fmt::Result {
        match self.0 {
            Some(value) => write!(f, "{value}"),
            None => write!(f, "-"),
        }
    }
}

// The values at the inlets or the outlets of an actor.
#[derive(Clone, Copy)]
pub struct Ports(pub [Option<i32>; 4]);

impl fmt::Display for Ports {
    ghost output = { λ p. Some (ports_text p.0) };

    fn fmt<W: fmt::Write>(&self, f: &mut fmt::Formatter<W>) -> fmt::Result {
        let [first, second, third, fourth] = self.0;
        write!(
            f,
            "{} {} {} {}",
            Port(first),
            Port(second),
            Port(third),
            Port(fourth)
        )
    }
}

// What a call answered.
#[derive(Clone, Copy)]
pub struct Answered(pub Answer);

impl fmt::Display for Answered {
    ghost output = { λ x. Some (answer_text x.0) };

    fn fmt<W: fmt::Write>(&self, f: &mut fmt::Formatter<W>) -> fmt::Result {
        match self.0 {
            Answer::Done => write!(f, "done"),
            Answer::Named(actor) => write!(f, "actor {actor}"),
            Answer::Fired(started) => write!(
                f,
                "actor {} fires at {}, deadline {}",
                started.actor, started.timestamp, started.deadline
            ),
            Answer::Wrote(firing) => write!(
                f,
                "actor {} at {}, inlets {}, outlets {}",
                firing.actor,
                firing.timestamp,
                Ports(firing.inlets),
                Ports(firing.outlets)
            ),
            Answer::Handed(delivered) => write!(
                f,
                "actuator {} at {}, value {}, {}",
                delivered.actuator,
                delivered.timestamp,
                delivered.value,
                if delivered.late { "late" } else { "on time" }
            ),
            Answer::Told(status) => write!(
                f,
                "clock {}, events {}, firings {}, outputs {}",
                status.clock, status.events, status.firings, status.outputs
            ),
            Answer::Refused(fault) => write!(f, "{fault}"),
        }
    }
}
