// The records of a run: what each sensor gave, each actor did and each actuator was handed.
use super::answers::Ports;
use project::project::Project;
use runs::records::{Answer, Call, Firing, Step};
use std::fmt;

// A part of the line, by its number.
#[derive(Clone, Copy, PartialEq, Eq)]
enum Part {
    Sensor(u64),
    Actor(u64),
    Actuator(u64),
}

impl fmt::Display for Part {
    fn fmt<W: fmt::Write>(&self, f: &mut fmt::Formatter<W>) -> fmt::Result {
        match self {
            Part::Sensor(number) => write!(f, "sensor {number}"),
            Part::Actor(number) => write!(f, "actor {number}"),
            Part::Actuator(number) => write!(f, "actuator {number}"),
        }
    }
}

// What a step adds to a record.
#[derive(Clone, Copy)]
enum Addition {
    Value { timestamp: u64, value: i32 },
    Firing(Firing),
}

impl fmt::Display for Addition {
    fn fmt<W: fmt::Write>(&self, f: &mut fmt::Formatter<W>) -> fmt::Result {
        match *self {
            Addition::Value { timestamp, value } => write!(f, "{timestamp} {value}"),
            Addition::Firing(firing) => write!(
                f,
                "{} inlets {} outlets {}",
                firing.timestamp,
                Ports(firing.inlets),
                Ports(firing.outlets)
            ),
        }
    }
}

// The part to whose record the step adds, and what it adds. Call and answer are matched one in the other: as a pair,
// tried, the borrow checker does not cover reading a field of what an arm binds.
fn added(step: &Step) -> Option<(Part, Addition)> {
    match step.answer {
        Answer::Done => match step.call {
            Call::Arrive {
                sensor,
                timestamp,
                value,
            } => Some((Part::Sensor(sensor), Addition::Value { timestamp, value })),
            _ => None,
        },
        Answer::Wrote(firing) => Some((
            Part::Actor(u64::from(firing.actor)),
            Addition::Firing(firing),
        )),
        Answer::Handed(delivered) => Some((
            Part::Actuator(u64::from(delivered.actuator)),
            Addition::Value {
                timestamp: delivered.timestamp,
                value: delivered.value,
            },
        )),
        _ => None,
    }
}

// One record after the other, in the order of numbers.
pub fn print_records(rt: &HostRuntime, project: &Project, journal: &[Step]) -> anyhow::Result<()> {
    for sensor in 0..project.sensors() {
        print_record(rt, Part::Sensor(u64::from(sensor)), journal)?;
    }
    for actor in 0..project.actors().len() {
        print_record(rt, Part::Actor(actor as u64), journal)?;
    }
    for actuator in 0..project.actuators() {
        print_record(rt, Part::Actuator(u64::from(actuator)), journal)?;
    }
    Ok(())
}

fn print_record(rt: &HostRuntime, part: Part, journal: &[Step]) -> anyhow::Result<()> {
    for (owner, addition) in journal.iter().filter_map(added) {
        if owner == part {
            println!(rt; "record of {part}: {addition}")?;
        }
    }
    Ok(())
}
