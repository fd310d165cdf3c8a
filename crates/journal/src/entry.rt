// What one step of a journal adds to a record.
ghost use Rattle.std.specs.Prelude.{◌≡◌, ◌<◌};
ghost use Rattle.std.specs.Option.{option_to_list};
ghost use Rattle.journal.specs.Told.{Kind, arrivals, firings, outputs};
ghost use Rattle.std.proofs.Common.{rules};
ghost use Rattle.runs.proofs.Equal.{firing_exact};
ghost use Rattle.runs.specs.Equal.{Exact};

use runs::records::{Answer, Call, Firing, Output, Step};

// An entry of a record: an accepted event of a sensor, a firing of an actor, or an output for an actuator.
pub(crate) trait Entry: Copy + PartialEq {
    // What steps tell, and whose entries these are.
    ghost kind: { Kind Self };

    fn told_by(step: &Step) -> Option<Self>
        ensures { option_to_list result ≡ kind.told step.now };

    // The number of its sensor, actor or actuator.
    fn owner(&self) -> u64
        ensures number { result ≡ kind.number self.now }
        ensures below { result < kind.bound };

    // Entries that `==` takes for the same are the same.
    ghost exact: { Exact Self.PartialEq.eq };
}

// An accepted event of a sensor.
#[derive(Clone, Copy, PartialEq)]
pub(crate) struct Arrival {
    pub sensor: u64,
    pub timestamp: u64,
    pub value: i32,
}

impl Entry for Arrival {
    ghost kind = { arrivals };

    ghost exact = { Prim.search rules };

    fn told_by(step: &Step) -> Option<Arrival> {
        match (step.call, step.answer) {
            (
                Call::Arrive {
                    sensor,
                    timestamp,
                    value,
                },
                Answer::Done,
            ) => Some(Arrival {
                sensor,
                timestamp,
                value,
            }),
            _ => None,
        }
    }

    fn owner(&self) -> u64 {
        self.sensor
    }
}

impl Entry for Firing {
    ghost kind = { firings };

    ghost exact = { firing_exact };

    fn told_by(step: &Step) -> Option<Firing> {
        match step.answer {
            Answer::Wrote(firing) => Some(firing),
            _ => None,
        }
    }

    fn owner(&self) -> u64 {
        u64::from(self.actor)
    }
}

impl Entry for Output {
    ghost kind = { outputs };

    ghost exact = { Prim.search rules };

    fn told_by(step: &Step) -> Option<Output> {
        match step.answer {
            Answer::Handed(d) => Some(Output {
                actuator: d.actuator,
                timestamp: d.timestamp,
                value: d.value,
            }),
            _ => None,
        }
    }

    fn owner(&self) -> u64 {
        u64::from(self.actuator)
    }
}
