use fault::{Fault, RunCause};
use project::project::Project;
use runs::records::{Answer, Call, Firing, Started};
use simulation::{Performed, Run, perform};
use std::alloc::Global;
use std::process::Abort;
use std::test::Fail;
use supplied::bank::Supplied;

// Two sensors feed a count; a pass of delay 500 and one of delay 0 follow it in a row.
pub(crate) const SAMPLE: &[u8; 74] =
    b"LIN\x01\x00\x02\x03\x01\x05\x3C\x00\x00\x00\x00\x00\x00\x00\x01\x00\x00\x00\x00\x00\x00\x00\x00\x00\x00\x00\x00\x00\xF4\x01\x00\x00\x00\x00\x00\x00\x00\x00\x00\x00\x00\x00\x00\x00\x00\x00\x00\x00\x01\x00\x00\x00\x01\x01\x00\x00\x00\x01\x00\x01\x01\x00\x00\x02\x00\x01\x02\x00\x01\x00\x00";

// Sensor 0 feeds actor 0, which feeds actor 1 without delay; sensor 1 feeds actor 1 at its inlet 1; both pass.
pub(crate) const FORK: &[u8; 59] =
    b"LIN\x01\x00\x02\x02\x01\x04\x00\x00\x00\x00\x00\x00\x00\x00\x00\x00\x00\x00\x00\x00\x00\x00\x00\x00\x00\x00\x00\x00\x01\x00\x00\x00\x00\x00\x00\x00\x00\x00\x00\x01\x00\x00\x01\x01\x01\x00\x00\x00\x01\x00\x01\x01\x00\x01\x00\x00";

// Performs calls on the line of an image, over the supplied bank.
pub(crate) fn run(heap: Global, image: &[u8], calls: &[Call]) -> Result<Run, Fail> {
    let mut project = Project::fresh();
    project.read(image)?;
    let Performed { bank: _, run } = perform(heap, project, Supplied::of(&project), calls);
    Ok(run?)
}

// Checks the answers of a run, one by one.
pub(crate) fn answers(rt: &impl Abort, run: &Run, wanted: &[Answer]) {
    assert_eq!(rt; run.journal.len(), wanted.len());
    for (step, answer) in run.journal.iter().zip(wanted) {
        assert_eq!(rt; step.answer, *answer);
    }
}

pub(crate) fn arrive(sensor: u64, timestamp: u64, value: i32) -> Call {
    Call::Arrive {
        sensor,
        timestamp,
        value,
    }
}

pub(crate) fn refused(cause: RunCause, place: u64) -> Answer {
    Answer::Refused(Fault::Run(cause, place))
}

pub(crate) fn fires(actor: u8, timestamp: u64, deadline: u64) -> Answer {
    Answer::Fired(Started {
        actor,
        timestamp,
        deadline,
    })
}

// A firing with at most inlets 0 and 1 and outlet 0.
pub(crate) fn wrote(
    actor: u8,
    timestamp: u64,
    first: Option<i32>,
    second: Option<i32>,
    out: i32,
) -> Answer {
    Answer::Wrote(Firing {
        actor,
        timestamp,
        inlets: [first, second, None, None],
        outlets: [Some(out), None, None, None],
    })
}
