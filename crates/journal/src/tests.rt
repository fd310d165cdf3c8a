use super::*;
use fault::{Fault, RunCause};
use runs::records::{Answer, Call, Delivered};

fn arrive(sensor: u64, value: i32, answer: Answer) -> Step {
    let call = Call::Arrive {
        sensor,
        timestamp: 10,
        value,
    };
    Step { call, answer }
}

fn finish(actor: u8, outlet: i32) -> Step {
    let firing = Firing {
        actor,
        timestamp: 10,
        inlets: [Some(7), None, None, None],
        outlets: [None, None, None, Some(outlet)],
    };
    Step {
        call: Call::Finish,
        answer: Answer::Wrote(firing),
    }
}

fn deliver(actuator: u8, late: bool) -> Step {
    let output = Delivered {
        actuator,
        timestamp: 10,
        value: 5,
        late,
    };
    Step {
        call: Call::Deliver,
        answer: Answer::Handed(output),
    }
}

// The order between sensors does not matter, nor what is refused; the order of one sensor's events does.
#[test]
fn events(rt: HostRuntime) {
    let refused = arrive(0, 3, Answer::Refused(Fault::Run(RunCause::Stale, 10)));
    let one = arrive(0, 1, Answer::Done);
    let two = arrive(0, 2, Answer::Done);
    let far = arrive(9, 1, Answer::Done);
    assert!(rt; same_events(&[one, two, far], &[refused, far, one, two]));
    assert!(rt; !same_events(&[one, two], &[two, one]));
    assert!(rt; !same_events(&[one], &[one, far]));
}

// A record has what was written and handed out, and not whether that was late.
#[test]
fn records(rt: HostRuntime) {
    let first = [finish(0, 1), finish(31, 2), deliver(15, true)];
    let second = [deliver(15, false), finish(31, 2), finish(0, 1)];
    assert!(rt; same_records(&first, &second));
    assert!(rt; !same_records(&first, &[finish(0, 1), finish(31, 2)]));
    assert!(rt; !same_records(&first, &[finish(0, 1), finish(31, 3), deliver(15, true)]));
}

#[test]
fn both(rt: HostRuntime) {
    let given = arrive(2, 1, Answer::Done);
    let comparison = compare(&[given, finish(0, 1)], &[given]);
    assert!(rt; comparison.same_events && !comparison.same_records);
}
