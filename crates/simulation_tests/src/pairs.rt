// Two runs of one line: the same events in another order, and other events.
use super::helpers::*;
use journal::Comparison;
use runs::records::Call;
use simulation::compare;
use std::test::Fail;

// The interrupts come as early as they can, and each firing is finished before the next starts.
fn prompt(value: i32) -> [Call; 17] {
    [
        Call::Advance(100),
        arrive(0, 100, 5),
        arrive(1, 100, 6),
        Call::Advance(150),
        arrive(1, 150, value),
        Call::Close,
        Call::Start(0),
        Call::Finish,
        Call::Start(1),
        Call::Finish,
        Call::Start(1),
        Call::Finish,
        Call::Advance(101),
        Call::Deliver,
        Call::Deliver,
        Call::Advance(151),
        Call::Deliver,
    ]
}

// Firings start before the next event has come, and much is refused on the way.
fn patient() -> [Call; 20] {
    [
        Call::Advance(100),
        arrive(1, 100, 6),
        Call::Start(1),
        arrive(0, 100, 5),
        Call::Advance(101),
        Call::Start(0),
        Call::Finish,
        Call::Finish,
        Call::Pick,
        Call::Start(1),
        Call::Finish,
        Call::Deliver,
        Call::Advance(150),
        arrive(1, 150, 9),
        Call::Close,
        Call::Start(1),
        Call::Finish,
        Call::Advance(151),
        Call::Deliver,
        Call::Report,
    ]
}

#[test]
fn equal_events_equal_records(rt: HostRuntime) -> Result<(), Fail> {
    let first = run(rt.alloc(), FORK, &prompt(9))?;
    let second = run(rt.alloc(), FORK, &patient())?;
    assert!(rt; first.is_complete() && second.is_complete());
    let same = Comparison {
        same_events: true,
        same_records: true,
    };
    assert_eq!(rt; compare(&first, &second), same);
    Ok(())
}

#[test]
fn other_events_other_records(rt: HostRuntime) -> Result<(), Fail> {
    let first = run(rt.alloc(), FORK, &prompt(8))?;
    let second = run(rt.alloc(), FORK, &patient())?;
    assert!(rt; first.is_complete() && second.is_complete());
    let other = Comparison {
        same_events: false,
        same_records: false,
    };
    assert_eq!(rt; compare(&first, &second), other);
    Ok(())
}
