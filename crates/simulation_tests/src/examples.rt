// Worked examples of single refusals.
use super::helpers::*;
use fault::RunCause;
use runs::records::{Answer, Call};
use std::test::Fail;

// A timestamp beyond the clock, one too old, one not above the last, and a sensor that is not there.
#[test]
fn arrivals(rt: HostRuntime) -> Result<(), Fail> {
    let calls = [
        Call::Advance(1000),
        arrive(0, 1001, 7),
        arrive(0, 939, 7),
        arrive(0, 940, 7),
        arrive(0, 940, 8),
        arrive(2, 1000, 7),
        arrive(u64::MAX, 1000, 7),
    ];
    let wanted = [
        Answer::Done,
        refused(RunCause::Window, 1000),
        refused(RunCause::Window, 1000),
        Answer::Done,
        refused(RunCause::Stale, 940),
        refused(RunCause::NoSuch, 2),
        refused(RunCause::NoSuch, u64::MAX),
    ];
    answers(&rt, &run(rt.alloc(), SAMPLE, &calls)?, &wanted);
    Ok(())
}

// A start at timestamp plus wait is early, and one later is not.
#[test]
fn early_by_one(rt: HostRuntime) -> Result<(), Fail> {
    let calls = [
        Call::Advance(1000),
        arrive(0, 990, 7),
        Call::Advance(1050),
        Call::Start(0),
        Call::Advance(1051),
        Call::Start(0),
    ];
    let wanted = [
        Answer::Done,
        Answer::Done,
        Answer::Done,
        refused(RunCause::Early, 1051),
        Answer::Done,
        fires(0, 990, 1490),
    ];
    answers(&rt, &run(rt.alloc(), SAMPLE, &calls)?, &wanted);
    Ok(())
}

// The clock alone is not enough: actor 0 still has an event that leads to actor 1 at the same timestamp.
#[test]
fn behind(rt: HostRuntime) -> Result<(), Fail> {
    let calls = [
        Call::Advance(100),
        arrive(0, 100, 5),
        arrive(1, 100, 6),
        Call::Advance(101),
        Call::Start(1),
        Call::Start(0),
        Call::Finish,
        Call::Start(1),
        Call::Finish,
    ];
    let wanted = [
        Answer::Done,
        Answer::Done,
        Answer::Done,
        Answer::Done,
        refused(RunCause::Behind, 0),
        fires(0, 100, 101),
        wrote(0, 100, Some(5), None, 5),
        fires(1, 100, 101),
        wrote(1, 100, Some(5), Some(6), 5),
    ];
    answers(&rt, &run(rt.alloc(), FORK, &calls)?, &wanted);
    Ok(())
}

// Time ends at the horizon, for the clock and for what a firing would send.
#[test]
fn horizon(rt: HostRuntime) -> Result<(), Fail> {
    let end = 1_000_000_000_000_000;
    let calls = [
        Call::Advance(end + 1),
        Call::Advance(end),
        Call::Advance(end - 1),
        arrive(1, end, 6),
        Call::Close,
        Call::Start(1),
        Call::Pick,
    ];
    let wanted = [
        refused(RunCause::Horizon, end),
        Answer::Done,
        refused(RunCause::Back, end),
        Answer::Done,
        Answer::Done,
        refused(RunCause::Horizon, end),
        refused(RunCause::Nothing, 0),
    ];
    answers(&rt, &run(rt.alloc(), FORK, &calls)?, &wanted);
    Ok(())
}

// 128 events find room, and one more does not.
#[test]
fn full(rt: HostRuntime) -> Result<(), Fail> {
    let mut calls = Vec::new(rt.alloc());
    for time in 1..130 {
        calls.push(Call::Advance(time))?;
        calls.push(arrive(1, time, 1))?;
    }
    let run = run(rt.alloc(), FORK, calls.as_slice())?;
    assert_eq!(rt; run.status.events, 128);
    let last = run.journal.last().ok_or("no call")?;
    assert_eq!(rt; last.answer, refused(RunCause::Full, 128));
    Ok(())
}

// After a close an arrive and a close are no calls; an output that is posted after its time is handed out late.
#[test]
fn late(rt: HostRuntime) -> Result<(), Fail> {
    let calls = [
        Call::Advance(100),
        arrive(0, 100, 6),
        Call::Advance(200),
        Call::Close,
        Call::Close,
        arrive(0, 200, 6),
        Call::Start(0),
        Call::Finish,
        Call::Start(1),
        Call::Finish,
        Call::Deliver,
        Call::Deliver,
    ];
    let run = run(rt.alloc(), FORK, &calls)?;
    assert!(rt; run.is_complete());
    assert!(rt; run.journal.len() == 10);
    let Answer::Handed(output) = run.journal[8].answer else {
        return Err(Fail::new("nothing was handed out"));
    };
    assert!(rt; output.late && output.timestamp == 101 && output.value == 6);
    assert_eq!(rt; run.journal[9].answer, refused(RunCause::Nothing, 0));
    Ok(())
}
