// The sample line, call by call.
use super::helpers::*;
use fault::RunCause;
use runs::records::{Answer, Call, Delivered, Status};
use std::test::Fail;

#[test]
fn to_the_second_firing(rt: HostRuntime) -> Result<(), Fail> {
    let calls = [
        Call::Advance(1000),
        arrive(0, 990, 7),
        Call::Pick,
        Call::Start(0),
        arrive(1, 1000, 1),
        Call::Advance(1051),
        Call::Start(0),
        Call::Finish,
        Call::Pick,
        Call::Start(1),
    ];
    let wanted = [
        Answer::Done,
        Answer::Done,
        refused(RunCause::Nothing, 0),
        refused(RunCause::Early, 1051),
        Answer::Done,
        Answer::Done,
        fires(0, 990, 1490),
        wrote(0, 990, Some(7), None, 1),
        Answer::Named(1),
        fires(1, 990, 1490),
    ];
    let run = run(rt.alloc(), SAMPLE, &calls)?;
    answers(&rt, &run, &wanted);
    Ok(())
}

#[test]
fn from_the_close_on(rt: HostRuntime) -> Result<(), Fail> {
    let calls = [
        Call::Advance(1000),
        arrive(0, 990, 7),
        arrive(1, 1000, 1),
        Call::Advance(1051),
        Call::Start(0),
        Call::Finish,
        Call::Start(1),
        Call::Close,
        Call::Start(0),
        Call::Finish,
        Call::Start(2),
        Call::Finish,
        Call::Start(0),
        Call::Finish,
        Call::Advance(2000),
        Call::Advance(1490),
        Call::Deliver,
        Call::Report,
    ];
    let wanted = [
        Answer::Done,
        Answer::Done,
        Answer::Done,
        Answer::Done,
        fires(0, 990, 1490),
        wrote(0, 990, Some(7), None, 1),
        fires(1, 990, 1490),
        Answer::Done,
        refused(RunCause::NotSooner, 1490),
        wrote(1, 990, Some(1), None, 1),
        fires(2, 1490, 1490),
        wrote(2, 1490, Some(1), None, 1),
        fires(0, 1000, 1500),
        wrote(0, 1000, None, Some(1), 0),
        refused(RunCause::Due, 1490),
        Answer::Done,
        Answer::Handed(Delivered {
            actuator: 0,
            timestamp: 1490,
            value: 1,
            late: false,
        }),
        Answer::Told(Status {
            clock: 1490,
            events: 1,
            firings: 0,
            outputs: 0,
        }),
    ];
    let run = run(rt.alloc(), SAMPLE, &calls)?;
    assert!(rt; run.closed && !run.is_complete());
    answers(&rt, &run, &wanted);
    Ok(())
}
