// The runtime on the sample line, as far as its calls go.
#![tactic(auto)]

#[cfg(test)]
mod tests {
    use fault::{Fault, RunCause};
    use project::project::Project;
    use runs::records::{Started, Status};
    use runtime::runtime::OpenRuntime;
    use std::test::Fail;
    use supplied::bank::Supplied;

    // Two sensors feed a count; a pass of delay 500 and one of delay 0 follow it in a row.
    const SAMPLE: &[u8; 74] =
        b"LIN\x01\x00\x02\x03\x01\x05\x3C\x00\x00\x00\x00\x00\x00\x00\x01\x00\x00\x00\x00\x00\x00\x00\x00\x00\x00\x00\x00\x00\xF4\x01\x00\x00\x00\x00\x00\x00\x00\x00\x00\x00\x00\x00\x00\x00\x00\x00\x00\x00\x01\x00\x00\x00\x01\x01\x00\x00\x00\x01\x00\x01\x01\x00\x00\x02\x00\x01\x02\x00\x01\x00\x00";

    fn refused(cause: RunCause, place: u64) -> Fault {
        Fault::Run(cause, place)
    }

    #[test]
    fn a_start_waits_for_its_sensors(rt: HostRuntime) -> Result<(), Fail> {
        let mut project = Project::fresh();
        project.read(SAMPLE)?;
        let bank = Supplied::of(&project);
        let mut line = OpenRuntime::open(project, bank);
        let ahead = line.arrive(0, 1, 7);
        let moved = line.advance(1000);
        let first = line.arrive(0, 990, 7);
        let stale = line.arrive(0, 990, 8);
        let unknown = line.arrive(2, 990, 8);
        let idle = line.pick();
        let early = line.start(0);
        let second = line.arrive(1, 1000, 1);
        let back = line.advance(999);
        let later = line.advance(1051);
        let picked = line.pick();
        let started = line.start(0);
        let again = line.start(0);
        let status = line.report();
        let mut closed = line.close();
        let not_sooner = closed.start(0);
        let none_due = closed.deliver();
        let _ = closed.end();
        assert_eq!(rt; ahead, Err(refused(RunCause::Window, 0)));
        assert_eq!(rt; moved, Ok(()));
        assert_eq!(rt; first, Ok(()));
        assert_eq!(rt; stale, Err(refused(RunCause::Stale, 990)));
        assert_eq!(rt; unknown, Err(refused(RunCause::NoSuch, 2)));
        assert_eq!(rt; idle, Err(refused(RunCause::Nothing, 0)));
        assert_eq!(rt; early, Err(refused(RunCause::Early, 1051)));
        assert_eq!(rt; second, Ok(()));
        assert_eq!(rt; back, Err(refused(RunCause::Back, 1000)));
        assert_eq!(rt; later, Ok(()));
        assert_eq!(rt; picked, Ok(0));
        assert_eq!(rt;
            started,
            Ok(Started {
                actor: 0,
                timestamp: 990,
                deadline: 1490,
            })
        );
        assert_eq!(rt; again, Err(refused(RunCause::Early, 1061)));
        assert_eq!(rt;
            status,
            Status {
                clock: 1051,
                events: 1,
                firings: 1,
                outputs: 0,
            }
        );
        assert_eq!(rt; not_sooner, Err(refused(RunCause::NotSooner, 1490)));
        assert!(rt; none_due.is_err());
        Ok(())
    }
}
