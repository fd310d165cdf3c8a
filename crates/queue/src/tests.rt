use super::*;
use std::test::Fail;

// A job: when it is due, and who sent it.
type Job = (u64, u8);

impl Ranked for Job {
    ghost order = { λ job. job.0 };

    fn rank(&self) -> u64 {
        self.0
    }
}

fn queued() -> Result<Queue<Job, 4>, Full> {
    let mut q = Queue::new((0, 0));
    q.insert((5, 1))?;
    q.insert((3, 2))?;
    q.insert((5, 2))?;
    q.insert((3, 3))?;
    Ok(q)
}

#[test]
fn equals_stay_as_they_came(rt: HostRuntime) -> Result<(), Fail> {
    let mut q = queued()?;
    assert_eq!(rt; q.as_slice(), &[(3, 2), (3, 3), (5, 1), (5, 2)][..]);
    assert_eq!(rt; q.insert((1, 1)), Err(Full));
    assert_eq!(rt; [q.first(), q.take_first()], [Some((3, 2)); 2]);
    assert_eq!(rt; [q.remove(2), q.remove(2)], [Some((5, 2)), None]);
    assert_eq!(rt; [q.get(0), q.get(1)], [Some((3, 3)), Some((5, 1))]);
    Ok(())
}

#[test]
fn drops_none_some_and_all(rt: HostRuntime) -> Result<(), Fail> {
    let mut q = queued()?;
    q.retain(|job| job.1 != 4);
    assert_eq!(rt; q.len(), 4);
    q.retain(|job| job.1 != 2);
    assert_eq!(rt; q.as_slice(), &[(3, 3), (5, 1)][..]);
    q.retain(|job| job.1 != 1);
    q.retain(|job| job.1 != 3);
    assert_eq!(rt; q.take_first(), None);
    Ok(())
}
