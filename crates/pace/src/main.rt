// Works a line as often as asked, for counting instructions: days of one event each, or picks on a line full of events.
#![tactic(auto)]

use inputs::{arguments, read_project};
use project::project::Project;
use runs::records::Firing;
use runtime::runtime::OpenRuntime;
use std::fs;
use std::mem::size_of;
use supplied::bank::Supplied;

// From one event to the next.
const DAY: u64 = 1000;

fn main(rt: HostRuntime) -> anyhow::Result<()> {
    match arguments(&rt)?.as_slice() {
        [name, days, picks] => {
            let days = days.parse::<u32>().unwrap_or(0);
            let picks = picks.parse::<u32>().unwrap_or(0);
            work(&rt, name, days, picks)
        }
        _ => {
            println!(rt;
                "pace IMAGE DAYS PICKS: follows so many events from sensor 0 to an actuator, fills the line, and picks so often"
            )?;
            Ok(())
        }
    }
}

fn work(rt: &HostRuntime, name: &str, days: u32, picks: u32) -> anyhow::Result<()> {
    let project = match read_project(&fs::read(rt, name)?) {
        Ok(project) => project,
        Err(fault) => {
            println!(rt; "{name}: {fault}")?;
            return Ok(());
        }
    };
    let mut line = OpenRuntime::open(project, Supplied::of(&project));
    let handed = (0..days)
        .filter(|day| follow(&mut line, DAY.saturating_mul(u64::from(*day))))
        .count();
    let waiting = fill(&mut line, &project, DAY.saturating_mul(u64::from(days)));
    let named = (0..picks).filter(|_| line.pick().is_ok()).count();
    let _ = line.end();
    let size = size_of::<OpenRuntime<Supplied>>();
    println!(rt;
        "{name}: {days} days, {handed} outputs; {waiting} events wait; {picks} picks named an actor {named} times"
    )?;
    println!(rt; "an open runtime over the supplied bank has {size} bytes")?;
    Ok(())
}

// One event of sensor 0, from its arrival until nothing is left to start or to hand out: whether an output went.
fn follow(line: &mut OpenRuntime<Supplied>, start: u64) -> bool {
    let _ = line.advance(start.saturating_add(10));
    let _ = line.arrive(0, start, 7);
    let _ = line.advance(start.saturating_add(61));
    for actor in 0..3 {
        let mut firing = Firing::default();
        let _ = line.start(actor);
        let _ = line.finish(&mut firing);
    }
    let _ = line.advance(start.saturating_add(500));
    line.deliver().is_ok()
}

// Events of all sensors in turn, microsecond by microsecond, until one finds no room.
fn fill(line: &mut OpenRuntime<Supplied>, project: &Project, start: u64) -> u64 {
    for step in 1..1000 {
        let clock = start.saturating_add(step);
        let _ = line.advance(clock);
        for sensor in 0..project.sensors() {
            let _ = line.arrive(u64::from(sensor), clock, 7);
        }
    }
    // Late enough that no sensor can be late any more.
    let _ = line.advance(start.saturating_add(3_000_000_000));
    line.report().events
}
