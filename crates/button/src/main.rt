// The download button: reports on one or two project images, and says whether there is anything to download.
#![tactic(auto)]

use fault::Fault;
use inputs::{arguments, print_refusal, read_or_empty, read_project};
use line::parts::{Actor, Sink, Source};
use project::project::Project;

fn main(rt: HostRuntime) -> anyhow::Result<()> {
    match arguments(&rt)?.as_slice() {
        [only] => {
            // A refusal is printed by then.
            let _ = examine(&rt, only)?;
            Ok(())
        }
        [old, new] => compare(&rt, old, new),
        _ => explain(&rt),
    }
}

fn explain(rt: &HostRuntime) -> anyhow::Result<()> {
    println!(rt;
        "button OLD NEW: reports on two project images and says whether NEW is to be downloaded"
    )?;
    println!(rt; "button IMAGE:   reports on one project image")?;
    Ok(())
}

// Reports on an image; gives its project and its length where it is accepted.
fn examine(rt: &HostRuntime, name: &str) -> anyhow::Result<Result<(Project, usize), Fault>> {
    let image = read_or_empty(rt, name)?;
    let size = image.len();
    match read_project(&image) {
        Ok(project) => {
            println!(rt; "{name}: accepted, {size} bytes")?;
            report(rt, &project)?;
            Ok(Ok((project, size)))
        }
        Err(fault) => {
            print_refusal(rt, name, fault)?;
            Ok(Err(fault))
        }
    }
}

fn report(rt: &HostRuntime, project: &Project) -> anyhow::Result<()> {
    for sensor in 0..project.sensors() {
        report_sensor(rt, project, sensor)?;
    }
    for (number, actor) in project.actors().iter().enumerate() {
        report_actor(rt, project, number, actor)?;
    }
    for actuator in 0..project.actuators() {
        report_actuator(rt, project, actuator)?;
    }
    Ok(())
}

fn report_sensor(rt: &HostRuntime, project: &Project, sensor: u8) -> anyhow::Result<()> {
    let lateness = project.lateness(usize::from(sensor)).unwrap_or(0);
    print!(rt; "  sensor {sensor}: lateness {lateness}")?;
    if let Some(Sink::Inlet { actor, inlet }) = project.feed(sensor) {
        print!(rt; ", to actor {actor} inlet {inlet}")?;
    }
    println!(rt; "")?;
    Ok(())
}

fn report_actor(
    rt: &HostRuntime,
    project: &Project,
    number: usize,
    actor: &Actor,
) -> anyhow::Result<()> {
    println!(rt;
        "  actor {number}: {}, parameter {}, delay {}, wait {}, deadline {}",
        actor.kind,
        actor.parameter,
        project.delay(number, 0),
        project.wait(number).unwrap_or(0),
        project.deadline(number).unwrap_or(0)
    )?;
    Ok(())
}

fn report_actuator(rt: &HostRuntime, project: &Project, actuator: u8) -> anyhow::Result<()> {
    if let Some(Source::Outlet { actor, outlet }) = project.origin(actuator) {
        println!(rt; "  actuator {actuator}: from actor {actor} outlet {outlet}")?;
    }
    Ok(())
}

fn compare(rt: &HostRuntime, old: &str, new: &str) -> anyhow::Result<()> {
    let before = examine(rt, old)?;
    let after = examine(rt, new)?;
    match (&before, &after) {
        (Ok((before, _)), Ok((after, _))) if before.same_line(after) => {
            println!(rt; "unchanged: nothing to download")?;
        }
        (Ok(_), Ok((_, size))) => println!(rt; "changed: {size} bytes to download")?,
        _ => println!(rt; "refused: nothing downloaded")?,
    }
    Ok(())
}
