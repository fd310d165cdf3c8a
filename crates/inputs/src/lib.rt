// What the programs are given: arguments, files and images.
#![tactic(auto)]

ghost use Rattle.std.specs.Prelude.{MatchResult};
ghost use Rattle.project.specs.Project.{Accepted, Refused};

use fault::Fault;
use project::project::Project;
use std::{env, fs};

// The arguments behind the program's name.
pub fn arguments(rt: &HostRuntime) -> anyhow::Result<Vec<String>> {
    Ok(env::args(rt)?.skip(1).collect(rt.alloc())?)
}

// The bytes of a file; one that does not open counts as empty.
pub fn read_or_empty(rt: &HostRuntime, name: &str) -> anyhow::Result<Vec<u8>> {
    match fs::read(rt, name) {
        Ok(bytes) => Ok(bytes),
        Err(_) => {
            eprintln!(rt; "{name}: does not open, and counts as empty")?;
            Ok(Vec::new(rt.alloc()))
        }
    }
}

// The project of an image, or why it is refused.
pub fn read_project(image: &[u8]) -> Result<Project, Fault>
    ensures { MatchResult result (Accepted image.now) (Refused image.now) }
{
    let mut project = Project::fresh();
    project.read(image)?;
    Ok(project)
}

// Prints why the image of a name is refused.
pub fn print_refusal(rt: &HostRuntime, name: &str, fault: Fault) -> anyhow::Result<()> {
    println!(rt; "{name}: {fault}: {}", fault.words())?;
    Ok(())
}
