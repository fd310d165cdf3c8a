// Reads an image and writes the project back, each as often as asked: for counting instructions.
#![tactic(auto)]

use inputs::arguments;
use project::project::{LONGEST, Project};
use std::fs;

fn main(rt: HostRuntime) -> anyhow::Result<()> {
    match arguments(&rt)?.as_slice() {
        [name, reads, writes] => {
            let reads = reads.parse::<u32>().unwrap_or(0);
            let writes = writes.parse::<u32>().unwrap_or(0);
            measure(&rt, name, reads, writes)
        }
        _ => {
            println!(rt;
                "measure IMAGE READS WRITES: reads and writes a project image so many times"
            )?;
            Ok(())
        }
    }
}

fn measure(rt: &HostRuntime, name: &str, reads: u32, writes: u32) -> anyhow::Result<()> {
    let image = fs::read(rt, name)?;
    let mut project = Project::fresh();
    for _ in 0..reads {
        if let Err(fault) = project.read(&image) {
            println!(rt; "{name}: {fault}")?;
            return Ok(());
        }
    }
    // Every byte is looked at, so that no write can be left out.
    let sum = written(&project, writes)
        .iter()
        .fold(0u64, |sum, byte| sum.wrapping_add(u64::from(*byte)));
    println!(rt; "{name}: read {reads} times, written {writes} times, bytes add up to {sum}")?;
    Ok(())
}

// The project's image, written so often, with zeros behind it.
fn written(project: &Project, writes: u32) -> [u8; LONGEST] {
    let mut buffer = [0; LONGEST];
    for _ in 0..writes {
        let _ = project.write(&mut buffer);
    }
    buffer
}
