// Runs a script of calls on a line, or compares what two scripts do.
#![tactic(auto)]

mod answers;
mod entries;
mod records;
mod running;
mod texts;

use inputs::arguments;
use running::{compare_scripts, run_script};

fn main(rt: HostRuntime) -> anyhow::Result<()> {
    match arguments(&rt)?.as_slice() {
        [image, script] => run_script(&rt, image, script),
        [image, first, second] => compare_scripts(&rt, image, first, second),
        _ => explain(&rt),
    }
}

fn explain(rt: &HostRuntime) -> anyhow::Result<()> {
    println!(rt;
        "simulate IMAGE SCRIPT:        runs a script of calls on a line and prints what each answered"
    )?;
    println!(rt;
        "simulate IMAGE SCRIPT SCRIPT: runs both, and says whether events and records are the same"
    )?;
    Ok(())
}
