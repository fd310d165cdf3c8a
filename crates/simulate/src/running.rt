// Scripts run on the line of an image.
ghost use Rattle.std.specs.Prelude.{◌≡◌, IfOk};
ghost use Rattle.simulation.specs.Calls.{existing};
ghost use Rattle.simulation.specs.Journals.{called};
ghost use Rattle.simulate.specs.Scripts.{calls_of};

use super::answers::Answered;
use super::entries::{Entry, calls, entries};
use super::records::print_records;
use super::texts::Text;
use fault::Fault;
use inputs::{print_refusal, read_or_empty, read_project};
use project::project::Project;
use runs::records::Step;
use simulation::{Performed, Run, compare, perform};
use supplied::bank::Supplied;

// The project of an image that lies in a file.
fn load_project(rt: &HostRuntime, name: &str) -> anyhow::Result<Result<Project, Fault>> {
    Ok(read_project(&read_or_empty(rt, name)?))
}

// Runs a script and prints every answer, every record and how the run ended.
pub fn run_script(rt: &HostRuntime, image: &str, script: &str) -> anyhow::Result<()> {
    let project = match load_project(rt, image)? {
        Ok(project) => project,
        Err(fault) => return print_refusal(rt, image, fault),
    };
    let text = read_or_empty(rt, script)?;
    let entries = entries(rt.alloc(), &text)?;
    let run = run_entries(rt, project, &entries)?;
    print_answers(rt, &entries, &run.journal)?;
    print_records(rt, &project, &run.journal)?;
    print_end(rt, "run", &run)
}

// Runs two scripts and prints how the runs ended and whether they agree.
pub fn compare_scripts(
    rt: &HostRuntime,
    image: &str,
    first: &str,
    second: &str,
) -> anyhow::Result<()> {
    let project = match load_project(rt, image)? {
        Ok(project) => project,
        Err(fault) => return print_refusal(rt, image, fault),
    };
    let first = run_quietly(rt, project, first)?;
    let second = run_quietly(rt, project, second)?;
    print_end(rt, "first", &first)?;
    print_end(rt, "second", &second)?;
    let comparison = compare(&first, &second);
    println!(rt;
        "sensors gave the same events: {}",
        yes_or_no(comparison.same_events)
    )?;
    println!(rt; "records are equal: {}", yes_or_no(comparison.same_records))?;
    Ok(())
}

fn run_quietly(rt: &HostRuntime, project: Project, script: &str) -> anyhow::Result<Run> {
    let text = read_or_empty(rt, script)?;
    let entries = entries(rt.alloc(), &text)?;
    run_entries(rt, project, &entries)
}

// The calls among the entries, performed over the bank of the supplied kinds: the journal answers them one by one.
fn run_entries(rt: &HostRuntime, project: Project, entries: &[Entry<'_>]) -> anyhow::Result<Run>
    requires { existing (calls_of entries.now) ≡ calls_of entries.now }
    ensures { IfOk result (λ run. called run.journal.items ≡ calls_of entries.now) }
{
    let calls = calls(rt.alloc(), entries)?;
    let bank = Supplied::of(&project);
    let Performed { bank: _, run } = perform(rt.alloc(), project, bank, &calls);
    Ok(run?)
}

// Each call of the journal answers one entry, in their order.
fn print_answers(rt: &HostRuntime, entries: &[Entry<'_>], journal: &[Step]) -> anyhow::Result<()> {
    let mut steps = journal.iter();
    for entry in entries {
        let number = entry.number;
        let text = Text(entry.text);
        match entry.call.and_then(|_| steps.next()) {
            Some(step) => println!(rt; "{number}: {text} -> {}", Answered(step.answer))?,
            None => println!(rt; "{number}: {text} -> not a call")?,
        }
    }
    Ok(())
}

fn print_end(rt: &HostRuntime, name: &str, run: &Run) -> anyhow::Result<()> {
    let closed = if run.closed { "closed" } else { "open" };
    let complete = if run.is_complete() {
        "complete"
    } else {
        "not complete"
    };
    println!(rt; "{name}: {closed}, {complete}")?;
    Ok(())
}

fn yes_or_no(answer: bool) -> &'static str {
    if answer { "yes" } else { "no" }
}
