ghost use Rattle.std.specs.Prelude.{◌≡◌, [], ◌∷◌, ◌++◌, Ok, Err, IfOk};
ghost use Rattle.project.specs.Project.{line};
ghost use Rattle.runs.specs.declared.records.Call.TheVariants.{Close};
ghost use Rattle.runtime.specs.Model.{state};
ghost use Rattle.simulation.specs.Calls.{when_closed};
ghost use Rattle.simulation.specs.Journals.{Worked, called, closing};
ghost use Rattle.simulation.specs.Laws.{LawsOverRuns};
ghost use Rattle.simulation.specs.Performed.{Ran, Tells};

use super::asking::Asking;
use super::parting::part_at_close;
use super::working::work;
use super::{Performed, Run};
use banks::bank::Bank;
use project::project::Project;
use runs::records::{Answer, Call, Step};
use runtime::runtime::{ClosedRuntime, OpenRuntime, Runtime};
use std::alloc::{AllocError, Global};

// The step of a close.
const CLOSING: Step = Step {
    call: Call::Close,
    answer: Answer::Done,
};

// The end of a run: what the runtime reports, and its bank.
fn end<B: Bank, S: Asking>(
    line: Runtime<B, S>,
    journal: Result<Vec<Step>, AllocError>,
) -> Performed<B>
    ensures journal { IfOk result.run (λ run. journal ≡ Ok run.journal) }
    ensures tells { IfOk result.run (λ run. Tells (state B.Bank.means line.inner) run (B.Bank.means result.bank)) }
    ensures bank { result.bank ≡ line.inner.bank }
{
    let status = line.report();
    Performed {
        bank: line.end(),
        run: journal.map(|journal| Run {
            journal,
            closed: !S::TAKING,
            status,
        }),
    }
}

// Notes a close in the journal, and performs the calls behind it.
fn work_closed<B: Bank>(
    line: &mut ClosedRuntime<B>,
    calls: &[Call],
    journal: Result<Vec<Step>, AllocError>,
) -> Result<Vec<Step>, AllocError>
    ensures { elim journal [ Ok h ↦ IfOk result (λ k. Worked B.Bank.means line.old.inner (h.items ++ closing ∷ []) line.new.inner k.items × (called k.items ≡ called h.items ++ Close ∷ when_closed calls.now)) | Err error ↦ result ≡ Err error ] }
{
    let mut journal = journal?;
    journal.push(CLOSING)?;
    work(line, calls, journal)
}

// Opens a runtime and performs a list of calls on it, in order; an arrive or a close after a close is no call and is
// left out. The laws hold of every such run.
#[tactic(auto, using(crate::proofs::Laws::laws_over_runs))]
pub fn perform<B: Bank>(heap: Global, project: Project, bank: B, calls: &[Call]) -> Performed<B>
    ensures ran { IfOk result.run (λ run. Ran (line project) (B.Bank.means bank) calls.now run (B.Bank.means result.bank)) }
    ensures laws { LawsOverRuns }
{
    let (before, behind) = part_at_close(calls);
    let mut line = OpenRuntime::open(project, bank);
    let journal = work(&mut line, before, Vec::new(heap));
    match behind {
        Some(behind) => {
            let mut line = line.close();
            let journal = work_closed(&mut line, behind, journal);
            end(line, journal)
        }
        None => end(line, journal),
    }
}
