ghost use Rattle.std.specs.Prelude.{◌≡◌, Bool, true, false, not, refl, Ok, Err};
ghost use Rattle.runs.specs.declared.records.Answer.TheVariants.{Refused};
ghost use Rattle.runs.specs.declared.records.Call.{Call};
ghost use Rattle.simulation.specs.Calls.{for_open_only, is_close};
ghost use Rattle.simulation.specs.Journals.{Asked};

use banks::bank::Bank;
use fault::Fault;
use runs::records::{Answer, Call, Firing};
use runtime::runtime::Runtime;
use runtime::runtime::phase::{Closed, Open, Phase};

// What a call returned, as an answer of a journal.
fn answered<T, F: FnOnce(T) -> Answer>(returned: Result<T, Fault>, accepted: F) -> Answer
    requires { F.IsAlwaysCallable accepted }
    ensures { elim returned [ Ok x ↦ F.post accepted x result | Err fault ↦ result ≡ Refused fault ] }
{
    returned.map_or_else(Answer::Refused, accepted)
}

// Makes a call that a runtime has in every phase; none for the others.
#[tactic(auto, using(runtime::proofs::Performs::performs))]
fn ask_any<B: Bank, S: Phase>(line: &mut Runtime<B, S>, call: Call) -> Option<Answer>
    ensures { Asked B.Bank.means (for_open_only call) line.old.inner call result line.new.inner }
{
    match call {
        Call::Advance(clock) => Some(answered(line.advance(clock), |()| Answer::Done)),
        Call::Pick => Some(answered(line.pick(), Answer::Named)),
        Call::Start(actor) => Some(answered(line.start(actor), Answer::Fired)),
        Call::Finish => {
            let mut firing = Firing::default();
            let finished = line.finish(&mut firing);
            Some(answered(finished, |()| Answer::Wrote(firing)))
        }
        Call::Deliver => Some(answered(line.deliver(), Answer::Handed)),
        Call::Report => Some(Answer::Told(line.report())),
        Call::Arrive { .. } | Call::Close => None,
    }
}

// A phase of a runtime, with the calls that a runtime has in it.
pub(crate) trait Asking: Phase {
    // Those that it does not have.
    ghost lacks: { Call → Bool };

    // Makes a call; none where it is lacking.
    fn ask<B: Bank>(line: &mut Runtime<B, Self>, call: Call) -> Option<Answer>
        ensures { Asked B.Bank.means (lacks call) line.old.inner call result line.new.inner };
}

// A close takes the runtime, and so is left to the caller.
impl Asking for Open {
    ghost lacks = { is_close };

    #[tactic(auto, using(runtime::proofs::Performs::performs))]
    fn ask<B: Bank>(line: &mut Runtime<B, Open>, call: Call) -> Option<Answer> {
        match call {
            Call::Arrive {
                sensor,
                timestamp,
                value,
            } => Some(answered(line.arrive(sensor, timestamp, value), |()| Answer::Done)),
            other => ask_any(line, other),
        }
    }
}

impl Asking for Closed {
    ghost lacks = { for_open_only };

    fn ask<B: Bank>(line: &mut Runtime<B, Closed>, call: Call) -> Option<Answer> {
        ask_any(line, call)
    }
}
