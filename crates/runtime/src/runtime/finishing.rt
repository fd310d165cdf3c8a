ghost use Rattle.std.specs.Prelude.{◌≡◌, false, is_ok};
ghost use Rattle.banks.specs.Firing.{fired, next};
ghost use Rattle.runs.specs.declared.records.Call.TheVariants.{Finish};
ghost use Rattle.runtime.specs.Answers.{wrote};
ghost use Rattle.runtime.specs.Model.{Performs};

use super::Inner;
use crate::limits::NOTHING;
use banks::bank::Bank;
use fault::Fault;
use runs::records::{Firing, Running};

// What a bank gives for a firing.
fn fire<B: Bank>(bank: &mut B, firing: &Running) -> [Option<i32>; 4]
    ensures outlets { result ≡ (fired (B.Bank.means bank.old) firing.now.actor firing.now.timestamp firing.now.inlets).outlets }
    ensures meaning { B.Bank.means bank.new ≡ next (B.Bank.means bank.old) firing.now.actor firing.now.timestamp firing.now.inlets }
{
    bank.react(u64::from(firing.actor), firing.timestamp, firing.inlets)
}

impl<B: Bank> Inner<B> {
    // Lets the top firing react, sends what it gave, and writes down what went in and what came out.
    pub(crate) fn finish(&mut self, firing: &mut Firing) -> Result<(), Fault>
        ensures does { Performs B.Bank.means self.old Finish (wrote result firing.new) self.new }
        ensures taking { self.new.core.taking ≡ self.old.core.taking }
        ensures refused { is_ok result ≡ false → firing.new ≡ firing.old }
    {
        // No `ok_or` here: it made a finish with no firing stacked three times as slow.
        let Some(top) = self.core.top() else {
            return Err(NOTHING);
        };
        let outlets = fire(&mut self.bank, &top);
        *firing = self.core.unstack(top, outlets);
        Ok(())
    }
}
