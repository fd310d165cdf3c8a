// The calls of a runtime that takes in events.
ghost use Rattle.std.specs.Prelude.{◌≡◌};
ghost use Rattle.runs.specs.State.{fresh};
ghost use Rattle.runs.specs.declared.records.Call.TheVariants.{Arrive, Close};
ghost use Rattle.runs.specs.declared.records.Answer.TheVariants.{Done};
ghost use Rattle.runtime.specs.Answers.{done};
ghost use Rattle.runtime.specs.Model.{Does, Opened};

use super::phase::Open;
use super::{ClosedRuntime, Inner, OpenRuntime, Runtime};
use crate::state::Core;
use banks::bank::Bank;
use fault::Fault;
use project::project::Project;
use std::marker::PhantomData;

impl<B: Bank> Runtime<B, Open> {
    // A runtime at clock 0 with nothing waiting. It holds the bank until it is ended.
    pub fn open(project: Project, bank: B) -> OpenRuntime<B>
        ensures { Opened B.Bank.means project bank result.inner }
    {
        Runtime {
            inner: Inner {
                core: Core::open(project),
                bank,
            },
            phase: PhantomData,
        }
    }

    // Takes in an event of a sensor.
    pub fn arrive(&mut self, sensor: u64, timestamp: u64, value: i32) -> Result<(), Fault>
        ensures { Does B.Bank.means self.old.inner (Arrive sensor timestamp value) (done result) self.new.inner }
    {
        self.inner.core.arrive(sensor, timestamp, value)
    }

    // The same runtime, which takes in no more events.
    pub fn close(self) -> ClosedRuntime<B>
        ensures { Does B.Bank.means self.inner Close Done result.inner }
    {
        let Runtime {
            mut inner,
            phase: _,
        } = self;
        inner.core.close();
        Runtime {
            inner,
            phase: PhantomData,
        }
    }
}
