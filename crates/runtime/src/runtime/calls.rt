// The calls of every phase.
ghost use Rattle.std.specs.Prelude.{◌≡◌, false, is_ok};
ghost use Rattle.runs.specs.declared.records.Call.TheVariants.{Advance, Pick, Start, Finish, Deliver, Report};
ghost use Rattle.runs.specs.declared.records.Answer.TheVariants.{Told};
ghost use Rattle.runtime.specs.Answers.{done, fired, handed, named, wrote};
ghost use Rattle.runtime.specs.Model.{Does, Performs};

use super::phase::Phase;
use super::{Inner, Runtime};
use banks::bank::Bank;
use fault::Fault;
use runs::records::{Delivered, Firing, Started, Status};

impl<B: Bank, S: Phase> Runtime<B, S> {
    // The clock, and how many events wait, firings run and outputs wait.
    pub fn report(&self) -> Status
        ensures { Does B.Bank.means self.now.inner Report (Told result) self.now.inner }
    {
        self.inner.core.report()
    }

    // Sets the clock.
    pub fn advance(&mut self, clock: u64) -> Result<(), Fault>
        ensures { Does B.Bank.means self.old.inner (Advance clock) (done result) self.new.inner }
    {
        self.inner.core.advance(clock)
    }

    // The actor to start next: of those that start would accept, that with the least deadline, then the least timestamp,
    // then the least number.
    pub fn pick(&self) -> Result<u8, Fault>
        ensures { Does B.Bank.means self.now.inner Pick (named result) self.now.inner }
    {
        self.inner.core.pick()
    }

    // Starts a firing of an actor, of all events of the least timestamp that waits there.
    pub fn start(&mut self, actor: u64) -> Result<Started, Fault>
        ensures { Does B.Bank.means self.old.inner (Start actor) (fired result) self.new.inner }
    {
        self.inner.core.start(actor)
    }

    // Completes the top firing: lets it react, sends on what it gave, and writes it into `firing`.
    pub fn finish(&mut self, firing: &mut Firing) -> Result<(), Fault>
        ensures does { Performs B.Bank.means self.old.inner Finish (wrote result firing.new) self.new.inner }
        ensures refused { is_ok result ≡ false → firing.new ≡ firing.old }
    {
        self.inner.finish(firing)
    }

    // Hands out an output of the least timestamp, if it is due.
    pub fn deliver(&mut self) -> Result<Delivered, Fault>
        ensures { Does B.Bank.means self.old.inner Deliver (handed result) self.new.inner }
    {
        self.inner.core.deliver()
    }

    // Hands the bank back.
    pub fn end(self) -> B
        ensures { result ≡ self.inner.bank }
    {
        let Runtime {
            inner: Inner { core: _, bank },
            phase: _,
        } = self;
        bank
    }
}
