// What a runtime holds, is asked and answers.
ghost use Rattle.std.specs.Prelude.{◌≡◌, Decides};
ghost use Rattle.std.specs.Cmp.Rules.{comparing};
ghost use Rattle.std.proofs.Common.{rules};
ghost use Rattle.std.specs.Cmp as Keys;
ghost use Rattle.runs.specs.Equal.{running_eq, firing_eq};

use fault::Fault;

// An event that waits at an inlet of an actor.
#[derive(Clone, Copy, PartialEq, Eq, Debug, Default)]
pub struct Event {
    pub actor: u8,
    pub inlet: u8,
    pub timestamp: u64,
    pub value: i32,
}

// A firing that has started and has not finished: a place of the stack.
#[derive(Clone, Copy, Debug, Default)]
pub struct Running {
    pub actor: u8,
    pub timestamp: u64,
    pub inlets: [Option<i32>; 4],
}

// A finished firing: what went in and what came out.
#[derive(Clone, Copy, Debug, Default)]
pub struct Firing {
    pub actor: u8,
    pub timestamp: u64,
    pub inlets: [Option<i32>; 4],
    pub outlets: [Option<i32>; 4],
}

// A value on its way to an actuator.
#[derive(Clone, Copy, PartialEq, Eq, Debug, Default)]
pub struct Output {
    pub actuator: u8,
    pub timestamp: u64,
    pub value: i32,
}

// What an accepted start answers.
#[derive(Clone, Copy, PartialEq, Eq, Debug)]
pub struct Started {
    pub actor: u8,
    pub timestamp: u64,
    pub deadline: u64,
}

// An output handed out; late where the clock had passed its timestamp. An answer by itself: it says nothing of the value.
#[derive(Clone, Copy, PartialEq, Eq, Debug)]
pub struct Delivered {
    pub actuator: u8,
    pub timestamp: u64,
    pub value: i32,
    pub late: bool,
}

// The clock, and how many events wait, firings run and outputs wait.
#[derive(Clone, Copy, PartialEq, Eq, Debug)]
pub struct Status {
    pub clock: u64,
    pub events: u64,
    pub firings: u64,
    pub outputs: u64,
}

// A call on a runtime, with its arguments.
#[derive(Clone, Copy, PartialEq, Eq, Debug)]
pub enum Call {
    Arrive {
        sensor: u64,
        timestamp: u64,
        value: i32,
    },
    Advance(u64),
    Pick,
    Start(u64),
    Finish,
    Deliver,
    Report,
    Close,
}

// What a call answered.
#[derive(Clone, Copy, PartialEq, Eq, Debug)]
pub enum Answer {
    Done,
    Named(u8),
    Fired(Started),
    Wrote(Firing),
    Handed(Delivered),
    Told(Status),
    Refused(Fault),
}

// A line of a journal: a call with its answer.
#[derive(Clone, Copy, PartialEq, Eq, Debug)]
pub struct Step {
    pub call: Call,
    pub answer: Answer,
}

fn same_ports(a: [Option<i32>; 4], b: [Option<i32>; 4]) -> bool
    ensures { Decides result (a ≡ b) }
{
    a == b
}

// By hand: a derived `==` has no clause, and this one promises that it tells whether two are the same.
impl PartialEq for Running {
    ghost eq = { running_eq };

    ghost laws = { Keys.partial_equiv_from_equiv (Prim.search (comparing, rules) depth 9) };

    fn eq(&self, other: &Running) -> bool
        ensures same { result ≡ running_eq self.now other.now }
        ensures exact { Decides result (self.now ≡ other.now) }
    {
        self.actor == other.actor
            && self.timestamp == other.timestamp
            && same_ports(self.inlets, other.inlets)
    }
}

impl Eq for Running {
    ghost laws = { Prim.search (comparing, rules) depth 9 };
}

// By hand, as that of `Running`.
impl PartialEq for Firing {
    ghost eq = { firing_eq };

    ghost laws = { Keys.partial_equiv_from_equiv (Prim.search (comparing, rules) depth 9) };

    fn eq(&self, other: &Firing) -> bool
        ensures same { result ≡ firing_eq self.now other.now }
        ensures exact { Decides result (self.now ≡ other.now) }
    {
        self.actor == other.actor
            && self.timestamp == other.timestamp
            && same_ports(self.inlets, other.inlets)
            && same_ports(self.outlets, other.outlets)
    }
}

impl Eq for Firing {
    ghost laws = { Prim.search (comparing, rules) depth 9 };
}
