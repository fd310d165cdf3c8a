ghost use Rattle.std.specs.Prelude.{◌≡◌};
ghost use Rattle.supplied.specs.Kinds.{leaves, reacts, starts};
ghost use Rattle.supplied.specs.States.{row_of, rule_of};

use super::kinds::count::Counter;
use super::kinds::gate::Gate;
use super::kinds::scale::Scale;
use super::kinds::sort::Sort;
use super::kinds::toggle::Toggle;
use line::parts::{Actor, Kind};

// What an actor keeps, by its kind.
#[derive(Clone, Copy)]
pub enum State {
    Other,
    Pass,
    Count(Counter),
    Gate(Gate),
    Toggle(Toggle),
    Scale(Scale),
    Sort(Sort),
}

impl State {
    // The state that an actor starts in.
    pub fn new(actor: Actor) -> State
        ensures row { row_of result ≡ starts actor.kind }
        ensures rule { rule_of result ≡ reacts actor.kind actor.parameter }
    {
        match actor.kind {
            Kind::Pass => State::Pass,
            Kind::Count => State::Count(Counter::new(0)),
            Kind::Gate => State::Gate(Gate::Shut),
            Kind::Toggle => State::Toggle(Toggle::Off),
            Kind::Scale => State::Scale(Scale::new(actor.parameter)),
            Kind::Sort => State::Sort(Sort::new(actor.parameter)),
            Kind::Other => State::Other,
        }
    }

    pub fn react(&mut self, inlets: [Option<i32>; 4]) -> [Option<i32>; 4]
        ensures leaves { leaves (row_of self.new) result ≡ rule_of self.old (row_of self.old) inlets }
        ensures rule { rule_of self.new ≡ rule_of self.old }
    {
        match self {
            State::Other => [None; 4],
            State::Pass => [inlets[0]; 4],
            State::Count(counter) => counter.react(inlets),
            State::Gate(gate) => gate.react(inlets),
            State::Toggle(toggle) => toggle.react(inlets),
            State::Scale(scale) => scale.react(inlets),
            State::Sort(sort) => sort.react(inlets),
        }
    }
}
