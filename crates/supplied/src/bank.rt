ghost use Rattle.std.specs.Prelude.{◌≡◌, slice_index_or, slice_set};
ghost use Rattle.supplied.specs.Holding.{meaning_of, state_of};
ghost use Rattle.supplied.specs.Kinds.{leaves, reacts, starts};
ghost use Rattle.supplied.specs.Project.{bystander, supplied};
ghost use Rattle.supplied.specs.States.{row_of, rule_of};
ghost use Rattle.project.specs.Project.{plan};

use super::state::State;
use banks::bank::Bank;
use line::parts::Actor;
use project::project::Project;
use std::array;

// As many actors as a project may have.
const ACTORS: usize = 32;

// The bank of a project's actors, each with the state of its kind. Numbers that the project does not use are silent.
#[derive(Drop)]
pub struct Supplied {
    states: [State; ACTORS],
}

// The state of an actor number at the start; a number past the end is silent.
fn first_state(actors: &[Actor], number: usize) -> State
    ensures row { row_of result ≡ starts (slice_index_or actors.now number bystander).kind }
    ensures rule { rule_of result ≡ reacts (slice_index_or actors.now number bystander).kind (slice_index_or actors.now number bystander).parameter }
{
    actors
        .get(number)
        .map_or(State::Other, |actor| State::new(*actor))
}

impl Supplied {
    // A bank for the actors of a project, by their numbers, all as they are at the start.
    pub fn new(actors: &[Actor]) -> Supplied
        ensures { meaning_of result ≡ supplied actors.now }
    {
        Supplied {
            states: array::from_fn(|number| first_state(actors, number)),
        }
    }

    // A bank for a project, as it is at the start.
    pub fn of(project: &Project) -> Supplied
        ensures { meaning_of result ≡ supplied (plan project.now).actors }
    {
        Supplied::new(project.actors())
    }
}

impl Bank for Supplied {
    ghost means = { meaning_of };

    fn react(&mut self, actor: u64, _timestamp: u64, inlets: [Option<i32>; 4]) -> [Option<i32>; 4] {
        fire(&mut self.states, actor as usize, inlets)
    }
}

// Lets the actor of a number fire, and no other; past the last state nothing happens.
fn fire(states: &mut [State], number: usize, inlets: [Option<i32>; 4]) -> [Option<i32>; 4]
    ensures leaves { leaves (row_of (state_of states.new number)) result ≡ rule_of (state_of states.old number) (row_of (state_of states.old number)) inlets }
    ensures rule { rule_of (state_of states.new number) ≡ rule_of (state_of states.old number) }
    ensures others { states.new ≡ slice_set states.old number (state_of states.new number) }
{
    if number < states.len() {
        states[number].react(inlets)
    } else {
        [None; 4]
    }
}
