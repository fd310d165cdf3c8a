ghost use Rattle.std.specs.Prelude.{◌≡◌};
ghost use Rattle.project.specs.Project.{line};
ghost use Rattle.runs.specs.declared.records.Call.TheVariants.{Pick};
ghost use Rattle.runtime.specs.Answers.{named};
ghost use Rattle.runtime.specs.Keys.{key_of, lesser};
ghost use Rattle.runtime.specs.Meant.{no_rows};
ghost use Rattle.runtime.specs.Model.{Moves, state_over};

use super::limits::NOTHING;
use super::state::Core;
use fault::Fault;

// The order of picks: the deadline of the firing that would start, its timestamp, and the actor's number.
type Key = (u64, u64, u8);

// The lesser of two keys that may be missing. Tuples compare part by part.
fn lesser(x: Option<Key>, y: Option<Key>) -> Option<Key>
    ensures { result ≡ lesser x y }
{
    match (x, y) {
        (Some(a), Some(b)) => Some(a.min(b)),
        (x, y) => x.or(y),
    }
}

impl Core {
    // The key of an actor that start would accept.
    fn key(&self, actor: u8) -> Option<Key>
        ensures { result ≡ key_of (line self.now.project) (state_over self.now no_rows) actor }
    {
        let start = self.startable(u64::from(actor)).ok()?;
        Some((start.deadline, start.timestamp, start.actor))
    }

    // The actor of the least key.
    pub(crate) fn pick(&self) -> Result<u8, Fault>
        ensures { Moves self.now Pick (named result) self.now }
    {
        let count = self.project.actors().len() as u8;
        let mut least = None;
        // A loop: with `filter_map` and `min` the search came to its limits, since each key is a whole start.
        for actor in 0..count {
            least = lesser(least, self.key(actor));
        }
        least.map(|key| key.2).ok_or(NOTHING)
    }
}
