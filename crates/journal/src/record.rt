// The record of one sensor, actor or actuator, read from a journal.
ghost use Rattle.std.specs.Prelude.{◌≡◌, ℕ, ◌<◌, true, length, Decides};
ghost use Rattle.std.specs.Iterator.{at_most};
ghost use Rattle.std.specs.Slice.Iter.{iter_rest};
ghost use Rattle.journal.specs.Told.{told_of, Numbered};
ghost use Rattle.journal.specs.Entries.{Begins, Gives};

use super::entry::Entry;
use runs::records::Step;
use std::marker::PhantomData;
use std::slice::Iter;

// The entries of one number that are still to be read, oldest first.
#[derive(Drop)]
pub(crate) struct Entries<'a, E> {
    steps: Iter<'a, Step>,
    number: u64,
    kind: PhantomData<E>,
}

// The entries of a number, from the beginning of a journal.
fn entries_of<E: Entry>(journal: &[Step], number: u64) -> Entries<'_, E>
    ensures { Begins number journal.now result }
{
    Entries {
        steps: journal.iter(),
        number,
        kind: PhantomData,
    }
}

impl<'a, E: Entry> Iterator for Entries<'a, E> {
    type Item = E;

    ghost next_gives = { Gives E.Entry.kind };

    ghost remaining = { λ s. at_most (length (iter_rest s.steps)) };

    fn next(&mut self) -> Option<E> {
        let number = self.number;
        self.steps.find_map(|step| E::told_by(step).filter(|entry| entry.owner() == number))
    }
}

// Whether a number has the same record in both journals. A yes has read both to their ends, and so has seen the number
// of every entry, which is what `low` says.
fn same_record<E: Entry>(first: &[Step], second: &[Step], number: u64) -> bool
    ensures same { Decides result (told_of E.Entry.kind number first.now ≡ told_of E.Entry.kind number second.now) }
    ensures low { result ≡ true → Numbered E.Entry.kind first.now × Numbered E.Entry.kind second.now }
{
    entries_of::<E>(first, number).eq(entries_of::<E>(second, number))
}

// The numbers of a byte: no line has more sensors, actors or actuators.
const NUMBERS: u64 = 256;

// Whether each number of a byte has the same record in both journals.
pub(crate) fn same_for_all<E: Entry>(first: &[Step], second: &[Step]) -> bool
    ensures below { Decides result ((n : ℕ) → n < 256 → told_of E.Entry.kind n first.now ≡ told_of E.Entry.kind n second.now) }
    ensures low { result ≡ true → Numbered E.Entry.kind first.now × Numbered E.Entry.kind second.now }
{
    (0..NUMBERS).all(|number| same_record::<E>(first, second, number))
}
