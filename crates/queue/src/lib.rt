// A list of at most N records in the order of their ranks, equals as they came.
#![tactic(auto)]

ghost use Rattle.std.specs.Prelude.{◌≡◌, ◌≤◌, [], length, is_ok, if◌then◌else◌, nat_lt, position, unwrap_or};
ghost use Rattle.std.specs.Fn.{CalledAt};
ghost use Rattle.std.specs.List.{remove, slice_get};
ghost use Rattle.std.specs.List.Retain.{IsFiltered};
ghost use Rattle.bounded.specs.Held.{unwanted};
ghost use Rattle.queue.specs.Held.{held};
ghost use Rattle.queue.specs.Order.{OrderLaws, StaysOrdered, put};

use bounded::{Bounded, Full, Select};

mod ranked;
#[cfg(test)]
mod tests;

pub use ranked::Ranked;

#[derive(Clone, Copy)]
pub struct Queue<T: Ranked, const N: usize> {
    list: Bounded<T, N>,
}

// Whether x goes before y: a record never goes before its equal.
fn precedes<T: Ranked>(x: &T, y: &T) -> bool
    ensures { result ≡ nat_lt (T.Ranked.order x.now) (T.Ranked.order y.now) }
{
    x.rank() < y.rank()
}

// The first record that x precedes. Sought from the front: no type says that the records are in order.
fn first_over<T: Ranked>(list: &[T], x: &T) -> Option<usize>
    ensures { result ≡ position (λ y. nat_lt (T.Ranked.order x.now) (T.Ranked.order y)) list.now }
{
    list.iter().position(|y| precedes(x, y))
}

impl<T: Ranked, const N: usize> Queue<T, N> {
    // An empty queue: `filler` stands in its free places, and is never read.
    pub fn new(filler: T) -> Self
        ensures { held result ≡ [] }
    {
        Queue {
            list: Bounded::new(filler),
        }
    }

    pub fn len(&self) -> usize
        ensures count { result ≡ length (held self.now) }
        ensures fits { result ≤ N }
    {
        self.list.len()
    }

    pub fn as_slice(&self) -> &[T]
        ensures { result.now ≡ held self.now }
    {
        self.list.as_slice()
    }

    pub fn get(&self, i: usize) -> Option<T>
        ensures { result ≡ slice_get (held self.now) i }
    {
        self.list.get(i)
    }

    pub fn first(&self) -> Option<T>
        ensures { result ≡ slice_get (held self.now) 0 }
    {
        self.list.get(0)
    }

    // Puts x before the first record of greater rank. Refused where the queue is full, which then stays as it is.
    pub fn insert(&mut self, x: T) -> Result<(), Full>
        ensures answer { is_ok result ≡ nat_lt (length (held self.old)) N }
        ensures after { held self.new ≡ (if is_ok result then put T.Ranked.order x (held self.old) else held self.old) }
        ensures ordered { StaysOrdered T.Ranked.order (held self.old) (held self.new) }
    {
        // The place is never past the end, so only want of room refuses.
        let i = self.place(&x);
        self.list.insert(i, x).map_err(|_| Full)
    }

    // The place of x: before the first record that it precedes.
    fn place(&self, x: &T) -> usize
        ensures within { result ≤ length (held self.now) }
        ensures spot { result ≡ unwrap_or (position (λ y. nat_lt (T.Ranked.order x.now) (T.Ranked.order y)) (held self.now)) (length (held self.now)) }
    {
        let list = self.as_slice();
        first_over(list, x).unwrap_or(list.len())
    }

    pub fn take_first(&mut self) -> Option<T>
        ensures answer { result ≡ slice_get (held self.old) 0 }
        ensures after { held self.new ≡ remove (held self.old) 0 }
    {
        self.list.remove(0)
    }

    // Takes the record at i, if there is one.
    pub fn remove(&mut self, i: usize) -> Option<T>
        ensures answer { result ≡ slice_get (held self.old) i }
        ensures after { held self.new ≡ remove (held self.old) i }
    {
        self.list.remove(i)
    }

    // Keeps the records that `keep` answers true for, in their order.
    pub fn retain<F: FnMut(&T) -> bool>(&mut self, keep: F)
        requires { F.IsAlwaysCallable keep }
        ensures filtered { IsFiltered (CalledAt F.FnMut) keep (held self.old) (held self.new) }
        ensures bound { length (held self.new) ≤ length (held self.old) }
    {
        self.list.retain(keep);
    }

    // Drops each record that s wants, and keeps the others in their order.
    pub fn drop_where<S: Select<T>>(&mut self, s: &S)
        ensures { held self.new ≡ unwanted (S.Select.wanted s.now) (held self.old) }
    {
        self.list.drop_where(s);
    }

    // No call breaks the order, and its first record has the least rank.
    pub fn order_is_kept()
        ensures { OrderLaws T.Ranked.order }
    {}
}
