// Edits of a list at a place of the caller's choice.
ghost use Rattle.std.specs.Prelude.{◌≡◌, ◌≤◌, length, take, is_ok, if◌then◌else◌, nat_lt, slice_set};
ghost use Rattle.std.specs.Fn.{CalledAt};
ghost use Rattle.std.specs.List.{slice_get, insert, remove};
ghost use Rattle.std.specs.List.Retain.{IsFiltered};
ghost use Rattle.bounded.specs.Held.{held, insertion, unwanted};

use super::{Bounded, InsertError, Select};

impl<T: Copy, const N: usize> Bounded<T, N> {
    // Whether there is a record at i, which x then replaces. A bool, as there is one reason to say no.
    pub fn set(&mut self, i: usize, x: T) -> bool
        ensures answer { result ≡ nat_lt i (length (held self.old)) }
        ensures after { held self.new ≡ (if result then slice_set (held self.old) i x else held self.old) }
    {
        if i >= self.len {
            return false;
        }
        self.items[i] = x;
        true
    }

    // Puts x at i, and what stood there and behind it one place on.
    pub fn insert(&mut self, i: usize, x: T) -> Result<(), InsertError>
        ensures answer { result ≡ insertion (length (held self.old)) N i }
        ensures after { held self.new ≡ (if is_ok result then insert (held self.old) i x else held self.old) }
    {
        let n = self.len;
        if n == N {
            return Err(InsertError::Full);
        }
        if i > n {
            return Err(InsertError::PastEnd);
        }
        self.items.copy_within(i..n, i + 1);
        self.items[i] = x;
        self.len = n + 1;
        Ok(())
    }

    // Takes the record at i, if there is one, and moves those behind it one place up.
    pub fn remove(&mut self, i: usize) -> Option<T>
        ensures answer { result ≡ slice_get (held self.old) i }
        ensures after { held self.new ≡ remove (held self.old) i }
    {
        let gone = self.get(i)?;
        self.items.copy_within(i + 1..self.len, i);
        self.len -= 1;
        Some(gone)
    }

    // Keeps the records that `keep` answers true for, in their order.
    pub fn retain<F: FnMut(&T) -> bool>(&mut self, keep: F)
        requires { F.IsAlwaysCallable keep }
        ensures filtered { IsFiltered (CalledAt F.FnMut) keep (held self.old) (held self.new) }
        ensures bound { length (held self.new) ≤ length (held self.old) }
    {
        self.len = keep_in_front(&mut self.items[..self.len], keep);
    }

    // Drops each record that s wants, and keeps the others in their order.
    pub fn drop_where<S: Select<T>>(&mut self, s: &S)
        ensures { held self.new ≡ unwanted (S.Select.wanted s.now) (held self.old) }
    {
        self.retain(|x| !s.wants(x));
    }
}

// Moves the records that `keep` answers true for to the front, in their order, and counts them.
fn keep_in_front<T: Copy, F: FnMut(&T) -> bool>(items: &mut [T], mut keep: F) -> usize
    requires { F.IsAlwaysCallable keep }
    ensures filtered { IsFiltered (CalledAt F.FnMut) keep items.old (take result items.new) }
    ensures bound { result ≤ length items.old }
{
    // By index, as an iterator would hold the slice that is written: no other form is plainer.
    let mut kept = 0;
    for i in 0..items.len() {
        let x = items[i];
        if keep(&x) {
            items[kept] = x;
            kept += 1;
        }
    }
    kept
}
