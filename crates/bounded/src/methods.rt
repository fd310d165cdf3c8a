ghost use Rattle.std.specs.Prelude.{◌≡◌, ◌≤◌, [], ◌∷◌, ◌++◌, length, is_ok, if◌then◌else◌, ◌==◌, nat_lt};
ghost use Rattle.std.specs.List.{slice_get};
ghost use Rattle.bounded.specs.Held.{final, front, held};

use super::{Bounded, Full};

impl<T: Copy, const N: usize> Bounded<T, N> {
    // An empty list: `filler` stands in its free places, and is never read.
    pub fn new(filler: T) -> Self
        ensures { held result ≡ [] }
    {
        Bounded {
            items: [filler; N],
            len: 0,
        }
    }

    pub fn len(&self) -> usize
        ensures count { result ≡ length (held self.now) }
        ensures fits { result ≤ N }
    {
        self.len // at most N, as the struct says
    }

    pub fn is_empty(&self) -> bool
        ensures { result ≡ (length (held self.now) == 0) }
    {
        self.len == 0
    }

    pub fn is_full(&self) -> bool
        ensures { result ≡ (length (held self.now) == N) }
    {
        self.len == N
    }

    pub fn as_slice(&self) -> &[T]
        ensures { result.now ≡ held self.now }
    {
        &self.items[..self.len]
    }

    pub fn get(&self, i: usize) -> Option<T>
        ensures { result ≡ slice_get (held self.now) i }
    {
        self.as_slice().get(i).copied()
    }

    pub fn last(&self) -> Option<T>
        ensures { result ≡ final (held self.now) }
    {
        self.as_slice().last().copied()
    }

    // Refused where the list is full, which then stays as it is.
    pub fn push(&mut self, x: T) -> Result<(), Full>
        ensures answer { is_ok result ≡ nat_lt (length (held self.old)) N }
        ensures after { held self.new ≡ (if is_ok result then held self.old ++ x ∷ [] else held self.old) }
    {
        if self.is_full() {
            return Err(Full);
        }
        self.items[self.len] = x;
        self.len += 1;
        Ok(())
    }

    // Takes the record that was pushed last.
    pub fn pop(&mut self) -> Option<T>
        ensures answer { result ≡ final (held self.old) }
        ensures after { held self.new ≡ front (held self.old) }
    {
        let last = self.last()?;
        self.len -= 1;
        Some(last)
    }

    pub fn clear(&mut self)
        ensures { held self.new ≡ [] }
    {
        self.len = 0;
    }
}
