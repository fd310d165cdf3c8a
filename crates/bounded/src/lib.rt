// A list of at most N records in a fixed array, without a heap.
#![tactic(auto)]

ghost use Rattle.std.specs.Prelude.{◌≡◌, ◌≤◌, length, ⊤};

mod edits;
mod methods;
mod select;
#[cfg(test)]
mod tests;

pub use select::Select;
use std::alloc::AllocError;

// There was no room for one more record.
#[derive(Clone, Copy, PartialEq, Eq, Debug)]
pub struct Full;

// Why a record was not inserted.
#[derive(Clone, Copy, PartialEq, Eq, Debug)]
pub enum InsertError {
    // There was no room for one more record.
    Full,
    // The place lies past the end of the list.
    PastEnd,
}

// The first `len` records of an array; the others are never read. A fixed array, as the library uses no heap.
// No `impl Model`: the view of a `Copy` type has to give its fields back, and the list has lost the free places.
pub struct Bounded<T: Copy, const N: usize> {
    items: [T; N],
    len: usize,
    ghost fits: { len ≤ N },
    ghost whole: { length items ≡ N },
}

// By hand, tried as `derive(Clone, Copy)`: that is refused for a struct with a type parameter and a ghost field.
impl<T: Copy, const N: usize> Clone for Bounded<T, N> {
    ghost is_clone = { λ x y. y ≡ x };

    ghost is_infallible = { λ _. ⊤ };

    fn clone(&self) -> Result<Bounded<T, N>, AllocError> {
        Ok(*self)
    }
}

impl<T: Copy, const N: usize> Copy for Bounded<T, N> {}

// Two lists are equal if their records are: the free places are not compared.
impl<T: Copy + PartialEq, const N: usize> PartialEq for Bounded<T, N> {
    ghost use Rattle.std.specs.Cmp.{on_per};
    ghost use Rattle.std.specs.Cmp.Lexicographic.{lists_per, pointwise};
    ghost use Rattle.bounded.specs.Held.{held};

    ghost eq = { λ a b. pointwise T.eq (held a) (held b) };

    ghost laws = { on_per held (lists_per T.laws) };

    fn eq(&self, other: &Self) -> bool {
        self.as_slice() == other.as_slice()
    }
}

impl<T: Copy + Eq, const N: usize> Eq for Bounded<T, N> {
    ghost use Rattle.std.specs.Cmp.{on_equiv};
    ghost use Rattle.std.specs.Cmp.Lexicographic.{lists_equiv};
    ghost use Rattle.bounded.specs.Held.{held};

    ghost laws = { on_equiv held (lists_equiv T.Eq.laws) };
}
