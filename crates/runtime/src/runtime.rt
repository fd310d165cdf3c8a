ghost use Rattle.std.specs.Prelude.{◌≡◌};

use super::state::Core;
use banks::bank::Bank;
use phase::Phase;
use std::marker::PhantomData;

mod calls;
mod finishing;
mod open;
pub mod phase;

// A runtime over its bank.
pub struct Inner<B: Bank> {
    pub(crate) core: Core,
    pub(crate) bank: B,
}

// A runtime in a phase, which its type says.
pub struct Runtime<B: Bank, S: Phase> {
    pub(crate) inner: Inner<B>,
    phase: PhantomData<S>,
    ghost taking: { inner.core.taking ≡ S.TAKING },
}

// A runtime that takes in events.
pub type OpenRuntime<B> = Runtime<B, phase::Open>;

// A runtime that takes in no more events, and works off those that it has.
pub type ClosedRuntime<B> = Runtime<B, phase::Closed>;
