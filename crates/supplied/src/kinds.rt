// The kinds of actors, each with the state that it keeps.
pub mod count;
pub mod gate;
pub mod scale;
pub mod sort;
pub mod toggle;
