ghost use Rattle.std.specs.Prelude.{Bool, true, false};

// Where a runtime is between its open and its end.
pub trait Phase {
    // Whether it takes in events.
    const TAKING: bool;

    ghost TAKING: { Bool };
}

// Events come in.
pub struct Open;

impl Phase for Open {
    const TAKING: bool = true;

    ghost TAKING = { true };
}

// No more events come in; those that wait are worked off.
pub struct Closed;

impl Phase for Closed {
    const TAKING: bool = false;

    ghost TAKING = { false };
}
