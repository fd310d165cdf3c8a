// What an actor does when it fires.
#[derive(Clone, Copy, PartialEq, Eq, Debug)]
pub enum Kind {
    Pass,
    Count,
    Gate,
    Toggle,
    Scale,
    Sort,
    Other,
}

// An actor: its kind, the kind's parameter, and the microseconds that it adds to a timestamp.
#[derive(Clone, Copy, PartialEq, Eq, Debug)]
pub struct Actor {
    pub kind: Kind,
    pub parameter: i32,
    pub delay: u32,
}

// Where a channel begins. The order of a project's channels is that of these cases and numbers: sensors come first.
#[derive(Clone, Copy, PartialEq, Eq, PartialOrd, Ord, Debug)]
pub enum Source {
    Sensor(u8),
    Outlet { actor: u8, outlet: u8 },
}

// Where a channel ends.
#[derive(Clone, Copy, PartialEq, Eq, Debug)]
pub enum Sink {
    Inlet { actor: u8, inlet: u8 },
    Actuator(u8),
}

#[derive(Clone, Copy, PartialEq, Eq, Debug)]
pub struct Channel {
    pub source: Source,
    pub sink: Sink,
}
