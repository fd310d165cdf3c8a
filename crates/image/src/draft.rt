// A project as its records say, before the rules between them are checked.
use bounded::Bounded;
use line::parts::{Actor, Channel};

pub const MOST_SENSORS: usize = 16;

pub const MOST_ACTORS: usize = 32;

pub const MOST_ACTUATORS: u8 = 16;

pub const MOST_CHANNELS: usize = 96;

// Sensors by their lateness; actors and channels, each numbered from 0.
#[derive(Clone, Copy, PartialEq, Eq)]
pub struct Draft {
    pub sensors: Bounded<u32, MOST_SENSORS>,
    pub actors: Bounded<Actor, MOST_ACTORS>,
    pub actuators: u8,
    pub channels: Bounded<Channel, MOST_CHANNELS>,
}
