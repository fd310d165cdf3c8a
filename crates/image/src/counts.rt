// How many records of each sort an image has.
ghost use Rattle.std.specs.Prelude.{◌≡◌, ◌+◌, ◌*◌, [], ◌∷◌};
ghost use Rattle.image.specs.Encoding.{size};

// How many bytes stand before the records, and how many each record has.
pub(crate) const HEAD: usize = 9;

pub(crate) const SENSOR_WIDTH: usize = 4;

pub(crate) const ACTOR_WIDTH: usize = 9;

pub(crate) const CHANNEL_WIDTH: usize = 6;

#[derive(Clone, Copy, PartialEq, Eq, Debug)]
pub(crate) struct Counts {
    pub sensors: u8,
    pub actors: u8,
    pub actuators: u8,
    pub channels: u8,
}

impl Counts {
    // Where the actors begin, where the channels do, and where the image ends.
    pub(crate) fn actors_at(self) -> usize
        ensures { result ≡ 9 + 4 * self.sensors }
    {
        HEAD + SENSOR_WIDTH * usize::from(self.sensors)
    }

    pub(crate) fn channels_at(self) -> usize
        ensures { result ≡ 9 + 4 * self.sensors + 9 * self.actors }
    {
        self.actors_at() + ACTOR_WIDTH * usize::from(self.actors)
    }

    pub(crate) fn size(self) -> usize
        ensures { result ≡ size self.sensors self.actors self.channels }
    {
        self.channels_at() + CHANNEL_WIDTH * usize::from(self.channels)
    }

    pub(crate) fn spell(self) -> [u8; 4]
        ensures { result ≡ self.sensors ∷ self.actors ∷ self.actuators ∷ self.channels ∷ [] }
    {
        [self.sensors, self.actors, self.actuators, self.channels]
    }
}
