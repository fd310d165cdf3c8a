// From bytes to records: head, counts and length, then the fields in the order of their places.
ghost use Rattle.std.specs.Prelude.{◌≡◌, ◌+◌, ◌*◌, ◌≤◌, length};
ghost use Rattle.std.specs.Result.{MatchResult};
ghost use Rattle.image.specs.Bytes.{between};
ghost use Rattle.image.specs.Parsing.{Parsed, Refused};
ghost use Rattle.image.specs.Reading.{Fronted, ReadOne, ReadAll};

use crate::counts::{Counts, HEAD};
use crate::draft::Draft;
use crate::head::{check_counts, check_head, check_length};
use crate::row::Row;
use bounded::Bounded;
use fault::{Fault, RecordsCause};
use line::parts::{Actor, Channel, Kind, Sink, Source};

// What stands in the free places of a draft, and is never read.
const NO_ACTOR: Actor = Actor {
    kind: Kind::Pass,
    parameter: 0,
    delay: 0,
};

const NO_CHANNEL: Channel = Channel {
    source: Source::Sensor(0),
    sink: Sink::Actuator(0),
};

// An image whose head, counts and length are right.
#[derive(Clone, Copy)]
struct Image<'a> {
    bytes: &'a [u8],
    counts: Counts,
    ghost front: { Fronted bytes.now counts },
}

impl<'a> Image<'a> {
    fn new(bytes: &'a [u8]) -> Result<Image<'a>, Fault>
        ensures { MatchResult result (λ image. image.bytes.now ≡ bytes.now) (Refused bytes.now) }
    {
        check_head(bytes)?;
        let counts = check_counts(bytes)?;
        check_length(bytes, counts)?;
        Ok(Image { bytes, counts })
    }

    // The record of the bytes at `place`, or the refusal of its lowest field out of range.
    fn row<R: Row>(&self, part: &[u8], place: usize) -> Result<R, Fault>
        requires room { place + R.WIDTH ≤ length self.now.bytes.now }
        requires part { part.now ≡ between place R.WIDTH self.now.bytes.now }
        ensures { ReadOne R.spelt R.WIDTH (R.fine self.now.counts) (R.bad self.now.counts) self.now.bytes.now place result }
    {
        R::read(part, self.counts).map_err(|bad| {
            Fault::Records(RecordsCause::Field, (place + bad.offset) as u64)
        })
    }

    // `many` records from `at` on, or the refusal of the lowest field out of range.
    fn rows<R: Row, const N: usize>(
        &self,
        at: usize,
        many: u8,
        filler: R,
    ) -> Result<Bounded<R, N>, Fault>
        requires few { many ≤ N }
        requires room { at + R.WIDTH * many ≤ length self.now.bytes.now }
        ensures { ReadAll R.spelt R.WIDTH (R.fine self.now.counts) (R.bad self.now.counts) self.now.bytes.now at many result }
    {
        let mut rows = Bounded::new(filler);
        let parts = self.bytes[at..].chunks_exact(R::WIDTH);
        for (i, part) in parts.take(usize::from(many)).enumerate() {
            let row = self.row(part, at + i * R::WIDTH)?;
            // There is room.
            let _ = rows.push(row);
        }
        Ok(rows)
    }

    fn draft(&self) -> Result<Draft, Fault>
        ensures { Parsed self.now.bytes.now result }
    {
        let counts = self.counts;
        let sensors = self.rows(HEAD, counts.sensors, 0)?;
        let actors = self.rows(counts.actors_at(), counts.actors, NO_ACTOR)?;
        let channels = self.rows(counts.channels_at(), counts.channels, NO_CHANNEL)?;
        Ok(Draft {
            sensors,
            actors,
            actuators: counts.actuators,
            channels,
        })
    }
}

// Reads an image, or gives the first refusal: by head, counts, length and fields, each at its lowest place.
pub fn parse(bytes: &[u8]) -> Result<Draft, Fault>
    ensures { Parsed bytes.now result }
{
    Image::new(bytes)?.draft()
}
