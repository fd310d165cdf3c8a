// The waits of actors.
ghost use Rattle.std.specs.Prelude.{◌≡◌, ℕ, ◌<◌, ◌≤◌, length, pos, slice_index_or};
ghost use Rattle.image.specs.Drafts.{plan_of};
ghost use Rattle.line.specs.Plan.{lateness};
ghost use Rattle.line.specs.Rules.{Proper, Ranged};
ghost use Rattle.project.specs.Waits.{slack_of, Asks, Greatest, Awaits};

use super::records::Distances;
use super::tables::span_between;
use image::draft::Draft;
use line::parts::{Channel, Sink, Source};
use std::array;

// A sensor's lateness; 0 for a sensor that is not in the draft.
pub fn lateness_of(draft: &Draft, sensor: usize) -> u32
    ensures { result ≡ lateness (plan_of draft.now) sensor }
{
    draft.sensors.get(sensor).unwrap_or(0)
}

impl Distances<'_> {
    // What a channel asks of an actor: the sensor's lateness less the distance from there.
    fn slack(&self, actor: u8, channel: Channel) -> Option<i64>
        requires { actor < 32 }
        ensures { result ≡ slack_of (plan_of self.now.draft.now) self.now.table actor channel.source channel.sink }
    {
        let (
            Source::Sensor(sensor),
            Sink::Inlet {
                actor: fed,
                inlet: _,
            },
        ) = (channel.source, channel.sink)
        else {
            return None;
        };
        let late = i64::from(lateness_of(self.draft, usize::from(sensor)));
        if fed == actor {
            return Some(late);
        }
        span_between(&self.table, fed, actor).map(|distance| late - distance as i64)
    }

    // The greatest that the channels of sensors ask of an actor.
    fn wait_of(&self, actor: u8) -> Option<i64>
        requires { actor < 32 }
        ensures { Greatest (Asks (plan_of self.now.draft.now) self.now.table actor (plan_of self.now.draft.now).channels) result }
    {
        let channels = self.draft.channels.as_slice();
        channels.iter().filter_map(|c| self.slack(actor, *c)).max()
    }

    // The waits of all actors, by number; 0 where no sensor comes to one.
    pub fn waits(&self) -> [i64; 32]
        ensures { (a : ℕ) → a < 32 → Awaits (plan_of self.now.draft.now) self.now.table a (slice_index_or result a (pos 0)) }
    {
        array::from_fn(|actor| self.wait_of(actor as u8).unwrap_or(0))
    }
}
