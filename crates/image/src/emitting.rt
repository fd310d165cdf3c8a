// From records to bytes.
ghost use Rattle.std.specs.Prelude.{◌≡◌, ◌≤◌, length};
ghost use Rattle.image.specs.Bytes.{put};
ghost use Rattle.image.specs.Drafts.{plan_of, counts_of};
ghost use Rattle.image.specs.Emission.{Fitted, answer, written};
ghost use Rattle.image.specs.Encoding.{image};

use crate::counts::{Counts, HEAD};
use crate::draft::Draft;
use crate::head::MARK;
use crate::row::write_all;
use crate::words::put_bytes;
use fault::{Fault, RunCause};

impl From<&Draft> for Counts {
    ghost from_gives = { λ draft counts. counts ≡ counts_of (plan_of draft.now) };

    fn from(draft: &Draft) -> Counts {
        // `as`: a `try_from` would never fail here, and is no plainer
        Counts {
            sensors: draft.sensors.len() as u8,
            actors: draft.actors.len() as u8,
            actuators: draft.actuators,
            channels: draft.channels.len() as u8,
        }
    }
}

// The length asked for, where there is room for it.
fn fit(size: usize, room: usize) -> Result<usize, Fault>
    ensures { Fitted size room result }
{
    if room < size {
        return Err(Fault::Run(RunCause::Full, size as u64));
    }
    Ok(size)
}

fn write_image(draft: &Draft, buffer: &mut [u8])
    requires { length (image (plan_of draft.now)) ≤ length buffer.old }
    ensures { buffer.new ≡ put buffer.old 0 (image (plan_of draft.now)) }
{
    let counts = Counts::from(draft);
    put_bytes(buffer, 0, &MARK);
    put_bytes(buffer, MARK.len(), &counts.spell());
    write_all(buffer, HEAD, draft.sensors.as_slice());
    write_all(buffer, counts.actors_at(), draft.actors.as_slice());
    write_all(buffer, counts.channels_at(), draft.channels.as_slice());
}

// Writes the draft's image to the front of the buffer and gives its length; a shorter buffer is left as it is.
pub fn emit(draft: &Draft, buffer: &mut [u8]) -> Result<usize, Fault>
    ensures answer { result ≡ answer (plan_of draft.now) buffer.old }
    ensures after { buffer.new ≡ written (plan_of draft.now) buffer.old }
{
    let size = fit(Counts::from(draft).size(), buffer.len())?;
    write_image(draft, buffer);
    Ok(size)
}
