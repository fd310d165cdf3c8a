// The front of an image: the mark LIN, the version, the counts, and the length that these ask for.
ghost use Rattle.std.specs.Prelude.{◌≡◌, ◌==◌, ◌||◌, ◌≤◌, length, position, not, nat_lt, IfOk, OnOk};
ghost use Rattle.std.specs.List.{zip};
ghost use Rattle.fault.specs.declared.BytesCause.TheVariants.{Head, Count, Length};
ghost use Rattle.fault.specs.declared.Fault;
ghost use Rattle.image.specs.Drafts.{counts_at};
ghost use Rattle.image.specs.Encoding.{mark};
ghost use Rattle.image.specs.Reading.{Checked};
ghost use Rattle.image.specs.Refusals.{mosts, Unmarked, Uncounted, Unfit};

use crate::counts::{Counts, HEAD};
use crate::draft::{MOST_ACTORS, MOST_ACTUATORS, MOST_CHANNELS, MOST_SENSORS};
use fault::{BytesCause, Fault};

// Mark and version.
pub(crate) const MARK: [u8; 5] = [b'L', b'I', b'N', 1, 0];

// The greatest counts of sensors, actors, actuators and channels; `as`, since a constant calls no `try_from`.
const MOST: [u8; 4] = [
    MOST_SENSORS as u8,
    MOST_ACTORS as u8,
    MOST_ACTUATORS,
    MOST_CHANNELS as u8,
];

// The first place of the mark at which the bytes differ from it.
fn first_difference(bytes: &[u8]) -> Option<usize>
    ensures { result ≡ position (λ p. not (p.0 == p.1)) (zip bytes.now mark) }
{
    bytes
        .iter()
        .zip(&MARK)
        .position(|(byte, mark)| byte != mark)
}

// A place goes into a refusal by a cast: u64 has no `From<usize>`.
pub(crate) fn check_head(bytes: &[u8]) -> Result<(), Fault>
    ensures checked { Checked (λ k. Fault.Bytes Head k) (Unmarked bytes.now) result }
    ensures long { OnOk result (9 ≤ length bytes.now) }
{
    match first_difference(bytes) {
        Some(at) => Err(Fault::Bytes(BytesCause::Head, at as u64)),
        None if bytes.len() < HEAD => Err(Fault::Bytes(BytesCause::Head, bytes.len() as u64)),
        None => Ok(()),
    }
}

// Which of the counts is the first out of its range.
fn first_bad_count(counts: &[u8]) -> Option<usize>
    ensures { result ≡ position (λ p. p.0 == 0 || nat_lt p.1 p.0) (zip counts.now mosts) }
{
    counts
        .iter()
        .zip(&MOST)
        .position(|(count, most)| *count == 0 || count > most)
}

pub(crate) fn check_counts(bytes: &[u8]) -> Result<Counts, Fault>
    requires { 9 ≤ length bytes.now }
    ensures checked { Checked (λ k. Fault.Bytes Count k) (Uncounted bytes.now) result }
    ensures counts { IfOk result (λ n. n ≡ counts_at bytes.now) }
{
    match first_bad_count(&bytes[MARK.len()..HEAD]) {
        Some(i) => Err(Fault::Bytes(BytesCause::Count, (MARK.len() + i) as u64)),
        None => Ok(Counts {
            sensors: bytes[5],
            actors: bytes[6],
            actuators: bytes[7],
            channels: bytes[8],
        }),
    }
}

pub(crate) fn check_length(bytes: &[u8], counts: Counts) -> Result<(), Fault>
    requires { counts ≡ counts_at bytes.now }
    ensures { Checked (λ k. Fault.Bytes Length k) (Unfit bytes.now) result }
{
    let asked = counts.size();
    if bytes.len() != asked {
        return Err(Fault::Bytes(BytesCause::Length, asked as u64));
    }
    Ok(())
}
