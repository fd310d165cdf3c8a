// Calls that a text spells.
ghost use Rattle.std.specs.Prelude.{codes};
ghost use Rattle.script.specs.Parts.{HasArguments, Reads, WithArguments};
ghost use Rattle.script.specs.Spelling.{Spells};

use crate::numbers::{number, signed};
use crate::words::{split, split_word};
use runs::records::Call;

// The call that the text spells.
pub(crate) fn read_call(text: &[u8]) -> Option<Call>
    ensures { Reads (Spells text.now) result }
{
    match split_word(text) {
        Some((word, arguments)) => call_with_arguments(word, arguments),
        None => bare_call(text),
    }
}

// The call that is a word alone.
fn bare_call(text: &[u8]) -> Option<Call>
    ensures { Reads (λ c. Spells text.now c × (HasArguments c → ⊥)) result }
{
    match text {
        b"pick" => Some(Call::Pick),
        b"finish" => Some(Call::Finish),
        b"deliver" => Some(Call::Deliver),
        b"report" => Some(Call::Report),
        b"close" => Some(Call::Close),
        _ => None,
    }
}

// The call that is a word with arguments behind it.
fn call_with_arguments(word: &[u8], arguments: &[u8]) -> Option<Call>
    ensures { Reads (WithArguments word.now arguments.now) result }
{
    match word {
        b"advance" => number(arguments).map(Call::Advance),
        b"start" => number(arguments).map(Call::Start),
        b"arrive" => arrival(arguments),
        _ => None,
    }
}

// An arrival: its sensor, timestamp and value are the arguments.
fn arrival(arguments: &[u8]) -> Option<Call>
    ensures { Reads (WithArguments (codes "arrive") arguments.now) result }
{
    let (sensor, rest) = split(arguments)?;
    let (timestamp, value) = split(rest)?;
    Some(Call::Arrive {
        sensor: number(sensor)?,
        timestamp: number(timestamp)?,
        value: signed(value)?,
    })
}
