// Actors as records of nine bytes: kind, parameter and delay.
ghost use Rattle.line.specs.Rules.{Possible};
ghost use Rattle.image.specs.Encoding.{actor_bytes};
ghost use Rattle.image.specs.Fields.{ActorOf};
ghost use Rattle.image.specs.Refusals.{BadActorField};
ghost use Rattle.std.proofs.Common.{rules};

use crate::counts::{ACTOR_WIDTH, Counts};
use crate::row::{FieldError, Row};
use crate::sensors::LONGEST;
use crate::words::{get_i32, get_u32, put_i32, put_u32};
use line::parts::{Actor, Kind};

// The kinds 0 to 3 have no parameter: theirs is 0.
fn actor_of(number: u8, parameter: i32, delay: u32) -> Result<Actor, FieldError>
    ensures { ActorOf number parameter delay result }
{
    let kind = Kind::try_from(number).map_err(|_| FieldError { offset: 0 })?;
    // By number: record checks are ranges.
    match (number, parameter, delay) {
        (0..=3, p, _) if p != 0 => Err(FieldError { offset: 1 }),
        (_, _, d) if d > LONGEST => Err(FieldError { offset: 5 }),
        _ => Ok(Actor {
            kind,
            parameter,
            delay,
        }),
    }
}

impl Row for Actor {
    ghost spelt = { actor_bytes };

    ghost WIDTH = { 9 };

    ghost fine = { λ _. Possible };

    ghost bad = { λ _ bytes. BadActorField bytes 0 };

    ghost even = { Prim.search rules };

    ghost some = { Prim.search rules };

    const WIDTH: usize = ACTOR_WIDTH;

    fn write(self, bytes: &mut [u8], at: usize) {
        bytes[at] = u8::from(self.kind);
        put_i32(bytes, at + 1, self.parameter);
        put_u32(bytes, at + 5, self.delay);
    }

    fn read(bytes: &[u8], _counts: Counts) -> Result<Actor, FieldError> {
        actor_of(bytes[0], get_i32(bytes, 1), get_u32(bytes, 5))
    }
}
