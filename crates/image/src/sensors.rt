// Sensors as records of four bytes: the lateness alone.
ghost use Rattle.std.specs.Prelude.{◌≤◌};
ghost use Rattle.line.specs.Rules.{longest};
ghost use Rattle.image.specs.Encoding.{sensor_bytes};
ghost use Rattle.image.specs.Fields.{BadSensorField};
ghost use Rattle.std.proofs.Common.{rules};

use crate::counts::{Counts, SENSOR_WIDTH};
use crate::row::{FieldError, Row};
use crate::words::{get_u32, put_u32};

// The longest lateness and the longest delay, in microseconds.
pub(crate) const LONGEST: u32 = 1_000_000_000;

impl Row for u32 {
    ghost spelt = { sensor_bytes };

    ghost WIDTH = { 4 };

    ghost fine = { λ _ l. l ≤ longest };

    ghost bad = { λ _. BadSensorField };

    ghost even = { Prim.search rules };

    ghost some = { Prim.search rules };

    const WIDTH: usize = SENSOR_WIDTH;

    fn write(self, bytes: &mut [u8], at: usize) {
        put_u32(bytes, at, self)
    }

    fn read(bytes: &[u8], _counts: Counts) -> Result<u32, FieldError> {
        match get_u32(bytes, 0) {
            lateness if lateness > LONGEST => Err(FieldError { offset: 0 }),
            lateness => Ok(lateness),
        }
    }
}
