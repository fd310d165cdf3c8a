// The kinds as numbers of one byte.
ghost use Rattle.std.specs.Prelude.{◌≡◌, Some};
ghost use Rattle.line.specs.Numbers.{Decodes, kind_number, unknown_text};

use crate::parts::Kind;
use std::error::Error;
use std::fmt;

// A number that no kind has.
#[derive(Clone, Copy, PartialEq, Eq, Debug)]
pub struct UnknownKind(pub u8);

impl TryFrom<u8> for Kind {
    type Error = UnknownKind;

    ghost try_from_gives = { Decodes };

    fn try_from(number: u8) -> Result<Kind, UnknownKind> {
        match number {
            0 => Ok(Kind::Pass),
            1 => Ok(Kind::Count),
            2 => Ok(Kind::Gate),
            3 => Ok(Kind::Toggle),
            4 => Ok(Kind::Scale),
            5 => Ok(Kind::Sort),
            6 => Ok(Kind::Other),
            _ => Err(UnknownKind(number)),
        }
    }
}

impl From<Kind> for u8 {
    ghost from_gives = { λ kind number. number ≡ kind_number kind };

    fn from(kind: Kind) -> u8 {
        kind as u8 // by the order of the variants
    }
}

impl fmt::Display for UnknownKind {
    ghost output = { λ e. Some (unknown_text e) };

    fn fmt<W: fmt::Write>(&self, f: &mut fmt::Formatter<W>) -> fmt::Result {
        write!(f, "no kind of actor has the number {}", self.0)
    }
}

impl Error for UnknownKind {}
