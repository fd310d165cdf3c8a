// How the lines of a script are printed.
use std::{fmt, str};

// The text of a line.
#[derive(Clone, Copy)]
pub struct Text<'a>(pub &'a [u8]);

// A longer text is cut.
const LONGEST: usize = 60;

impl fmt::Display for Text<'_> {
    fn fmt<W: fmt::Write>(&self, f: &mut fmt::Formatter<W>) -> fmt::Result {
        let front = &self.0[..self.0.len().min(LONGEST)];
        match str::from_utf8(front) {
            Ok(text) if !front.iter().any(u8::is_ascii_control) => write!(f, "{text}")?,
            _ => write_bytes(front, f)?,
        }
        if self.0.len() > LONGEST {
            write!(f, "..")?;
        }
        Ok(())
    }
}

// Each byte that is no printable character of ASCII as a question mark.
fn write_bytes<W: fmt::Write>(bytes: &[u8], f: &mut fmt::Formatter<W>) -> fmt::Result {
    for code in bytes {
        let shown = match code {
            b' '..=b'~' => char::from(*code),
            _ => '?',
        };
        write!(f, "{shown}")?;
    }
    Ok(())
}
