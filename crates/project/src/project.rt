ghost use Rattle.line.specs.Times.{Sound};
ghost use Rattle.project.specs.Lines.{line_of};

use crate::tables::Table;
use image::draft::Draft;
use paths::Span;

mod fresh;
mod lookups;
mod making;
mod reading;
mod writing;

pub use writing::LONGEST;

// A line that keeps every rule, with its distances, deadlines and waits.
#[derive(Clone, Copy)]
pub struct Project {
    draft: Draft,
    // Fixed tables beside the draft: the library uses no heap.
    far: Table<Span>,
    waits: [i64; 32],
    ghost sound: { ∥ Sound (line_of draft far waits) ∥₁ },
}
