// Drafts whose fields are in range, and their distances.
ghost use Rattle.image.specs.Drafts.{plan_of};
ghost use Rattle.line.specs.Rules.{Ranged};
ghost use Rattle.project.specs.Tables.{Small};
ghost use Rattle.project.specs.RecordsLemmas.{begins-prop, ends-prop};
ghost use Rattle.std.proofs.Props.{props};

use super::tables::Table;
use image::draft::Draft;
use paths::Span;

// A draft whose fields are in range.
#[derive(Clone, Copy)]
pub struct Records<'a> {
    pub draft: &'a Draft,
    ghost ranged: { Ranged (plan_of draft.now) } by { Prim.hlevel (props, begins-prop, ends-prop) },
}

// A draft with a table of sums of delays, none of them long.
#[derive(Drop)]
pub struct Distances<'a> {
    pub draft: &'a Draft,
    pub table: Table<Span>,
    ghost small: { Small table },
}
