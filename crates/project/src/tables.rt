// Tables between 33 places, row by row: the 32 actors, and one place for all actuators.
ghost use Rattle.std.specs.Prelude.{◌≡◌, ℕ, ◌+◌, ◌*◌, ◌<◌, ◌≤◌, false, length, is_some, slice_index_or};
ghost use Rattle.std.specs.List.{slice_get};
ghost use Rattle.image.specs.Drafts.{plan_of};
ghost use Rattle.line.specs.Rules.{Proper, Ranged, Sized};
ghost use Rattle.line.specs.Plan.{delay};
ghost use Rattle.paths.specs.Least.{length_at};
ghost use Rattle.paths.specs.Paths.{at};
ghost use Rattle.paths.specs.Spans.{length_of, no_span};
ghost use Rattle.project.specs.Tables.{places, place_of, Adds, Laid, Far, Reach};

use super::records::{Distances, Records};
use image::draft::Draft;
use line::parts::{Channel, Sink, Source};
use paths::{Span, Weight, distances, reaches};

pub const PLACES: usize = 33;

pub const EXIT: u8 = 32;

// PLACES rows of PLACES cells.
pub const CELLS: usize = 1089;

pub type Table<T> = [T; CELLS];

fn place_of(sink: Sink) -> usize
    ensures { result ≡ place_of sink }
{
    match sink {
        Sink::Inlet { actor, inlet: _ } => usize::from(actor),
        Sink::Actuator(_) => usize::from(EXIT),
    }
}

// The delay of an actor's outlet; 0 for an actor that is not in the draft.
pub fn delay_at(draft: &Draft, actor: usize, _outlet: usize) -> u32
    ensures { result ≡ delay (plan_of draft.now) actor _outlet }
{
    draft.actors.get(actor).map_or(0, |found| found.delay)
}

// Lays the edge of one channel into the table, beside those that are there.
fn lay(table: &mut Table<Span>, draft: &Draft, channel: Channel)
    requires proper { Proper (plan_of draft.now) channel }
    ensures { Adds (plan_of draft.now) channel table.old table.new }
{
    if let Source::Outlet { actor, outlet } = channel.source {
        let delay = delay_at(draft, usize::from(actor), usize::from(outlet));
        let place = usize::from(actor) * PLACES + place_of(channel.sink);
        table[place] = table[place].pick(Span::micros(delay));
    }
}

// Where there is an edge.
fn links(edges: &Table<Span>) -> Table<bool>
    ensures { (k : ℕ) → k < CELLS → slice_index_or result k false ≡ is_some (length_of (slice_index_or edges.now k no_span)) }
{
    edges.map(|span| span.length().is_some())
}

impl<'a> Records<'a> {
    // The edges that the channels draw.
    fn edges(&self) -> Table<Span>
        ensures { Laid (plan_of self.now.draft.now) (plan_of self.now.draft.now).channels result }
    {
        let mut table = [Span::none(); CELLS];
        let channels = self.draft.channels.as_slice();
        for c in channels {
            lay(&mut table, self.draft, *c);
        }
        table
    }

    // The least sums of delays between actors, and from actors to an actuator.
    pub fn distances(&self) -> Distances<'a>
        ensures draft { result.draft ≡ self.now.draft }
        ensures far { Far (plan_of self.now.draft.now) result.table }
    {
        let mut table = self.edges();
        // The table is square.
        let _ = distances(&mut table, PLACES);
        Distances {
            draft: self.draft,
            table,
        }
    }

    // Which actors reach which, and which reach an actuator.
    pub fn reach(&self) -> Table<bool>
        ensures { Reach (plan_of self.now.draft.now) result }
    {
        let mut table = links(&self.edges());
        // The table is square.
        let _ = reaches(&mut table, PLACES);
        table
    }
}

// The cell of the table from b to a, if it has one.
fn cell<T: Copy>(table: &[T], b: u8, a: u8) -> Option<T>
    ensures { result ≡ slice_get table.now (b * places + a) }
{
    table.get(usize::from(b) * PLACES + usize::from(a)).copied()
}

// Whether the table leads from b to a.
pub fn leads(table: &Table<bool>, b: u8, a: u8) -> bool
    ensures { result ≡ at false places table.now b a }
{
    cell(table, b, a).unwrap_or(false)
}

// The length from b to a, if the table has one.
pub fn span_between(table: &Table<Span>, b: u8, a: u8) -> Option<u64>
    ensures { result ≡ length_at places table.now b a }
{
    cell(table, b, a)?.length()
}
