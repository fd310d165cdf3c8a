// One closure over all paths of a graph, for every kind of weight with two lawful operations.
#![tactic(auto)]

ghost use Rattle.std.specs.Prelude.{◌≡◌, ◌+◌, ◌*◌, ◌^◌, ◌<◌, true, false, ◌&&◌, ◌||◌, length, is_ok, Decides, MatchResult};
ghost use Rattle.paths.specs.Laws.{Laws};
ghost use Rattle.paths.specs.Paths.{Closure, relaxed};
ghost use Rattle.paths.specs.Least.{Distances, Reached};
ghost use Rattle.std.proofs.Common.{rules};

mod span;

pub use span::Span;

// The weight of a path: how two paths compare, and how one follows another.
pub trait Weight: Copy {
    // no path at all
    ghost none: { Self };

    // the path of no edges
    ghost empty: { Self };

    // the better of two paths between the same places
    ghost choose: { Self → Self → Self };

    // one path and then another
    ghost join: { Self → Self → Self };

    fn pick(self, other: Self) -> Self
        ensures { result ≡ choose self other };

    fn follow(self, next: Self) -> Self
        ensures { result ≡ join self next };

    ghost laws: { Laws none empty choose join };
}

// Whether there is a path.
impl Weight for bool {
    ghost none = { false };

    ghost empty = { true };

    ghost choose = { ◌||◌ };

    ghost join = { ◌&&◌ };

    ghost laws = { Prim.search rules };

    fn pick(self, other: bool) -> bool {
        self | other
    }

    fn follow(self, next: bool) -> bool {
        self & next
    }
}

// The table's length is not the square of the number of places.
#[derive(Clone, Copy, Debug, PartialEq, Eq)]
pub struct NotSquare;

// A square table of weights, row by row.
#[derive(Drop)]
struct Square<'a, W> {
    cells: &'a mut [W],
    places: usize,
    ghost square: { length cells.now ≡ places * places },
}

impl<'a, W: Weight> Square<'a, W> {
    // Where row i, column j stands.
    fn place(&self, i: usize, j: usize) -> usize
        requires row { i < self.now.places }
        requires column { j < self.now.places }
        ensures is { result ≡ i * self.now.places + j }
        ensures within { result < length self.now.cells.now }
    {
        i * self.places + j
    }

    // Offers the way from i to j the one through k.
    fn relax(&mut self, k: usize, i: usize, j: usize)
        requires through { k < self.old.places }
        requires row { i < self.old.places }
        requires column { j < self.old.places }
        ensures same_cells { self.new.cells.ghost_name ≡ self.old.cells.ghost_name }
        ensures same_places { self.new.places ≡ self.old.places }
        ensures offered { self.new.cells.now ≡ relaxed W.none W.choose W.join self.old.places k i j self.old.cells.now }
    {
        let through = self.cells[self.place(i, k)].follow(self.cells[self.place(k, j)]);
        let here = self.place(i, j);
        self.cells[here] = self.cells[here].pick(through);
    }

    // Lets in one place after another as an inner place of paths.
    // Numbers are plainer here than iterators over rows: row i is written while row k is read, and both may be one row.
    fn close(&mut self)
        ensures same_cells { self.new.cells.ghost_name ≡ self.old.cells.ghost_name }
        ensures closed { Closure W.none W.choose W.join self.old.places self.old.cells.now self.new.cells.now }
    {
        let n = self.places;
        for k in 0..n {
            for i in 0..n {
                for j in 0..n {
                    self.relax(k, i, j);
                }
            }
        }
    }
}

// Turns a table of edges, row by row, into the weights of all paths of one or more edges.
pub fn close<W: Weight>(table: &mut [W], n: usize) -> Result<(), NotSquare>
    ensures square { Decides (is_ok result) (length table.old ≡ n * n) }
    ensures closed { MatchResult result
        (λ _. Closure W.none W.choose W.join n table.old table.new)
        (λ _. table.new ≡ table.old) }
{
    if n.checked_mul(n) != Some(table.len()) {
        return Err(NotSquare);
    }
    Square {
        cells: table,
        places: n,
    }
    .close();
    Ok(())
}

// Turns a table of edge lengths into the least sums over all paths.
#[tactic(auto, using(crate::proofs::Least::distances))]
pub fn distances(table: &mut [Span], n: usize) -> Result<(), NotSquare>
    ensures square { Decides (is_ok result) (length table.old ≡ n * n) }
    ensures closed { MatchResult result
        (λ _. Distances n table.old table.new)
        (λ _. table.new ≡ table.old) }
{
    close::<Span>(table, n)
}

// Turns a table of edges into the table of what reaches what.
#[tactic(auto, using(crate::proofs::Least::reached))]
pub fn reaches(table: &mut [bool], n: usize) -> Result<(), NotSquare>
    ensures square { Decides (is_ok result) (length table.old ≡ n * n) }
    ensures closed { MatchResult result
        (λ _. Reached n table.old table.new)
        (λ _. table.new ≡ table.old) }
{
    close::<bool>(table, n)
}

#[cfg(test)]
mod tests {
    use super::*;
    use std::test::Fail;

    // From 0 to 1, on to 2 and there in a circle, and a longer way from 0 to 2; nothing leads back.
    #[test]
    fn shortest_ways(rt: HostRuntime) -> Result<(), Fail> {
        let no = Span::none();
        let mut table = [
            no,
            Span::micros(5),
            Span::micros(20),
            no,
            no,
            Span::micros(7),
            no,
            no,
            Span::micros(3),
        ];
        distances(&mut table, 3)?;
        let expected = [
            None,
            Some(5),
            Some(12),
            None,
            None,
            Some(7),
            None,
            None,
            Some(3),
        ];
        for (span, length) in table.iter().zip(expected.iter()) {
            assert_eq!(rt; span.length(), *length);
        }
        Ok(())
    }

    // The same graph without the longer way.
    #[test]
    fn what_reaches_what(rt: HostRuntime) -> Result<(), Fail> {
        let mut table = [false, true, false, false, false, true, false, false, true];
        reaches(&mut table, 3)?;
        assert_eq!(rt;
            table,
            [false, true, true, false, false, true, false, false, true]
        );
        Ok(())
    }

    #[test]
    fn refuses_what_is_not_square(rt: HostRuntime) {
        for n in [0, 1, 2, usize::MAX] {
            let mut table = [true, false, true];
            assert_eq!(rt; close(&mut table, n), Err(NotSquare));
            assert_eq!(rt; table, [true, false, true]);
        }
    }
}
