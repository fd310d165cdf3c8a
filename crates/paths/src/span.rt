ghost use Rattle.std.specs.Prelude.{◌^◌, ◌<◌};

mod weight;

// A length of time along a path, in whole microseconds. The greatest value stands for "no path".
// A rule of the project: sums stop at the greatest value, and a table of fixed size has one u64 for each two places.
#[derive(Clone, Copy)]
pub struct Span {
    micros: u64,
    ghost fits: { micros < 2 ^ 64 },
}
