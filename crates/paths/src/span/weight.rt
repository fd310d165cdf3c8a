ghost use Rattle.std.specs.Prelude.{◌≡◌, Some, None};
ghost use Rattle.paths.specs.Spans.{length_of, no_span, zero_span, shorter, after};
ghost use Rattle.std.proofs.Common.{arith, rules};
ghost use Rattle.paths.specs.SpansLemmas.{same_span};

use super::Span;
use crate::Weight;

impl Span {
    // No path.
    pub fn none() -> Span
        ensures { length_of result ≡ None }
    {
        Span { micros: u64::MAX }
    }

    // So many microseconds. No plainer as a `From<u32>`: the name tells the unit at each call.
    pub fn micros(count: u32) -> Span
        ensures { length_of result ≡ Some count }
    {
        Span {
            micros: u64::from(count),
        }
    }

    // The microseconds, or `None` for no path.
    pub fn length(self) -> Option<u64>
        ensures { result ≡ length_of self }
    {
        (self.micros < u64::MAX).then_some(self.micros)
    }
}

// The shorter of two paths; the sum of one and then another, or "no path" where that is too long.
impl Weight for Span {
    ghost none = { no_span };

    ghost empty = { zero_span };

    ghost choose = { shorter };

    ghost join = { after };

    ghost laws = { Prim.search (rules, same_span) };

    #[tactic(auto, using(crate::specs::SpansLemmas::same_span))]
    fn pick(self, other: Span) -> Span {
        Span {
            micros: self.micros.min(other.micros),
        }
    }

    #[tactic(auto, using(crate::specs::SpansLemmas::same_span))]
    fn follow(self, next: Span) -> Span {
        Span {
            micros: self.micros.saturating_add(next.micros),
        }
    }
}

#[cfg(test)]
mod tests {
    use super::*;

    #[test]
    fn too_long_is_no_path(rt: HostRuntime) {
        let longest = Span {
            micros: u64::MAX - 1,
        };
        assert_eq!(rt;
            longest.follow(Span::micros(0)).length(),
            Some(u64::MAX - 1)
        );
        assert_eq!(rt; longest.follow(Span::micros(1)).length(), None);
        assert_eq!(rt; longest.pick(Span::micros(2)).length(), Some(2));
        assert_eq!(rt; Span::none().pick(longest).length(), Some(u64::MAX - 1));
    }
}
