ghost use Rattle.std.specs.Prelude.{◌≡◌};
ghost use Rattle.banks.specs.Pairing.{paired};

use super::bank::Bank;

// Two banks as one: actor numbers below the split go to the first, and the others to the second, less the split.
#[derive(Drop)]
pub struct Pair<X: Bank, Y: Bank> {
    split: u64,
    first: X,
    second: Y,
}

impl<X: Bank, Y: Bank> Pair<X, Y> {
    pub fn new(split: u64, first: X, second: Y) -> Pair<X, Y>
        ensures { (result.split ≡ split) × (result.first ≡ first) × (result.second ≡ second) }
    {
        Pair {
            split,
            first,
            second,
        }
    }

    // The two banks, as they are by now.
    pub fn into_parts(self) -> (X, Y)
        ensures { (result.0 ≡ self.first) × (result.1 ≡ self.second) }
    {
        let Pair {
            split: _,
            first,
            second,
        } = self;
        (first, second)
    }
}

impl<X: Bank, Y: Bank> Bank for Pair<X, Y> {
    ghost means = { λ p. paired p.split (X.Bank.means p.first) (Y.Bank.means p.second) };

    fn react(&mut self, actor: u64, timestamp: u64, inlets: [Option<i32>; 4]) -> [Option<i32>; 4] {
        if actor < self.split {
            self.first.react(actor, timestamp, inlets)
        } else {
            self.second.react(actor - self.split, timestamp, inlets)
        }
    }
}
