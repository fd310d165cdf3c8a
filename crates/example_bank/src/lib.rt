// A bank of one's own, from the rule to the proof: actors that add up what comes in.
#![tactic(auto)]

ghost use Rattle.std.specs.Prelude.{◌≡◌, replicate, pos};
ghost use Rattle.example_bank.specs.Totals.{leaves, row_of, summed, totals, zero_total};

use banks::bank::Bank;

// What inlet 0 of an actor has brought so far, held within 32 bits.
#[derive(Clone, Copy)]
pub struct Total {
    sum: i32,
}

impl Total {
    fn add(&mut self, value: Option<i32>) -> [Option<i32>; 4]
        ensures { leaves (row_of self.new) result ≡ summed (row_of self.old) value }
    {
        match value {
            Some(value) => {
                self.sum = self.sum.saturating_add(value);
                [Some(self.sum), None, None, None]
            }
            None => [None; 4],
        }
    }
}

// Eight actors with a total each.
#[derive(Drop)]
pub struct Totals {
    totals: [Total; 8],
}

impl Totals {
    pub fn new() -> Totals
        ensures { result.totals ≡ replicate 8 zero_total }
    {
        Totals {
            totals: [Total { sum: 0 }; 8],
        }
    }
}

impl Bank for Totals {
    // what the bank means, in terms of its fields
    ghost means = { λ b. totals b.totals };

    fn react(&mut self, actor: u64, _timestamp: u64, inlets: [Option<i32>; 4]) -> [Option<i32>; 4] {
        if actor < 8 {
            self.totals[actor as usize].add(inlets[0])
        } else {
            [None; 4]
        }
    }
}
