ghost use Rattle.banks.specs.Silence.{silent};

use super::bank::Bank;

// A bank whose actors remember nothing and never give a value.
#[derive(Drop)]
pub struct Silent;

impl Bank for Silent {
    ghost means = { λ _. silent };

    fn react(
        &mut self,
        _actor: u64,
        _timestamp: u64,
        _inlets: [Option<i32>; 4],
    ) -> [Option<i32>; 4] {
        [None; 4]
    }
}
