ghost use Rattle.std.specs.Prelude.{◌≡◌, []};
ghost use Rattle.supplied.specs.Kinds.{inlet, leaves, sorted};

// The value from which on inlet 0 goes to outlet 1.
#[derive(Clone, Copy)]
pub struct Sort {
    parameter: i32,
}

impl Sort {
    pub fn new(parameter: i32) -> Sort
        ensures { result.parameter ≡ parameter }
    {
        Sort { parameter }
    }

    pub fn react(self, inlets: [Option<i32>; 4]) -> [Option<i32>; 4]
        ensures { leaves [] result ≡ sorted self.parameter [] (inlet 0 inlets) }
    {
        match inlets[0] {
            Some(value) if value < self.parameter => [Some(value), None, None, None],
            other => [None, other, None, None],
        }
    }
}
