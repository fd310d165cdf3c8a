ghost use Rattle.std.specs.Prelude.{◌≡◌};
ghost use Rattle.supplied.specs.Kinds.{gated, inlet, leaves};
ghost use Rattle.supplied.specs.States.{gate_row};

// Whether inlet 0 is let through.
#[derive(Clone, Copy)]
pub enum Gate {
    Shut,
    Open,
}

impl Gate {
    // Inlet 1 moves the gate before inlet 0 comes to it.
    pub fn react(&mut self, inlets: [Option<i32>; 4]) -> [Option<i32>; 4]
        ensures { leaves (gate_row self.new) result ≡ gated (gate_row self.old) (inlet 0 inlets) (inlet 1 inlets) }
    {
        match (*self, inlets[0], inlets[1]) {
            (_, _, Some(0)) => {
                *self = Gate::Shut;
                [None; 4]
            }
            (_, value, Some(_)) => {
                *self = Gate::Open;
                [value; 4]
            }
            (Gate::Open, value, None) => [value; 4],
            (Gate::Shut, _, None) => [None; 4],
        }
    }
}
