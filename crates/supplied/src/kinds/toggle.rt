ghost use Rattle.std.specs.Prelude.{◌≡◌};
ghost use Rattle.supplied.specs.Kinds.{inlet, leaves, toggled};
ghost use Rattle.supplied.specs.States.{toggle_row};

// Off gives 0, and on gives 1.
#[derive(Clone, Copy)]
pub enum Toggle {
    Off,
    On,
}

impl Toggle {
    // Inlet 0 flips, whatever its value.
    pub fn react(&mut self, inlets: [Option<i32>; 4]) -> [Option<i32>; 4]
        ensures { leaves (toggle_row self.new) result ≡ toggled (toggle_row self.old) (inlet 0 inlets) }
    {
        match (*self, inlets[0]) {
            (Toggle::Off, Some(_)) => {
                *self = Toggle::On;
                [Some(1); 4]
            }
            (Toggle::On, Some(_)) => {
                *self = Toggle::Off;
                [Some(0); 4]
            }
            (_, None) => [None; 4],
        }
    }
}
