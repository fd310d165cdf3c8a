ghost use Rattle.std.specs.Prelude.{◌≡◌};
ghost use Rattle.supplied.specs.Kinds.{counted, inlet, leaves};
ghost use Rattle.supplied.specs.States.{count_row};

// How often inlet 0 was present since the start or the last reset.
#[derive(Clone, Copy)]
pub struct Counter {
    count: i32,
}

impl Counter {
    // A counter that stands at `count`.
    pub fn new(count: i32) -> Counter
        ensures { result.count ≡ count }
    {
        Counter { count }
    }

    // Inlet 0 counts, and inlet 1 resets.
    pub fn react(&mut self, inlets: [Option<i32>; 4]) -> [Option<i32>; 4]
        ensures { leaves (count_row self.new) result ≡ counted (count_row self.old) (inlet 0 inlets) (inlet 1 inlets) }
    {
        match (inlets[0], inlets[1]) {
            (_, Some(_)) => self.count = 0,
            (Some(_), None) => self.count = self.count.saturating_add(1),
            (None, None) => return [None; 4],
        }
        [Some(self.count); 4]
    }
}
