ghost use Rattle.std.specs.Prelude.{◌≡◌, [], ◌*ℤ◌};
ghost use Rattle.supplied.specs.Kinds.{inlet, leaves, scales};
ghost use Rattle.supplied.specs.Numbers.{held, scaled, truncated};

// A factor in thousandths.
#[derive(Clone, Copy)]
pub struct Scale {
    parameter: i32,
}

impl Scale {
    pub fn new(parameter: i32) -> Scale
        ensures { result.parameter ≡ parameter }
    {
        Scale { parameter }
    }

    pub fn react(self, inlets: [Option<i32>; 4]) -> [Option<i32>; 4]
        ensures { leaves [] result ≡ scales self.parameter [] (inlet 0 inlets) }
    {
        [inlets[0].map(|value| self.apply(value)); 4]
    }

    fn apply(self, value: i32) -> i32
        ensures { result ≡ scaled self.parameter value }
    {
        hold(whole(product(value, self.parameter)))
    }
}

fn product(a: i32, b: i32) -> i64
    ensures { result ≡ a *ℤ b }
{
    i64::from(a) * i64::from(b)
}

// What is whole of so many thousandths, rounded towards zero.
fn whole(thousandths: i64) -> i64
    ensures { result ≡ truncated thousandths 1000 }
{
    thousandths / 1000
}

// The nearest number of 32 bits.
fn hold(number: i64) -> i32
    ensures { result ≡ held number }
{
    number.clamp(i64::from(i32::MIN), i64::from(i32::MAX)) as i32
}
