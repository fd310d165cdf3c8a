// Decimal numbers.
ghost use Rattle.std.specs.Prelude.{◌+◌, ◌-◌, ◌*◌, ◌^◌, ◌<◌, ◌≤◌, pos, neg_ℤ};
ghost use Rattle.std.specs.Option.{SomeIff};
ghost use Rattle.script.specs.Decimals.{Digit, Number, Signed};
ghost use Rattle.script.specs.Parts.{Reads};

// The number with one more digit behind its own.
fn behind(n: u64, code: u8) -> Option<u64>
    ensures { SomeIff result (Digit code × (n * 10 + (code - 48) < 2 ^ 64)) (n * 10 + (code - 48)) }
{
    match code {
        b'0'..=b'9' => n.checked_mul(10)?.checked_add(u64::from(code - b'0')),
        _ => None,
    }
}

// The number that the digits write, where it fits.
pub(crate) fn number(digits: &[u8]) -> Option<u64>
    ensures { Reads (Number digits.now) result }
{
    if digits.is_empty() {
        return None;
    }
    digits.iter().try_fold(0, |n, code| behind(n, *code))
}

// The number below 0 by as much, where it fits.
fn opposite(n: u64) -> Option<i32>
    ensures { SomeIff result (n ≤ 2 ^ 31) (neg_ℤ (pos n)) }
{
    i32::try_from(-i64::try_from(n).ok()?).ok()
}

// The signed number that the text writes, where it fits.
pub(crate) fn signed(text: &[u8]) -> Option<i32>
    ensures { Reads (Signed text.now) result }
{
    match text {
        [b'-', digits @ ..] => opposite(number(digits)?),
        _ => i32::try_from(number(text)?).ok(),
    }
}
