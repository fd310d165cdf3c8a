// Numbers in bytes, low byte first. One function for each type: a trait over the two types would be no plainer.
ghost use Rattle.std.specs.Prelude.{◌≡◌, ◌+◌, ◌≤◌, length};
ghost use Rattle.std.specs.Int.{w32};
ghost use Rattle.std.proofs.Common.{of_z};
ghost use Rattle.image.specs.Bytes.{le, val, put, between};
ghost use Rattle.image.specs.Reading.{Octets};

// Writes `part` over the bytes from `at` on.
pub(crate) fn put_bytes(bytes: &mut [u8], at: usize, part: &[u8])
    requires { at + length part.now ≤ length bytes.old }
    ensures { bytes.new ≡ put bytes.old at part.now }
{
    bytes[at..at + part.len()].copy_from_slice(part);
}

// Each asks for its four bytes: a type for them would be no plainer.
pub(crate) fn put_u32(bytes: &mut [u8], at: usize, x: u32)
    requires { at + 4 ≤ length bytes.old }
    ensures { bytes.new ≡ put bytes.old at (le 4 x) }
{
    put_bytes(bytes, at, &x.to_le_bytes())
}

pub(crate) fn put_i32(bytes: &mut [u8], at: usize, x: i32)
    requires { at + 4 ≤ length bytes.old }
    ensures { bytes.new ≡ put bytes.old at (le 4 (of_z w32 x)) }
{
    put_bytes(bytes, at, &x.to_le_bytes())
}

fn four(bytes: &[u8], at: usize) -> [u8; 4]
    requires { at + 4 ≤ length bytes.now }
    ensures are { result ≡ between at 4 bytes.now }
    ensures octets { Octets result }
{
    [bytes[at], bytes[at + 1], bytes[at + 2], bytes[at + 3]]
}

pub(crate) fn get_u32(bytes: &[u8], at: usize) -> u32
    requires { at + 4 ≤ length bytes.now }
    ensures value { result ≡ val (between at 4 bytes.now) }
    ensures back { le 4 result ≡ between at 4 bytes.now }
{
    u32::from_le_bytes(four(bytes, at))
}

pub(crate) fn get_i32(bytes: &[u8], at: usize) -> i32
    requires { at + 4 ≤ length bytes.now }
    ensures value { of_z w32 result ≡ val (between at 4 bytes.now) }
    ensures back { le 4 (of_z w32 result) ≡ between at 4 bytes.now }
{
    i32::from_le_bytes(four(bytes, at))
}
