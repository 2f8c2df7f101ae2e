// Numbers with a fraction: a signed integer part of one byte, or where it is long of four, and a fraction of four bytes
// that adds upward.
ghost use Rattle.std.specs.Prelude.{◌≡◌, pos, cond, ◌+◌, ◌^◌, ◌≤◌, ◌<◌, ◌%◌, ◌-◌};
ghost use Rattle.pen.specs.Bytes.{bytes_of, signed_number, integer_part, fraction_part};
ghost use Rattle.pen.specs.inner.Putting.{put_at, from_distance, integer_bytes, put_number};

use crate::put;

// A number by its distance from 0, or where it is below 0 from -1, so that nothing here is negative.
#[derive(Clone, Copy)]
pub struct Distance {
    pub below: bool,
    pub far: u64,
}

impl From<u64> for Distance {
    ghost from_gives = { λ n r. from_distance r.below r.far ≡ pos n };

    fn from(n: u64) -> Distance {
        Distance {
            below: false,
            far: n,
        }
    }
}

// How many bytes an integer part has.
pub fn integer_bytes(long: bool) -> usize
    ensures { (result ≡ integer_bytes long) × (result ≤ 4) }
{
    if long { 4 } else { 1 }
}

// How many numbers those bytes have.
fn integer_numbers(long: bool) -> u64
    ensures { (result ≡ 256 ^ integer_bytes long) × ((0 < result) × (result ≤ 2 ^ 32)) }
{
    if long { 4294967296 } else { 256 }
}

// What is left of a number by a modulus, of -1 the modulus less 1, by the number's distance.
fn rest(below: bool, far: u64, modulus: u64) -> u32
    requires { (0 < modulus) × (modulus ≤ 2 ^ 32) }
    ensures { (result ≡ cond below (modulus - 1 - far % modulus) (far % modulus)) × (result < modulus) }
{
    let rest = far % modulus;
    if below {
        (modulus - 1 - rest) as u32
    } else {
        rest as u32
    }
}

fn integer(long: bool, d: u8, z: Distance) -> u32
    requires { d ≤ 32 }
    ensures value { result ≡ signed_number (integer_bytes long) (integer_part d (from_distance z.below z.far)) }
    ensures small { result < 256 ^ integer_bytes long }
{
    rest(z.below, z.far >> u32::from(d), integer_numbers(long))
}

fn fraction(d: u8, z: Distance) -> u32
    requires { d ≤ 32 }
    ensures { result ≡ fraction_part d (from_distance z.below z.far) }
{
    rest(z.below, z.far, 1u64 << u32::from(d))
}

fn put_integer(out: &mut [u8], at: usize, long: bool, v: u32)
    requires { v < 256 ^ integer_bytes long }
    ensures { out.new ≡ put_at out.old at (bytes_of (integer_bytes long) v) }
{
    if long {
        put(out, at, v.to_be_bytes());
    } else {
        put(out, at, [v as u8]);
    }
}

// Puts a number with a fraction of d bits. Where d is above 32 its fraction has more than four bytes, and nothing is
// written.
pub fn number(out: &mut [u8], at: usize, long: bool, d: u8, z: Distance)
    ensures { out.new ≡ put_number out.old at long d (from_distance z.below z.far) }
{
    if 32 < d {
        return;
    }
    let w = integer_bytes(long);
    if out.len() < w + 4 || out.len() - (w + 4) < at {
        return;
    }
    put_integer(out, at, long, integer(long, d, z));
    put(out, at + w, fraction(d, z).to_be_bytes());
}

// Puts a number of either sign. Each sign has a call of its own: with From<i64> for Distance and one call the sign is
// worked into each byte, and the longest block takes some 30 % more time.
pub fn signed(out: &mut [u8], at: usize, long: bool, d: u8, z: i64)
    ensures { out.new ≡ put_number out.old at long d z }
{
    if z < 0 {
        let far = (-1 - z) as u64;
        number(out, at, long, d, Distance { below: true, far });
    } else {
        number(out, at, long, d, (z as u64).into());
    }
}
