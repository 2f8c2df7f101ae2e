// Numbers with a fraction.
ghost use Rattle.std.specs.Prelude.{◌^◌, ◌<◌, ◌≤◌};

use std::fmt;

// 2^bits, for as many bits as a header that rule 4 has passed may have.
pub(crate) fn power(bits: u8) -> u64
    ensures { (0 < result) × (result ≤ 2 ^ 32) }
{
    1u64 << u32::from(bits.min(32))
}

// The number value / 2^bits.
#[derive(Clone, Copy)]
pub struct Fixed {
    pub value: i64,
    pub bits: u8,
}

impl Fixed {
    // The integer part, rounded down: toward minus infinity.
    pub fn integer(self) -> i64 {
        self.value.div_euclid(power(self.bits) as i64)
    }

    // The fraction, which adds upward, in units of 2^-bits.
    pub fn fraction(self) -> i64 {
        self.value.rem_euclid(power(self.bits) as i64)
    }
}

// About what it comes to, rounded down to six digits after the point: below 0 the absolute value is rounded up, which
// may carry into the whole number.
impl fmt::Display for Fixed {
    fn fmt<W: fmt::Write>(&self, f: &mut fmt::Formatter<W>) -> fmt::Result {
        let one = power(self.bits);
        let size = self.value.unsigned_abs();
        let (sign, more) = if self.value < 0 {
            ("-", one - 1)
        } else {
            ("", 0)
        };
        let millionths = (size % one * 1000000 + more) / one;
        let whole = size / one + millionths / 1000000;
        write!(f, "{sign}{whole}.{:06}", millionths % 1000000)
    }
}
