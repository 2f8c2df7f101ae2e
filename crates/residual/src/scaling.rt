// The distance of an enhancement layer sample from the offset (5.4.3.2), scaled, before it is limited and divided.
ghost use Rattle.std.specs.Prelude.{◌≡◌, ◌≤◌, ◌^◌, pos, nat_abs, ◌-ℤ◌};
ghost use Rattle.standard.specs.Residual.{scaled};

use crate::rounding::power;

pub(crate) fn distance(e: u16, offset: u16) -> i64
    ensures is { result ≡ pos e -ℤ pos offset }
    ensures low { nat_abs result ≤ 2 ^ 17 }
{
    (e as i64) - (offset as i64)
}

// The distance doubled, drawn in by one, scaled by the slope, and moved out by the threshold.
pub(crate) fn scale(el: u32, slope: u64, threshold: u64, rr: i64, sign: i64) -> i64
    requires { (el ≤ 10) × (slope ≤ 2 ^ 33) × (threshold ≤ 2 ^ 33) × (nat_abs rr ≤ 2 ^ 17) × (nat_abs sign ≤ 1) }
    ensures { result ≡ scaled el slope threshold rr sign }
{
    let f = power(10 - el) as i64;
    let g = power(10 - el + 1) as i64;
    (rr * 2 - sign) * f * (slope as i64) + (threshold as i64) * g * sign
}
