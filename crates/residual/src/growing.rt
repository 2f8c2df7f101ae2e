// The residuals of the codes on one side of the offset. Before they are limited they grow evenly from code to code, so
// that the loop has no product.
ghost use Rattle.std.specs.Prelude.{◌≡◌, ◌≤◌, ◌/◌, ◌^◌, pos, nat_abs, ◌+ℤ◌, length};
ghost use Rattle.runs.specs.Runs.{painted, between};
ghost use Rattle.standard.specs.Mapping.{from_zero};
ghost use Rattle.standard.specs.Residual.{limit};
ghost use Rattle.residual.specs.inner.Steps.{growth, far_of, OneSide, CodeGiven, raised_by, raised_code};

use crate::depths::Depths;
use crate::rounding::power;
use crate::scaling::{distance, scale};
use plan::Nlq;

// How much a scaled distance grows from code to code.
fn growth(el: u32, slope: u64) -> i64
    requires { (el ≤ 10) × (slope ≤ 2 ^ 33) }
    ensures is { result ≡ growth el slope }
    ensures low { nat_abs result ≤ 2 ^ 44 }
{
    2 * (power(10 - el) as i64) * (slope as i64)
}

// The limit of a scaled distance, on either side of 0, as an unsigned number.
fn most_of(el: u32, maximum: u64) -> u64
    requires { (el ≤ 10) × (maximum ≤ 2 ^ 33) }
    ensures { pos result ≡ limit el maximum }
{
    maximum * power(10 - el + 1)
}

// A scaled distance, raised by `far`, which is more than any of them, and divided.
fn lifted(shift: u32, far: u64, dq: i64) -> u32
    requires { (shift ≤ 27) × (far ≡ far_of shift) × (nat_abs dq ≤ far) }
    ensures { result ≡ from_zero (dq +ℤ pos far) / 2 ^ shift }
{
    let x = (dq + (far as i64)) as u64;
    (x >> shift) as u32
}

// What a scaled distance comes to: limited, divided and raised. The code raises it first, by what the division makes
// 2^29, and limits it last: no step has a sign, and the limits are of 32 bits, so that the compiler makes several at
// once. At the end all but 2^17 and the rounding term is taken off again.
fn raised_by(out: u32, shift: u32, most: u64, dq: i64) -> u32
    requires { CodeGiven out shift most dq }
    ensures { result ≡ raised_by out shift (pos most) dq }
{
    let far = power(29 + shift);
    let high = (far + most) >> shift;
    let low = (far - most) >> shift;
    let held = lifted(shift, far, dq).min(high as u32).max(low as u32);
    held - (536870912 - 131072 - (power(15 - out) as u32))
}

// The codes from `from` up to, but not including, `to`, on the side of the offset that `sign` says: -1 or 1, which
// the distance is scaled with.
pub(crate) fn go_on(table: &mut [u32; 1024], from: u16, to: u16, depths: Depths, q: Nlq, sign: i64)
    requires { OneSide depths from to q sign × (length table.old ≡ 1024) }
    ensures { table.new ≡ painted (between from to) (raised_code depths.out depths.el depths.d q) table.old }
{
    let el = depths.el;
    let shift = depths.d - 5 - el;
    let most = most_of(el, q.maximum);
    let even = growth(el, q.slope);
    let mut dq = scale(el, q.slope, q.threshold, distance(from, q.offset), sign);
    for e in from..to {
        table[e as usize] = raised_by(depths.out, shift, most, dq);
        dq += even;
    }
}
