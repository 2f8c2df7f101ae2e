// The sum over a row's terms, in 64 bits. The counts are literals where these are called, so that the compiler unrolls
// the loops.
ghost use Rattle.std.specs.Prelude.{◌≡◌, ◌*◌, ◌≤◌, ◌^◌, nat_abs};
ghost use Rattle.std.specs.Int.Signed.{shr_z};
ghost use Rattle.runs.specs.inner.Loops.{at};
ghost use Rattle.mmr.specs.inner.Apart.{coef, fraction, whole_sum, SumGiven, narrow_most, wide_most};

use crate::terms::Terms;
use plan::limits::ROW;

// Where all coefficients are small one product a term is enough.
pub(crate) fn narrow_sum(count: usize, row: &[i64; ROW], ts: &Terms) -> i64
    requires { SumGiven narrow_most count row.now }
    ensures { result ≡ whole_sum (coef row.now) (at ts.now.tt) count }
{
    let mut sum: i64 = 0;
    for i in 0..count {
        let c = row[i];
        let t = ts.tt[i];
        sum += c * (t as i64);
    }
    sum
}

// The fraction of a coefficient.
fn part_of(d: u32, c: i64) -> u64
    requires { (d ≤ 32) × (nat_abs c ≤ wide_most d) }
    ensures { result ≡ fraction c (2 ^ d) }
{
    (c - (c >> d) * ((1u64 << d) as i64)) as u64
}

// The floor of the sum divided by 2 ^ d. The sum has up to 73 bits: integer parts and fractions are summed apart.
pub(crate) fn floor_sum(count: usize, d: u32, row: &[i64; ROW], ts: &Terms) -> i64
    requires d_bound { d ≤ 32 }
    requires sum_given { SumGiven (wide_most d) count row.now }
    ensures { result ≡ shr_z (whole_sum (coef row.now) (at ts.now.tt) count) (2 ^ d) }
{
    let mut whole: i64 = 0;
    let mut part: u64 = 0;
    for i in 0..count {
        let c = row[i];
        let t = ts.tt[i];
        whole += (c >> d) * (t as i64);
        part += part_of(d, c) * t;
    }
    whole + ((part >> d) as i64)
}
