// The mapping step of one piece. A row goes by reference: by value it would be copied for each sample.
ghost use Rattle.std.specs.Prelude.{◌≡◌, ℕ, ◌+◌, ◌*◌, ◌≤◌, ◌^◌, nat_abs};
ghost use Rattle.runs.specs.inner.Loops.{at};
ghost use Rattle.standard.specs.Mapping.{cut};
ghost use Rattle.mmr.specs.inner.Apart.{coef, whole_sum, SumGiven, narrow_most, wide_most};
ghost use Rattle.mmr.specs.inner.Steps.{three_of, piece_value};
ghost use Rattle.mmr.specs.inner.Given.{RowGiven};

use crate::kind::{Kind, Width};
use crate::sum::{floor_sum, narrow_sum};
use crate::terms::{Terms, high};
use plan::limits::ROW;
use steps::cut_at;

// A polynomial piece, at a clamped sample that is raised to 20 bits; its square has 20 bits of fraction too.
fn polynomial_step(d: u8, row: &[i64; ROW], t: u64) -> u16
    requires d_bound { (d ≤ 32) × (t ≤ 2 ^ 20) }
    requires by_index { (i : ℕ) → nat_abs (coef row.now i) ≤ narrow_most }
    ensures { result ≡ cut d (three_of row.now t) }
{
    let square = high(t, t);
    cut_at(
        d,
        row[0] * 1048576 + row[1] * (t as i64) + row[2] * (square as i64),
    )
}

// An MMR piece of at most the terms' order whose coefficients are small. The counts are literals, so that the sums are
// unrolled. What is asked of a row hangs on d, so that no type keeps it; d itself is tested where a component is made
// ready.
fn narrow_step(d: u8, row: &[i64; ROW], ts: &Terms) -> u16
    requires d_bound { d ≤ 32 }
    requires sum_given { SumGiven narrow_most 22 row.now }
    ensures { result ≡ cut d (whole_sum (coef row.now) (at ts.now.tt) (7 * ts.now.order + 1)) }
{
    match ts.order {
        1 => cut_at(d, narrow_sum(8, row, ts)),
        2 => cut_at(d, narrow_sum(15, row, ts)),
        _ => cut_at(d, narrow_sum(22, row, ts)),
    }
}

// One whose coefficients are large: of the sum's floor 4 bits of fraction are left.
fn wide_step(d: u8, row: &[i64; ROW], ts: &Terms) -> u16
    requires d_bound { d ≤ 32 }
    requires sum_given { SumGiven (wide_most d) 22 row.now }
    ensures { result ≡ cut d (whole_sum (coef row.now) (at ts.now.tt) (7 * ts.now.order + 1)) }
{
    let bits = u32::from(d);
    match ts.order {
        1 => cut_at(0, floor_sum(8, bits, row, ts)),
        2 => cut_at(0, floor_sum(15, bits, row, ts)),
        _ => cut_at(0, floor_sum(22, bits, row, ts)),
    }
}

// The step of a piece, at its sample's own term.
#[tactic(auto, unfolding(crate::specs::inner::Steps::piece_value))]
pub(crate) fn step_of(d: u8, kind: Kind, row: &[i64; ROW], t: u64, ts: &Terms) -> u16
    requires d_bound { (d ≤ 32) × (t ≤ 2 ^ 20) }
    requires row_given { RowGiven d kind row.now }
    ensures { result ≡ piece_value ts.now.order d kind row.now t ts.now.tt }
{
    match kind {
        Kind::Polynomial => polynomial_step(d, row, t),
        Kind::Mmr(Width::Narrow) => narrow_step(d, row, ts),
        Kind::Mmr(Width::Wide) => wide_step(d, row, ts),
        Kind::Broken => 0,
    }
}
