// The places of a component's arrays: the first ones are used and keep their range, the others are 0.
ghost use Rattle.std.specs.Prelude.{◌≡◌, cond, eqb, ltb, ◌+◌, ◌-◌, ◌≤◌, pos, get_or};
ghost use Rattle.plan.specs.Ranges.{pivot_fits, coefficient_fits};
ghost use Rattle.plan.specs.Rule7.{every, pivot_places, row_places, is_zero, row_fits, piece_fits, piece_empty};

use crate::ranges::{coefficient_fits, sample_fits};
use plan::Piece;
use plan::limits::{PIVOTS, ROW};
use plan::methods::{coefficients_used, most_idc, most_order};
use plan::ranges::FittingHeader;

// The most coefficients of a polynomial.
const POLYNOMIAL: usize = 3;

// Under the definition's name, for both kinds of rows.
fn is_zero(z: i64) -> bool
    ensures { result ≡ is_zero z }
{
    z == 0
}

fn coefficient_place(h: FittingHeader, idc: u8, used: bool, z: i64) -> bool
    ensures { result ≡ cond used (coefficient_fits h.header idc z) (is_zero z) }
{
    if used {
        coefficient_fits(h, idc, z)
    } else {
        is_zero(z)
    }
}

// Place by place, whatever is used. The method, how many places are used and the row come together three times, and
// would be put into a struct for each piece only to be taken out again.
fn places_fit(h: FittingHeader, idc: u8, used: usize, row: &[i64; ROW]) -> bool
    ensures { result ≡ row_fits h.header idc used row.now }
{
    let mut fit = true;
    for (i, z) in row.iter().enumerate() {
        fit &= coefficient_place(h, idc, i < used, *z);
    }
    fit
}

// Nothing stands in the places that no polynomial has: there is no choice to make of each, so that the compiler joins
// them.
fn rest_is_zero(row: &[i64; ROW]) -> bool
    ensures { result ≡ every (row_places - 3) (λ j. is_zero (get_or row.now (3 + j) (pos 0))) }
{
    let mut zero = true;
    for z in &row[POLYNOMIAL..] {
        zero &= is_zero(*z);
    }
    zero
}

// A row of a polynomial's few places, of which the first `used` are used. A call for each piece would cost a tenth of
// the whole.
#[inline(always)]
fn few_fit(h: FittingHeader, idc: u8, used: usize, row: &[i64; ROW]) -> bool
    requires { used ≤ 3 }
    ensures { result ≡ row_fits h.header idc used row.now }
{
    let first = coefficient_place(h, idc, 0 < used, row[0]);
    let second = coefficient_place(h, idc, 1 < used, row[1]);
    let third = coefficient_place(h, idc, 2 < used, row[2]);
    first & (second & (third & rest_is_zero(row)))
}

fn row_fits(h: FittingHeader, idc: u8, used: usize, row: &[i64; ROW]) -> bool
    ensures { result ≡ row_fits h.header idc used row.now }
{
    if POLYNOMIAL < used {
        return places_fit(h, idc, used, row);
    }
    few_fit(h, idc, used, row)
}

// A piece of luma, and of any component without MMR.
#[tactic(auto, unfolding(plan::specs::Rule7::piece_fits))]
fn polynomial_fits(h: FittingHeader, q: &Piece) -> bool
    ensures { result ≡ piece_fits 0 h.header q.now }
{
    if q.idc != 0 {
        return false;
    }
    if q.order > 1 {
        return false;
    }
    few_fit(h, 0, usize::from(q.order) + 2, &q.row)
}

// A piece of component k: 0 is luma, 1 Cb and 2 Cr. Where k is known to be 0 the compiler has a loop for it alone, in
// which a row's places past the third are joined two at once.
#[tactic(auto, unfolding(plan::specs::Rule7::piece_fits))]
pub(crate) fn piece_fits(k: usize, h: FittingHeader, q: &Piece) -> bool
    ensures { result ≡ piece_fits k h.header q.now }
{
    if k == 0 {
        return polynomial_fits(h, q);
    }
    let fits = row_fits(h, q.idc, coefficients_used(q.idc, q.order), &q.row);
    (q.idc <= most_idc(k)) & ((q.order <= most_order(q.idc)) & fits)
}

#[tactic(auto, unfolding(plan::specs::Rule7::piece_empty))]
pub(crate) fn piece_empty(h: FittingHeader, q: &Piece) -> bool
    ensures { result ≡ piece_empty h.header q.now }
{
    let empty = few_fit(h, 0, 0, &q.row);
    (q.idc == 0) & ((q.order == 0) & empty)
}

fn pivot_place(h: FittingHeader, used: bool, v: u16) -> bool
    ensures { result ≡ cond used (pivot_fits h.header v) (eqb v 0) }
{
    if used {
        sample_fits(h.bl_depth(), v)
    } else {
        v == 0
    }
}

pub(crate) fn pivots_fit(h: FittingHeader, used: usize, preds: &[u16; PIVOTS]) -> bool
    ensures { result ≡ every pivot_places (λ i. cond (ltb i used) (pivot_fits h.header (get_or preds.now i 0)) (eqb (get_or preds.now i 0) 0)) }
{
    let mut fit = true;
    for (i, v) in preds.iter().enumerate() {
        fit &= pivot_place(h, i < used, *v);
    }
    fit
}
