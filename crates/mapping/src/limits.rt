// What the numbers of a component must keep to, so that its mapping can be computed: less than rule 7 asks.
ghost use Rattle.std.specs.Prelude.{◌≡◌, ◌≤◌, ◌^◌, leb, ltb, nat_abs, length};
ghost use Rattle.runs.specs.inner.Loops.{at};
ghost use Rattle.plan.specs.Rule7.{every, pivot_places};
ghost use Rattle.mapping.specs.inner.Mapped.{frame_maps, polynomial_maps};
ghost use Rattle.mapping.specs.inner.Copies.{polynomial_of};

use crate::copies::Polynomial;
use plan::Header;
use plan::limits::{MOST_D, MOST_N, PIVOTS};

const MOST_COEFFICIENT: u64 = 274877906944; // 2^38, which is 64 x 2^d for the largest d

fn preds_fit(depth: u32, preds: &[u16; PIVOTS]) -> bool
    requires { depth ≤ 10 }
    ensures { result ≡ every pivot_places (λ i. ltb (at preds.now i) (2 ^ depth)) }
{
    let codes = 1u64 << depth;
    let mut fit = true;
    for pred in preds {
        fit &= u64::from(*pred) < codes;
    }
    fit
}

// The depth, the denominator, the number of pivots, and the pivots.
pub(crate) fn frame_maps(h: Header, n: u8, preds: &[u16; PIVOTS]) -> bool
    ensures { result ≡ frame_maps h n preds.now }
{
    if h.bl > 2 {
        return false;
    }
    (h.d <= MOST_D) & ((n <= MOST_N) & preds_fit(u32::from(h.bl) + 8, preds))
}

fn is_within(top: u64, z: i64) -> bool
    ensures { result ≡ leb (nat_abs z) top }
{
    z.unsigned_abs() <= top
}

// The coefficients of a polynomial. The third is 0 where the order does not use it: how large it may be goes by the
// order, 0 or 1.
fn polynomial_maps(q: &Polynomial) -> bool
    ensures { result ≡ polynomial_maps q.now.order q.now.row }
{
    let first = is_within(MOST_COEFFICIENT, q.row[0]);
    let second = is_within(MOST_COEFFICIENT, q.row[1]);
    let third = is_within(u64::from(q.order) * MOST_COEFFICIENT, q.row[2]);
    (q.order <= 1) & (first & (second & third))
}

// The pieces that are used.
pub(crate) fn pieces_map(used: &[Polynomial]) -> bool
    ensures { result ≡ every (length used.now) (λ p. let q = polynomial_of used.now p in polynomial_maps q.order q.row) }
{
    let mut fit = true;
    for q in used {
        fit &= polynomial_maps(q);
    }
    fit
}
