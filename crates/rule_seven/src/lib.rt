// Rule 7: whether a plan that is handed in keeps every range and has 0 in every unused place.
#![tactic(auto)]

mod places; // a component's places: those that are used keep their range, the others are 0
mod ranges; // the ranges of a component's numbers

ghost use Rattle.std.specs.Prelude.{◌≡◌, not, ◌&&◌};
ghost use Rattle.plan.specs.Ranges.{header_fits};
ghost use Rattle.plan.specs.Rule7.{nlq_fits, fitting, usable};
ghost use Rattle.plan.specs.Tables.{has_mmr};

use places::{piece_empty, piece_fits, pivots_fit};
use plan::limits::{MOST_N, PIECES};
use plan::ranges::FittingHeader;
use plan::{Component, Header, Nlq, Plan};
use ranges::nlq_fits;

// Whether component k of a plan can be computed with, for whoever is handed a component alone: k is a number, as the
// definitions and those who count the three components have it. Its pieces are read where they lie: a component is
// large, and to hand it on is to copy it. Pieces that are used, and those that are not, are two loops whose turns go
// by n: one loop over all places would be unrolled, and the array taken apart byte by byte.
#[tactic(auto, using(crate::proofs::Whole::too_many))]
pub fn is_usable(k: usize, h: Header, c: Component) -> bool
    ensures { result ≡ usable k h c }
{
    // The other ranges are made of the header's numbers, which must be small enough to shift by.
    let Some(h) = FittingHeader::of(h) else {
        return false;
    };
    if c.n > MOST_N {
        return false;
    }
    let used = usize::from(c.n) + 2;
    let pivots = pivots_fit(h, used, &c.preds);
    let residual = nlq_fits(h, c.nlq);
    let mut fit = true;
    for p in 0..used {
        fit &= piece_fits(k, h, &c.pieces[p]);
    }
    for p in used..PIECES {
        fit &= piece_empty(h, &c.pieces[p]);
    }
    pivots & (fit & residual)
}

// Whether each component of a plan can be computed with: luma, and chroma as the components `cb` and `cr`. A component
// is named on its way to its test, and this is inlined: it is then handed on where it lies in the plan, and not
// copied.
#[inline(always)]
fn each_usable(plan: Plan, cb: usize, cr: usize) -> bool
    ensures { result ≡ (usable 0 plan.header plan.y && (usable cb plan.header plan.cb && usable cr plan.header plan.cr)) }
{
    let h = plan.header;
    let y = plan.y;
    let luma = is_usable(0, h, y);
    let c = plan.cb;
    let blue = is_usable(cb, h, c);
    let c = plan.cr;
    let red = is_usable(cr, h, c);
    luma & (blue & red)
}

// Rule 7: whether a plan that is handed in keeps every range and has 0 in every unused place.
#[tactic(auto, using(crate::proofs::Whole::each))]
pub fn passes(plan: Plan) -> bool
    ensures { result ≡ fitting plan }
{
    each_usable(plan, 1, 2)
}

// The same, and no piece is MMR: each component is one that luma could be.
#[tactic(auto, using(plan::proofs::Polynomials::all_luma))]
pub fn all_polynomials(plan: Plan) -> bool
    ensures { result ≡ (fitting plan && not (has_mmr plan)) }
{
    each_usable(plan, 0, 0)
}

// Whether an inverse quantization can be computed with, which asks nothing of the pieces.
pub fn quantizes(h: Header, q: Nlq) -> bool
    ensures { result ≡ (header_fits h && nlq_fits h q) }
{
    match FittingHeader::of(h) {
        Some(h) => nlq_fits(h, q),
        None => false,
    }
}
