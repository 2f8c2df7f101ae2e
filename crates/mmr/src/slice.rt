// A slice through the mapping of Cb or of Cr: what each of its codes is mapped to where luma and the other chroma
// sample are at the middle code. It is made once, to be looked at.
ghost use Rattle.std.specs.Prelude.{◌≡◌, true, ◌+◌, ◌*◌};
ghost use Rattle.runs.specs.inner.Loops.{at};
ghost use Rattle.runs.specs.inner.Tables.{table, coded};
ghost use Rattle.mmr.specs.inner.Terms.{Agreed};
ghost use Rattle.mmr.specs.inner.Slice.{own, slice_terms, slice_table, slice_by};

use crate::both::Both;
use crate::terms::{Terms, terms_of};
use crate::{both_of, numbers_fit};
use plan::Plan;

// The terms where the component's sample is s.
fn slice_terms(both: &Both, cr: bool, s: u16) -> Terms
    ensures order { result.order ≡ both.now.format.order }
    ensures terms { Agreed (7 * both.now.format.order + 1) result.tt (slice_terms both.now.format cr s) }
{
    let f = both.format;
    let middle = f.codes / 2;
    let s0 = f.y.code_of(f.codes, middle);
    let s1 = f.cb.code_of(f.codes, if cr { middle } else { s });
    let s2 = f.cr.code_of(f.codes, if cr { s } else { middle });
    terms_of(f.order, f.depth, s0, s1, s2)
}

// What s is mapped to, by the component's own term.
fn slice_at(both: &Both, cr: bool, s: u16) -> u16
    ensures { result ≡ slice_by both.now cr s }
{
    let d = both.format.d;
    let ts = slice_terms(both, cr, s);
    if cr {
        both.cr.mapped(d, both.cr.piece_of(s), ts.tt[3], &ts)
    } else {
        both.cb.mapped(d, both.cb.piece_of(s), ts.tt[2], &ts)
    }
}

fn all_codes(both: &Both, cr: bool) -> [u16; 1024]
    ensures { result ≡ table 1024 (coded true both.now.format.codes (slice_by both.now cr)) }
{
    let mut table = [0u16; 1024];
    for s in 0..both.format.codes {
        table[s as usize] = slice_at(both, cr, s);
    }
    table
}

// What each code of Cb, or of Cr, is mapped to: 0 past the codes, and zeros where the plan's numbers cannot be computed
// with.
pub fn slice_table(plan: Plan, cr: bool) -> [u16; 1024]
    ensures { result ≡ slice_table plan cr }
{
    if !numbers_fit(&plan) {
        return [0u16; 1024];
    }
    let both = both_of(&plan);
    all_codes(&both, cr)
}
