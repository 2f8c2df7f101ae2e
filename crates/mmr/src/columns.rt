// One row of Cb and of Cr samples, from the two luma rows beside it. Both components have the same terms, which are
// made once.
ghost use Rattle.std.specs.Prelude.{◌≡◌, ◌+◌, ◌*◌, ◌<◌, ◌≤◌, length};
ghost use Rattle.runs.specs.Runs.{painted};
ghost use Rattle.mmr.specs.inner.Terms.{Agreed};
ghost use Rattle.mmr.specs.inner.Luma.{luma_beside};
ghost use Rattle.mmr.specs.inner.Columns.{code_of, column_terms, row_value, two_rows, PlaceGiven};

use crate::both::Both;
use crate::format::Format;
use crate::inputs::Inputs;
use crate::luma::down_sample;
use crate::terms::{Terms, terms_of};

// Where a row's samples lie in the runs: the upper of two luma rows, and the rows of Cb and Cr.
#[derive(Clone, Copy)]
pub(crate) struct Place {
    pub columns: usize,
    pub upper: usize,
    pub cb: usize,
    pub cr: usize,
}

fn luma_code(f: Format, p: Place, base: &[u16], i: usize) -> u16
    requires { (i < p.columns) × (p.upper + 2 * (2 * p.columns) ≤ length base.now) }
    ensures { (result ≡ code_of f.codes f.y (luma_beside base.now (2 * p.columns) p.upper i)) × (1 ≤ f.codes → result < f.codes) }
{
    let s = down_sample(base, 2 * p.columns, p.upper, i);
    f.y.code_of(f.codes, s)
}

fn column_terms(both: &Both, p: Place, base: &[u16], i: usize) -> Terms
    requires place_given { PlaceGiven p (length base.now) }
    requires i_lt_columns { i < p.columns }
    ensures order { result.order ≡ both.now.format.order }
    ensures terms { Agreed (7 * both.now.format.order + 1) result.tt (column_terms both.now.format p base.now i) }
{
    let f = both.format;
    let cb = p.cb + i;
    let cr = p.cr + i;
    let s0 = luma_code(f, p, base, i);
    let s1 = f.cb.code_of(f.codes, base[cb]);
    let s2 = f.cr.code_of(f.codes, base[cr]);
    terms_of(f.order, f.depth, s0, s1, s2)
}

// The columns of one row of Cb and of Cr. Both pieces are searched first: what each comparison needs of the one before
// it is waited for while the terms are made.
pub(crate) fn compose_columns(both: &Both, inputs: &Inputs, p: Place, output: &mut [u16])
    requires base { PlaceGiven p (length inputs.now.base.now) }
    requires enhancement { PlaceGiven p (length inputs.now.enhancement.now) }
    requires output { PlaceGiven p (length output.old) }
    ensures { output.new ≡ painted (two_rows p p.columns) (row_value both.now inputs.now p) output.old }
{
    let base = inputs.base;
    let d = both.format.d;
    for i in 0..p.columns {
        let a = p.cb + i;
        let b = p.cr + i;
        let p1 = both.cb.piece_of(base[a]);
        let p2 = both.cr.piece_of(base[b]);
        let ts = column_terms(both, p, base, i);
        let cb = both.cb.mapped(d, p1, ts.tt[2], &ts);
        let cr = both.cr.mapped(d, p2, ts.tt[3], &ts);
        let u = inputs.finished(inputs.cb_raised, cb, a);
        let v = inputs.finished(inputs.cr_raised, cr, b);
        output[a] = u;
        output[b] = v;
    }
}
