// Row pairs composed plane by plane: a plane's tables are made once a call, and its row pairs go by them. Nothing is
// asked of the plan or the samples: what the tables hold for a plan that passes rule 7 is for `compose` to say. The
// runs are lent one by one, as a job has them: marks and base only read, an enhancement or none, and the output
// written.
#![tactic(auto)]

ghost use Rattle.std.specs.Prelude.{◌≡◌};
ghost use Rattle.residual.specs.inner.Tables.{residual_table, finished_table};
ghost use Rattle.rows.specs.inner.Rows.{looked_up_rows, added_up_rows};
ghost use Rattle.planes.specs.inner.ByTables.{plain_chroma, enhanced_chroma, plain_picture, enhanced_picture};

use mapping::mapped_table;
use mmr::compose_chroma;
use mmr::inputs::Inputs;
use picture::Plane;
use plan::{Header, Nlq, Plan};
use residual::{cut_numbers, finished_table, no_residual, residual_pair, residual_table};
use rows::{Rows, add_up_rows, look_up_rows};
use rules::extent_of;
use sums::{Cut, Tables};

// One plane without residual, by its mapped samples: those of a table that is made, or of a part of one that is lent.
// Row pairs that are full by the marks are kept.
pub fn plain_plane(
    h: Header,
    mapped: &[u16],
    p: Plane,
    r: Rows,
    marks: &[u8],
    base: &[u16],
    output: &mut [u16],
)
    ensures { output.new ≡ looked_up_rows (finished_table h mapped.now) p r marks.now base.now output.old }
{
    let finished = finished_table(h, mapped);
    look_up_rows(&finished, p, r, marks, base, output);
}

// One plane with residual.
pub fn enhanced_plane(
    h: Header,
    mapped: &[u16; 1024],
    q: Nlq,
    cut: Cut,
    p: Plane,
    r: Rows,
    base: &[u16],
    enhancement: &[u16],
    output: &mut [u16],
)
    ensures { output.new ≡ added_up_rows mapped.now (residual_table h q) cut p r base.now enhancement.now output.old }
{
    let raised = residual_table(h, q);
    let tables = Tables {
        mapped,
        raised: &raised,
        cut,
    };
    add_up_rows(tables, p, r, base, enhancement, output);
}

// Chroma by MMR. The enhancement is not there: the base stands for it, since every code has no residual.
fn plain_chroma(plan: Plan, r: Rows, marks: &[u8], base: &[u16], output: &mut [u16])
    ensures { output.new ≡ plain_chroma plan r marks.now base.now output.old }
{
    let none = no_residual(plan.header);
    let cut = cut_numbers(plan.header);
    let inputs = Inputs {
        cb_raised: &none,
        cr_raised: &none,
        cut: cut,
        marks: marks,
        base: base,
        enhancement: base,
    };
    compose_chroma(plan, r.first, r.last, &inputs, output);
}

// With residual all row pairs are written: no marks are handed on.
fn enhanced_chroma(
    plan: Plan,
    cut: Cut,
    r: Rows,
    base: &[u16],
    enhancement: &[u16],
    output: &mut [u16],
)
    ensures { output.new ≡ enhanced_chroma plan cut r base.now enhancement.now output.old }
{
    let raised = residual_pair(plan.header, plan.cb.nlq, plan.cr.nlq);
    let blue = raised.first;
    let red = raised.second;
    let inputs = Inputs {
        cb_raised: &blue,
        cr_raised: &red,
        cut: cut,
        marks: &[],
        base: base,
        enhancement: enhancement,
    };
    compose_chroma(plan, r.first, r.last, &inputs, output);
}

// Without residual. Whatever is handed the plan or a component comes before anything is written: they are large, and
// what is read of them after a store to the output is copied before it, as the compiler does not know that they
// differ.
pub fn plain_planes(plan: Plan, r: Rows, marks: &[u8], base: &[u16], output: &mut [u16])
    ensures { output.new ≡ plain_picture plan r marks.now base.now output.old }
{
    let h = plan.header;
    let p = extent_of(h).planes();
    let y = plan.y;
    let luma = mapped_table(h, y).unwrap_or([0; 1024]);
    let cb = plan.cb;
    let blue = mapped_table(h, cb);
    let cr = plan.cr;
    let red = mapped_table(h, cr);
    if let (Some(blue), Some(red)) = (&blue, &red) {
        plain_plane(h, &luma, p.y, r, marks, base, output);
        plain_plane(h, blue, p.cb, r, marks, base, output);
        plain_plane(h, red, p.cr, r, marks, base, output);
        return;
    }
    plain_chroma(plan, r, marks, base, output);
    plain_plane(h, &luma, p.y, r, marks, base, output);
}

// With residual. The numbers of the cut serve three planes.
pub fn enhanced_planes(plan: Plan, r: Rows, base: &[u16], enhancement: &[u16], output: &mut [u16])
    ensures { output.new ≡ enhanced_picture plan r base.now enhancement.now output.old }
{
    let h = plan.header;
    let p = extent_of(h).planes();
    let cut = cut_numbers(h);
    let y = plan.y;
    let luma = mapped_table(h, y).unwrap_or([0; 1024]);
    let cb = plan.cb;
    let blue = mapped_table(h, cb);
    let cr = plan.cr;
    let red = mapped_table(h, cr);
    if let (Some(blue), Some(red)) = (&blue, &red) {
        enhanced_plane(h, &luma, y.nlq, cut, p.y, r, base, enhancement, output);
        enhanced_plane(h, blue, cb.nlq, cut, p.cb, r, base, enhancement, output);
        enhanced_plane(h, red, cr.nlq, cut, p.cr, r, base, enhancement, output);
        return;
    }
    enhanced_chroma(plan, cut, r, base, enhancement, output);
    enhanced_plane(h, &luma, y.nlq, cut, p.y, r, base, enhancement, output);
}
