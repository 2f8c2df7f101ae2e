// The planes of a picture, each by its part of a lent table: luma's, then Cb's, then Cr's.
ghost use Rattle.std.specs.Prelude.{◌≡◌, ℕ, ◌≤◌};
ghost use Rattle.runs.specs.Runs.{painted};
ghost use Rattle.runs.specs.inner.Loops.{at};
ghost use Rattle.runs.specs.inner.Tables.{table};
ghost use Rattle.picture.specs.Picture.{in_pairs};
ghost use Rattle.rules.specs.Rules.{extent};
ghost use Rattle.table_compose.specs.inner.ByTable.{Lent, Enhanced, in_not_full, plain_sample, enhanced_sample};

use plan::{Header, Nlq};
use planes::{enhanced_plane, plain_plane};
use residual::cut_numbers;
use rows::Rows;
use rules::extent_of;

// Without residual. Row pairs that are full by the marks are kept.
pub(crate) fn plain_planes(
    h: Header,
    table: &[u16],
    r: Rows,
    marks: &[u8],
    base: &[u16],
    output: &mut [u16],
)
    requires { Lent h r table.now base.now output.old }
    ensures { output.new ≡ painted (in_not_full h r marks.now) (plain_sample h table.now base.now) output.old }
{
    let p = extent_of(h).planes();
    let codes = table.len() / 3;
    plain_plane(h, &table[0..codes], p.y, r, marks, base, output);
    plain_plane(h, &table[codes..2 * codes], p.cb, r, marks, base, output);
    plain_plane(
        h,
        &table[2 * codes..3 * codes],
        p.cr,
        r,
        marks,
        base,
        output,
    );
}

// A part of at most 1,024 samples as a table. It is copied sample by sample, and not by the library's method, so that a
// slip in what a sample comes to can be planted, and is seen to be refused.
fn table_of(part: &[u16]) -> [u16; 1024]
    ensures is { result ≡ table 1024 (at part.now) }
    ensures low { (i : ℕ) → at result i ≤ 65535 }
{
    let n = part.len().min(1024);
    let mut table = [0u16; 1024];
    for s in 0..n {
        table[s] = part[s];
    }
    table
}

// With residual. The numbers of the cut serve three planes.
pub(crate) fn enhanced_planes(
    h: Header,
    y: Nlq,
    cb: Nlq,
    cr: Nlq,
    table: &[u16],
    r: Rows,
    base: &[u16],
    enhancement: &[u16],
    output: &mut [u16],
)
    requires lent { Lent h r table.now base.now output.old }
    requires enhanced { Enhanced h r y cb cr enhancement.now }
    ensures { output.new ≡ painted (in_pairs (extent h) r.first r.last) (enhanced_sample h y cb cr table.now base.now enhancement.now) output.old }
{
    let p = extent_of(h).planes();
    let cut = cut_numbers(h);
    let codes = table.len() / 3;
    let luma = table_of(&table[0..codes]);
    enhanced_plane(h, &luma, y, cut, p.y, r, base, enhancement, output);
    let blue = table_of(&table[codes..2 * codes]);
    enhanced_plane(h, &blue, cb, cut, p.cb, r, base, enhancement, output);
    let red = table_of(&table[2 * codes..3 * codes]);
    enhanced_plane(h, &red, cr, cut, p.cr, r, base, enhancement, output);
}
