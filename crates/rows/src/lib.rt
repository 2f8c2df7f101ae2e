// Row pairs of one plane, by tables that are made once a call.
#![tactic(auto)]

mod adding; // a stretch of samples with residual, part by part
mod apart; // row pairs that stand apart, in step
mod each; // row pair by row pair

ghost use Rattle.std.specs.Prelude.{◌≡◌};
ghost use Rattle.rows.specs.inner.Rows.{looked_up_rows, added_up_rows};

use each::{add_up_each, look_up_each};
use picture::Plane;
use sums::Tables;

// The row pairs from `first` up to, but not including, `last`. They are a picture's, and a plane is lent beside them.
#[derive(Clone, Copy)]
pub struct Rows {
    pub first: usize,
    pub last: usize,
}

// Looks the samples of the row pairs up, and keeps those that are full by the marks. Where they do not all lie within
// both runs, nothing is written.
pub fn look_up_rows(
    table: &[u16; 1024],
    p: Plane,
    r: Rows,
    marks: &[u8],
    base: &[u16],
    output: &mut [u16],
)
    ensures { output.new ≡ looked_up_rows table.now p r marks.now base.now output.old }
{
    let in_base = p.lies(r.first, r.last, base.len());
    let in_output = p.lies(r.first, r.last, output.len());
    if in_base & in_output {
        look_up_each(table, p, r, marks, base, output);
    }
}

// Adds mapped samples and raised residuals up, and cut the sums.
pub fn add_up_rows(
    tables: Tables,
    p: Plane,
    r: Rows,
    base: &[u16],
    enhancement: &[u16],
    output: &mut [u16],
)
    ensures { output.new ≡ added_up_rows tables.entry.mapped.now tables.entry.raised.now tables.entry.cut p r base.now enhancement.now output.old }
{
    let in_base = p.lies(r.first, r.last, base.len());
    let in_enhancement = p.lies(r.first, r.last, enhancement.len());
    let in_output = p.lies(r.first, r.last, output.len());
    if in_base & (in_enhancement & in_output) {
        add_up_each(tables, p, r, base, enhancement, output);
    }
}
