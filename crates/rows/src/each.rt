// One row pair after the other: each is a part of the runs, lent to a loop over slices. That it lies in them is asked
// by clauses, run by run: a struct would hold the output, a `&mut`, beside what is known of it, which no generated
// proof covers.
ghost use Rattle.std.specs.Prelude.{◌≡◌, ◌+◌, ◌<◌, ◌≤◌, length};
ghost use Rattle.runs.specs.Runs.{painted, between};
ghost use Rattle.marks.specs.inner.Marks.{not_full};
ghost use Rattle.spans.specs.inner.Spans.{looked_up};
ghost use Rattle.sums.specs.inner.Sums.{added_up};
ghost use Rattle.picture.specs.inner.Planes.{row_start, in_rows, InPlane};
ghost use Rattle.rows.specs.inner.Rows.{part_places, RowsIn};

use crate::Rows;
use crate::adding::{PART, add_up};
use crate::apart::{look_up_apart, next_open};
use marks::is_full;
use picture::Plane;
use spans::look_up;
use sums::Tables;

fn look_up_row(table: &[u16; 1024], p: Plane, k: usize, base: &[u16], output: &mut [u16])
    requires { InPlane p k (k + 1) (length base.now) × InPlane p k (k + 1) (length output.old) }
    ensures { output.new ≡ painted (between (row_start p k) (row_start p (k + 1))) (looked_up table.now base.now) output.old }
{
    let a = p.start + p.row * k;
    let b = a + p.row;
    look_up(table, &base[a..b], &mut output[a..b]);
}

// Looks row pair k up where it is not full by the marks, and where the one after it is full, so that it stands apart,
// the next three that are not full with it, in step, if they are whole lines of the caches. Gives the first row pair
// that is not dealt with.
fn look_up_next(
    table: &[u16; 1024],
    p: Plane,
    k: usize,
    last: usize,
    marks: &[u8],
    base: &[u16],
    output: &mut [u16],
) -> usize
    requires k_lt_last { k < last }
    requires in_plane { InPlane p k last (length base.now) × InPlane p k last (length output.old) }
    ensures on { (k < result) × (result ≤ last) }
    ensures paints { output.new ≡ painted (in_rows p (not_full k result marks.now)) (looked_up table.now base.now) output.old }
{
    if is_full(marks, k) {
        return k + 1;
    }
    if is_full(marks, k + 1) & (p.row % 32 == 0) {
        let b = next_open(marks, k, last);
        let c = next_open(marks, b, last);
        let d = next_open(marks, c, last);
        if d < last {
            look_up_apart(table, p, k, b, c, d, base, output);
            return d + 1;
        }
    }
    look_up_row(table, p, k, base, output);
    k + 1
}

// A row pair that is full by the marks is kept.
pub(crate) fn look_up_each(
    table: &[u16; 1024],
    p: Plane,
    r: Rows,
    marks: &[u8],
    base: &[u16],
    output: &mut [u16],
)
    requires { RowsIn p r base.now × RowsIn p r output.old }
    ensures { output.new ≡ painted (in_rows p (not_full r.first r.last marks.now)) (looked_up table.now base.now) output.old }
{
    let last = r.last;
    let mut k = r.first;
    // one turn deals with one row pair or with several, so that no range has its turns
    while k < last {
        k = look_up_next(table, p, k, last, marks, base, output);
    }
}

fn add_up_row(
    tables: Tables,
    p: Plane,
    k: usize,
    base: &[u16],
    enhancement: &[u16],
    sums: &mut [u32; PART],
    output: &mut [u16],
)
    requires { InPlane p k (k + 1) (length base.now) × (InPlane p k (k + 1) (length enhancement.now) × InPlane p k (k + 1) (length output.old)) }
    ensures { output.new ≡ painted (between (row_start p k) (row_start p (k + 1))) (added_up tables.entry.mapped.now tables.entry.raised.now tables.entry.cut base.now enhancement.now) output.old }
{
    let a = p.start + p.row * k;
    let b = a + p.row;
    add_up(
        tables,
        &base[a..b],
        &enhancement[a..b],
        sums,
        &mut output[a..b],
    );
}

pub(crate) fn add_up_each(
    tables: Tables,
    p: Plane,
    r: Rows,
    base: &[u16],
    enhancement: &[u16],
    output: &mut [u16],
)
    requires { RowsIn p r base.now × (RowsIn p r enhancement.now × RowsIn p r output.old) }
    ensures { output.new ≡ painted (in_rows p (between r.first r.last)) (added_up tables.entry.mapped.now tables.entry.raised.now tables.entry.cut base.now enhancement.now) output.old }
{
    let mut sums = [0u32; PART];
    for k in r.first..r.last {
        add_up_row(tables, p, k, base, enhancement, &mut sums, output);
    }
}
