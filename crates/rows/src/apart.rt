// Row pairs that stand apart, because those between them are full.
ghost use Rattle.std.specs.Prelude.{◌≡◌, ◌%◌, ◌≤◌, min, length};
ghost use Rattle.runs.specs.Runs.{painted};
ghost use Rattle.spans.specs.inner.Spans.{looked_up, FourWithin, in_four};
ghost use Rattle.picture.specs.inner.Planes.{row_start};
ghost use Rattle.rows.specs.inner.Rows.{Next};

use marks::is_full;
use picture::Plane;
use spans::apart::{Stretches, look_up_in_step};

// The next row pair after k that is not full, or `last` where there is none before it.
pub(crate) fn next_open(marks: &[u8], k: usize, last: usize) -> usize
    requires { k ≤ last }
    ensures { Next marks.now k last result }
{
    for j in k..last {
        if !is_full(marks, j + 1) {
            return j + 1;
        }
    }
    last
}

// Looks four row pairs up, in step: those of a plane whose row pairs are whole lines of the caches.
pub(crate) fn look_up_apart(
    table: &[u16; 1024],
    p: Plane,
    a: usize,
    b: usize,
    c: usize,
    d: usize,
    base: &[u16],
    output: &mut [u16],
)
    requires { FourWithin (row_start p a) (row_start p b) (row_start p c) (row_start p d) p.row (min (length base.now) (length output.old)) × (p.row % 32 ≡ 0) }
    ensures { output.new ≡ painted (in_four (row_start p a) (row_start p b) (row_start p c) (row_start p d) p.row) (looked_up table.now base.now) output.old }
{
    let start = p.start;
    let row = p.row;
    let s = Stretches {
        a: start + row * a,
        b: start + row * b,
        c: start + row * c,
        d: start + row * d,
        n: row,
    };
    look_up_in_step(table, s, base, output);
}
