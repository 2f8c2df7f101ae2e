// Row pairs of both chroma planes, one after the other.
ghost use Rattle.std.specs.Prelude.{◌≡◌, ◌+◌, length};
ghost use Rattle.runs.specs.Runs.{painted};
ghost use Rattle.mmr.specs.inner.Rows.{place_of, chroma_rows, plane_value, RowsGiven};

use crate::both::Both;
use crate::columns::{Place, compose_columns};
use crate::inputs::Inputs;
use marks::is_full;
use picture::Planes;

// Where the rows of row pair k lie in a run, which they lie in: then no place wraps.
fn place_of(p: Planes, k: usize, run: &[u16]) -> Place
    requires { RowsGiven p k (k + 1) (length run.now) }
    ensures { result ≡ place_of p k }
{
    Place {
        columns: p.cb.row,
        upper: p.y.start + p.y.row * k,
        cb: p.cb.start + p.cb.row * k,
        cr: p.cr.start + p.cr.row * k,
    }
}

// The row pairs from `first` up to, but not including, `last`; one that is full by the marks is kept.
pub(crate) fn compose_rows(
    both: &Both,
    inputs: &Inputs,
    p: Planes,
    first: usize,
    last: usize,
    output: &mut [u16],
)
    requires base { RowsGiven p first last (length inputs.now.base.now) }
    requires enhancement { RowsGiven p first last (length inputs.now.enhancement.now) }
    requires output { RowsGiven p first last (length output.old) }
    ensures { output.new ≡ painted (chroma_rows p first last inputs.now.marks.now) (plane_value both.now inputs.now p) output.old }
{
    for k in first..last {
        if !is_full(inputs.marks, k) {
            let place = place_of(p, k, inputs.base);
            compose_columns(both, inputs, place, output);
        }
    }
}
