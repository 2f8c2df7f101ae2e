// The table of mapped samples by the rows of the pieces. What it asks is tested before, once a table.
ghost use Rattle.std.specs.Prelude.{◌≡◌, ◌≤◌, length};
ghost use Rattle.runs.specs.Runs.{painted, between};
ghost use Rattle.mapping.specs.inner.Steps.{ByRows, StretchGiven, by_row, table_by};

use crate::copies::Polynomial;
use crate::polynomial::{Scale, course_from, map_step};
use plan::limits::{PIECES, PIVOTS};
use steps::{clamp, cut_at, pivots_of};

// The codes from `from` up to, but not including, `to`, which all come to one value.
fn hold(table: &mut [u16; 1024], from: u16, to: u16, value: u16)
    requires { (from ≤ to) × (to ≤ 1024) × (length table.old ≡ 1024) }
    ensures { table.new ≡ painted (between from to) (λ j. value) table.old }
{
    table[from as usize..to as usize].fill(value);
}

// The codes of one piece, of which none is clamped. The polynomial goes on from code to code by its differences: there
// is no product in the loop, and no branch.
fn go_on(table: &mut [u16; 1024], from: u16, to: u16, scale: Scale, row: [i64; 3])
    requires { StretchGiven scale.depth from to row × (length table.old ≡ 1024) }
    ensures { table.new ≡ painted (between from to) (by_row scale.depth scale.d row) table.old }
{
    let course = course_from(scale.depth, from, row);
    let bend = course.bend;
    let mut value = course.value;
    let mut growth = course.growth;
    for s in from..to {
        table[s as usize] = cut_at(scale.d, value);
        value += growth;
        growth += bend;
    }
}

// Codes come in order, and so do their pieces: none is searched. Codes below the first pivot are held at it, with
// piece 0, and codes from the last one on at that, with piece n + 1; in between a piece has the codes up to its next
// pivot, or none where that is no greater.
pub(crate) fn table_by(
    scale: Scale,
    n: usize,
    preds: [u16; PIVOTS],
    polynomials: &[Polynomial; PIECES],
) -> [u16; 1024]
    requires { ByRows scale.depth n preds polynomials.now }
    ensures { result ≡ table_by scale.depth scale.d n preds polynomials.now }
{
    let pivots = pivots_of(preds);
    let codes = (1u64 << scale.depth) as u16;
    let mut table = [0u16; 1024];
    let mut s = pivots[0];
    hold(&mut table, 0, s, map_step(scale, s, polynomials[0].row));
    for p in 0..n + 1 {
        let end = clamp(0, codes, pivots[p + 1]);
        go_on(&mut table, s, end, scale, polynomials[p].row);
        s = end;
    }
    if s < codes {
        hold(
            &mut table,
            s,
            codes,
            map_step(scale, s, polynomials[n + 1].row),
        );
    }
    table
}
