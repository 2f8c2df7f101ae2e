// A stretch of samples added up by two tables, part by part, so that the sums of a part are near when they are cut.
ghost use Rattle.std.specs.Prelude.{◌≡◌, min, length};
ghost use Rattle.runs.specs.Runs.{painted};
ghost use Rattle.runs.specs.inner.Loops.{below};
ghost use Rattle.sums.specs.inner.Sums.{added_up};
ghost use Rattle.rows.specs.inner.Rows.{part_places};

use sums::{Addends, Tables};

// So many sums stay in the nearest cache from the first pass to the second.
pub(crate) const PART: usize = 128;

// Writes what is cut out of each sum of a mapped sample and a raised residual, part by part and each in two passes:
// the first goes by the tables; the second has no table and no branch, so that eight samples are cut at once, while
// their sums are near. The places of the sums are lent, and what stands there is nobody's.
pub(crate) fn add_up(
    tables: Tables,
    base: &[u16],
    enhancement: &[u16],
    sums: &mut [u32; PART],
    output: &mut [u16],
)
    ensures { output.new ≡ painted (below (min (length base.now) (length enhancement.now))) (added_up tables.entry.mapped.now tables.entry.raised.now tables.entry.cut base.now enhancement.now) output.old }
{
    let n = base.len().min(enhancement.len()).min(output.len());
    let addends = Addends {
        mapped: tables.mapped,
        raised: tables.raised,
    };
    for i in (0..n).step_by(PART) {
        let j = i + PART.min(n - i);
        addends.sum_up(&base[i..j], &enhancement[i..j], sums);
        tables.cut.lower_all(sums, &mut output[i..j]);
    }
}
