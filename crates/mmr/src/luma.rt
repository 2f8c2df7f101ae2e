// Luma down-sampled to a chroma position.
ghost use Rattle.std.specs.Prelude.{◌≡◌, ◌+◌, ◌*◌, ◌<◌, ◌≤◌, length};
ghost use Rattle.runs.specs.inner.Loops.{at};
ghost use Rattle.mmr.specs.inner.Luma.{weighted, luma_beside};

fn row_of(run: &[u16], left: usize, middle: usize) -> u32
    requires { (left < length run.now) × (middle + 1 < length run.now) }
    ensures { (result ≡ weighted (at run.now left) (at run.now middle) (at run.now (middle + 1))) × (result ≤ 65535) }
{
    let a = u32::from(run[left]);
    let b = u32::from(run[middle]);
    let c = u32::from(run[middle + 1]);
    (a + 2 * b + c + 2) >> 2
}

// The luma sample of chroma column i between two rows of w samples, of which the upper begins at an index of the run.
// Where there is no column before it the first stands for that one.
pub(crate) fn down_sample(run: &[u16], w: usize, upper: usize, i: usize) -> u16
    requires { (2 * i + 1 < w) × (upper + 2 * w ≤ length run.now) }
    ensures { result ≡ luma_beside run.now w upper i }
{
    let middle = upper + 2 * i;
    let left = upper + (2 * i).saturating_sub(1);
    let above = row_of(run, left, middle);
    let below = row_of(run, left + w, middle + w);
    ((above + below + 1) >> 1) as u16
}
