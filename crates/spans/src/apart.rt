// Stretches of samples that stand apart, looked up in step: one after the other, the memory fetches ahead into what
// lies between them.
ghost use Rattle.std.specs.Prelude.{◌≡◌, ◌+◌, ◌%◌, ◌≤◌, min, leb, length};
ghost use Rattle.runs.specs.Runs.{painted, between};
ghost use Rattle.spans.specs.inner.Spans.{looked_up, FourWithin, four_lie, in_four, in_step};

use crate::look_up_eight;

// Four stretches of n places each, from a, b, c and d on.
#[derive(Clone, Copy)]
pub struct Stretches {
    pub a: usize,
    pub b: usize,
    pub c: usize,
    pub d: usize,
    pub n: usize,
}

impl Stretches {
    fn lie_within(self, places: usize) -> bool
        ensures { result ≡ four_lie self.a self.b self.c self.d self.n places }
    {
        let n = self.n;
        (ends_within(self.a, n, places) & ends_within(self.b, n, places))
            & (ends_within(self.c, n, places) & ends_within(self.d, n, places))
    }
}

// Whether a stretch of n places ends within so many. The sum could wrap, so it is not made.
fn ends_within(start: usize, n: usize, places: usize) -> bool
    ensures { result ≡ leb (start + n) places }
{
    n <= places && start <= places - n
}

// As many samples as a line of the caches has bytes for: fewer a turn, and a stretch is left before its line is used
// up.
fn look_up_line(table: &[u16; 1024], base: &[u16], i: usize, output: &mut [u16])
    requires { (i + 32 ≤ length base.now) × (i + 32 ≤ length output.old) }
    ensures { output.new ≡ painted (between i (i + 32)) (looked_up table.now base.now) output.old }
{
    look_up_eight(table, base, i, output);
    look_up_eight(table, base, i + 8, output);
    look_up_eight(table, base, i + 16, output);
    look_up_eight(table, base, i + 24, output);
}

// A line of each stretch, i places on.
fn line_of_each(table: &[u16; 1024], s: Stretches, i: usize, base: &[u16], output: &mut [u16])
    requires { FourWithin (s.a + i) (s.b + i) (s.c + i) (s.d + i) 32 (min (length base.now) (length output.old)) }
    ensures { output.new ≡ painted (in_four (s.a + i) (s.b + i) (s.c + i) (s.d + i) 32) (looked_up table.now base.now) output.old }
{
    look_up_line(table, base, s.a + i, output);
    look_up_line(table, base, s.b + i, output);
    look_up_line(table, base, s.c + i, output);
    look_up_line(table, base, s.d + i, output);
}

fn look_up_four_stretches(table: &[u16; 1024], s: Stretches, base: &[u16], output: &mut [u16])
    requires { FourWithin s.a s.b s.c s.d s.n (min (length base.now) (length output.old)) × (s.n % 32 ≡ 0) }
    ensures { output.new ≡ painted (in_four s.a s.b s.c s.d s.n) (looked_up table.now base.now) output.old }
{
    for t in 0..s.n / 32 {
        line_of_each(table, s, 32 * t, base, output);
    }
}

// Writes what the table has for each sample of four stretches: in step, a line of each a turn. Where they are no whole
// lines, or do not all lie within both runs, nothing is written.
pub fn look_up_in_step(table: &[u16; 1024], s: Stretches, base: &[u16], output: &mut [u16])
    ensures { output.new ≡ in_step s.a s.b s.c s.d s.n table.now base.now output.old }
{
    if (s.n % 32 == 0) & s.lie_within(base.len().min(output.len())) {
        look_up_four_stretches(table, s, base, output);
    }
}
