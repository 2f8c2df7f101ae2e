// The two passes of adding up: sums by the tables, kept in 32 bits in a run of their own, and a sample cut out of each.
ghost use Rattle.std.specs.Prelude.{◌≡◌, ◌+◌, ◌/◌, ◌^◌, ◌<◌, ◌≤◌, min, length};
ghost use Rattle.runs.specs.Runs.{painted, between};
ghost use Rattle.runs.specs.inner.Loops.{below};
ghost use Rattle.sums.specs.inner.Sums.{sixteenth, cut_of, summed, lowered_at};

use crate::{Addends, Cut};
use spans::four;

impl Addends<'_> {
    // Four sums, of four samples of each run that are loaded at once. They are stored after all loads.
    fn sum_four(self, base: &[u16], enhancement: &[u16], i: usize, sums: &mut [u32])
        requires { (i + 4 ≤ length base.now) × (i + 4 ≤ length enhancement.now) × (i + 4 ≤ length sums.old) }
        ensures { sums.new ≡ painted (between i (i + 4)) (summed self.entry.mapped.now self.entry.raised.now base.now enhancement.now) sums.old }
    {
        let j = i + 4;
        let w = four(&base[i..j]);
        let x = four(&enhancement[i..j]);
        let a = self.sum_of(w, x);
        let b = self.sum_of(w >> 16, x >> 16);
        let c = self.sum_of(w >> 32, x >> 32);
        let d = self.sum_of(w >> 48, x >> 48);
        sums[i] = a;
        sums[i + 1] = b;
        sums[i + 2] = c;
        sums[i + 3] = d;
    }

    // The sums of two runs, as far as all three go, four a turn.
    pub fn sum_up(self, base: &[u16], enhancement: &[u16], sums: &mut [u32])
        ensures { sums.new ≡ painted (below (min (length base.now) (length enhancement.now))) (summed self.entry.mapped.now self.entry.raised.now base.now enhancement.now) sums.old }
    {
        let n = base.len().min(enhancement.len()).min(sums.len());
        let turns = n / 4;
        for t in 0..turns {
            self.sum_four(base, enhancement, 4 * t, sums);
        }
        for i in 4 * turns..n {
            sums[i] = self.summed(base, enhancement, i);
        }
    }
}

// A sixteenth of a sum, shifted down. What it leaves out is shifted out at the top first: so the compiler knows that
// 15 bits are left, and packs eight of them at once.
fn shifted(shift: u32, sum: u32) -> u16
    requires { shift < 8 }
    ensures { result ≡ sixteenth sum / 2 ^ shift }
{
    ((sum << 13) >> (17 + shift)) as u16
}

impl Cut {
    pub(crate) fn lower(self, sum: u32) -> u16
        ensures { result ≡ cut_of self sum }
    {
        shifted(self.shift % 8, sum)
            .saturating_sub(self.low)
            .min(self.most)
    }

    // The sample of each sum. There is no table and no branch, so that eight are cut at once.
    pub fn lower_all(self, sums: &[u32], output: &mut [u16])
        ensures { output.new ≡ painted (below (length sums.now)) (lowered_at self sums.now) output.old }
    {
        for i in 0..sums.len().min(output.len()) {
            output[i] = self.lower(sums[i]);
        }
    }
}
