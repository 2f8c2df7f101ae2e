// What is added up for one sample, whatever the samples: the remainders are indices of the tables.
ghost use Rattle.std.specs.Prelude.{◌≡◌, ◌+◌, ◌%◌, ◌^◌, ◌<◌, length};
ghost use Rattle.sums.specs.inner.Sums.{sum_of, summed};

use crate::Addends;

// A mapped sample and a raised residual, in 32 bits whatever the tables hold.
pub(crate) fn sum(v: u16, r: u32) -> u32
    ensures { result ≡ (v + r) % 2 ^ 32 }
{
    u32::from(v).wrapping_add(r)
}

impl Addends<'_> {
    // Of two samples that are the lowest bits of two numbers.
    pub(crate) fn sum_of(self, s: u64, e: u64) -> u32
        ensures { result ≡ sum_of self.entry.mapped.now self.entry.raised.now s e }
    {
        let v = self.mapped[(s % 1024) as usize];
        let r = self.raised[(e % 1024) as usize];
        sum(v, r)
    }

    pub(crate) fn summed(self, base: &[u16], enhancement: &[u16], i: usize) -> u32
        requires { (i < length base.now) × (i < length enhancement.now) }
        ensures { result ≡ summed self.entry.mapped.now self.entry.raised.now base.now enhancement.now i }
    {
        let s = base[i];
        let e = enhancement[i];
        self.sum_of(s as u64, e as u64)
    }
}
