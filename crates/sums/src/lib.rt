// Samples added up by two tables, over whole slices: mapped samples and raised residuals, of whose sums the samples
// are cut out.
#![tactic(auto)]

mod entries; // what is added up for one sample
mod passes; // the sums of two runs, and samples cut out of sums

ghost use Rattle.std.specs.Prelude.{◌≡◌, ◌+◌};
ghost use Rattle.sums.specs.inner.Sums.{cut_of};

use entries::sum;

// How a sample is cut out of a sixteenth of a sum: shifted, lowered, and at most so high.
#[derive(Clone, Copy)]
pub struct Cut {
    pub shift: u32,
    pub low: u16,
    pub most: u16,
}

// What is added up: mapped samples and raised residuals.
#[derive(Clone, Copy)]
pub struct Addends<'a> {
    pub mapped: &'a [u16; 1024],
    pub raised: &'a [u32; 1024],
}

// What the samples of a plane are added up by: its mapped samples, its raised residuals, and how their sums are cut.
#[derive(Clone, Copy)]
pub struct Tables<'a> {
    pub mapped: &'a [u16; 1024],
    pub raised: &'a [u32; 1024],
    pub cut: Cut,
}

impl Cut {
    // The sample that is cut out of the sum of one mapped sample and a raised residual.
    pub fn cut_out(self, v: u16, r: u32) -> u16
        ensures { result ≡ cut_of self (v + r) }
    {
        self.lower(sum(v, r))
    }
}
