// What row pairs are composed of, but for the plan.
ghost use Rattle.std.specs.Prelude.{◌≡◌, ◌<◌, length};
ghost use Rattle.mmr.specs.inner.Columns.{finished_by};

use sums::Cut;

// The raised residuals of both components, how a sample is cut out of a sum, which row pairs are full, and the samples.
#[derive(Clone, Copy)]
pub struct Inputs<'a> {
    pub cb_raised: &'a [u32; 1024],
    pub cr_raised: &'a [u32; 1024],
    pub cut: Cut,
    pub marks: &'a [u8],
    pub base: &'a [u16],
    pub enhancement: &'a [u16],
}

impl<'a> Inputs<'a> {
    // The HDR sample at index j of one component: a mapped sample, with the raised residual added, and cut.
    #[tactic(auto, unfolding(crate::specs::inner::Columns::finished_by))]
    pub(crate) fn finished(&self, raised: &[u32; 1024], v: u16, j: usize) -> u16
        requires { j < length self.now.enhancement.now }
        ensures { result ≡ finished_by self.now.cut v raised.now self.now.enhancement.now j }
    {
        let e = self.enhancement[j];
        self.cut.cut_out(v, raised[(e % 1024) as usize])
    }
}
