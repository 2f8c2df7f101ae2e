// What residuals are computed with: EL_bit_depth, coefficient_log2_denom and hdr_bit_depth.
ghost use Rattle.std.specs.Prelude.{◌+◌, ◌≤◌};

#[derive(Clone, Copy)]
pub(crate) struct Depths {
    pub(crate) el: u32,
    pub(crate) d: u32,
    pub(crate) out: u32,
    ghost shallow: { el ≤ 10 },
    ghost fraction: { d ≤ 32 },
    ghost deep: { el + 5 ≤ d },
    ghost out_depth: { out ≤ 12 },
}
