// The ranges of a component's numbers, which are made of the header's. No test here leans on another, so all are made,
// and `&` joins them.
ghost use Rattle.std.specs.Prelude.{◌≡◌, ◌^◌, ◌≤◌, ltb};
ghost use Rattle.plan.specs.Ranges.{coefficient_fits, unsigned_fits};
ghost use Rattle.plan.specs.Rule7.{nlq_fits};

use plan::Nlq;
use plan::methods::integer_limit;
use plan::ranges::FittingHeader;

// A number of a sample's size.
pub(crate) fn sample_fits(depth: u32, v: u16) -> bool
    requires { depth ≤ 10 }
    ensures { result ≡ ltb v (2 ^ depth) }
{
    u64::from(v) < 1u64 << depth
}

pub(crate) fn coefficient_fits(h: FittingHeader, idc: u8, z: i64) -> bool
    ensures { result ≡ coefficient_fits h.header idc z }
{
    let top = (integer_limit(idc) << u32::from(h.header.d)) as i64;
    (-top <= z) & (z < top)
}

fn unsigned_fits(h: FittingHeader, v: u64) -> bool
    ensures { result ≡ unsigned_fits h.header v }
{
    v < (2u64 << u32::from(h.header.d))
}

#[tactic(auto, unfolding(plan::specs::Rule7::nlq_fits))]
pub(crate) fn nlq_fits(h: FittingHeader, q: Nlq) -> bool
    ensures { result ≡ nlq_fits h.header q }
{
    let offset = sample_fits(h.el_depth(), q.offset);
    let maximum = unsigned_fits(h, q.maximum);
    let slope = unsigned_fits(h, q.slope);
    let threshold = unsigned_fits(h, q.threshold);
    offset & (maximum & (slope & threshold))
}
