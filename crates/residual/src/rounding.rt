// The reconstruction of one HDR sample (5.4.3.3), in two parts: what is done to the residual, and what is done to a
// mapped sample that has none.
ghost use Rattle.std.specs.Prelude.{◌≡◌, ◌≤◌, ◌^◌, pos, nat_abs};
ghost use Rattle.standard.specs.Residual.{reconstructed};
ghost use Rattle.residual.specs.inner.Raising.{raised};

pub(crate) fn power(k: u32) -> u64
    requires { k ≤ 56 }
    ensures { result ≡ 2 ^ k }
{
    1u64 << k
}

// The residual, 2^17 and the rounding term higher: unsigned, so that a sum with a mapped sample needs no sign.
pub(crate) fn raise(out: u32, r: i64) -> u32
    requires { (out ≤ 12) × (nat_abs r ≤ 2 ^ 17) }
    ensures { result ≡ raised out r }
{
    (r + (131072 + (power(15 - out) as i64))) as u32
}

// The HDR sample of a mapped sample without residual. The sum is cut at 16 bits, which it has throughout, so that a
// loop finishes eight at once.
#[tactic(auto, using(crate::proofs::Raising::plain))]
pub(crate) fn finish(out: u32, v: u16) -> u16
    requires { (1 ≤ out) × (out ≤ 12) }
    ensures { result ≡ reconstructed out v (pos 0) }
{
    let half = power(15 - out) as u16;
    v.saturating_add(half) >> (16 - out)
}
