// Numbers with a fraction: an integer part, and a fraction of four bytes below 2 ^ d.
ghost use Rattle.std.specs.Prelude.{◌≡◌, ◌^◌, ◌<◌, ◌≤◌, ltb, IfOk};
ghost use Rattle.fields.specs.inner.Readers.{as_read};
ghost use Rattle.section_fields.specs.Fields.{ranged};
ghost use Rattle.sections.specs.Sections.{coefficient, unsigned};

use fields::kinds::Kind;
use fields::{Ask, Failure, Width, at_most, below};
use plan::ranges::FittingHeader;
use refusals::Refusal;
use section_fields::{asked, fraction_asked, fraction_kind, integer, signed};

// 2 ^ k: what a number of k bits is below.
fn power(k: u32) -> u64
    requires { k ≤ 32 }
    ensures { (result ≡ 2 ^ k) × (result ≤ 2 ^ 32) }
{
    1u64 << k
}

// A field below 2 ^ bits.
pub(crate) fn below_power(rest: &mut &[u8], a: Ask, bits: u32) -> Result<u64, Failure>
    requires { bits ≤ 32 }
    ensures value { as_read result rest.new.now ≡ ranged a (λ v. ltb v (2 ^ bits)) rest.old.now }
    ensures small { IfOk result (λ v. v < 2 ^ bits) }
{
    below(rest, a, power(bits), Refusal::Field)
}

// The coefficient in place i of piece p. The fraction adds upward, also to a negative integer part. Readers are handed
// `rest`, the header and the section one by one: a struct would hold the `&mut` that a reader moves on, and be lent
// anew at each `?`.
#[tactic(auto, using(crate::proofs::Making::sum_fits))]
pub(crate) fn coefficient(
    rest: &mut &[u8],
    h: FittingHeader,
    k: usize,
    p: usize,
    idc: u8,
    i: usize,
) -> Result<i64, Failure>
    ensures { as_read result rest.new.now ≡ coefficient h.header k p idc i rest.old.now }
{
    let bits = h.fraction_bits();
    let one = power(bits);
    let n = integer(rest, k, p, idc, i)?;
    let f = below_power(rest, fraction_asked(k, p, idc, i), bits)?;
    let a = signed(idc, n);
    Ok(a * (one as i64) + (f as i64))
}

// A number whose integer part is 0 or 1, by its integer part's kind.
pub(crate) fn unsigned(
    rest: &mut &[u8],
    h: FittingHeader,
    k: usize,
    kind: Kind,
) -> Result<u64, Failure>
    ensures { as_read result rest.new.now ≡ unsigned h.header k kind rest.old.now }
{
    let bits = h.fraction_bits();
    let one = power(bits);
    let n = at_most(rest, asked(kind, k, 0, 0, Width::One), 1, Refusal::Field)?;
    let f = below_power(rest, asked(fraction_kind(kind), k, 0, 0, Width::Four), bits)?;
    Ok(n * one + f)
}
