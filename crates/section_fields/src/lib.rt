// The fields of a section that have a rule of their own, and how each is named.
#![tactic(auto)]

ghost use Rattle.std.specs.Prelude.{true, ◌≡◌, ◌+◌, ◌^◌, ◌≤◌, IfOk};
ghost use Rattle.plan.specs.Ranges.{idc_fits, order_fits};
ghost use Rattle.fields.specs.inner.Readers.{as_read};
ghost use Rattle.fields.specs.declared.Width.TheVariants.{One, Four};
ghost use Rattle.fields.specs.declared.kinds.Kind.TheVariants.{MappingIdc};
ghost use Rattle.section_fields.specs.Fields.{asked, ranged, order_kind, integer_kind, fraction_kind, integer_width, numbers, signed, integer_fits};

use fields::kinds::Kind;
use fields::{Ask, Failure, Name, Width, at_most, raw};
use plan::methods::{MMR, integer_limit, most_idc, most_order};
use refusals::Refusal;

// What is asked of a field of section k.
pub fn asked(kind: Kind, k: usize, i: usize, j: usize, width: Width) -> Ask
    ensures { result ≡ asked kind k i j width }
{
    Ask {
        name: Name {
            kind: kind,
            first: k,
            second: i,
            third: j,
        },
        width: width,
        past: Refusal::Length,
    }
}

// mapping_idc of piece p.
pub fn idc(rest: &mut &[u8], k: usize, p: usize) -> Result<u8, Failure>
    ensures value { as_read result rest.new.now ≡ ranged (asked MappingIdc k p 0 One) (idc_fits k) rest.old.now }
    ensures small { IfOk result (λ v. v ≤ 1) }
{
    let a = asked(Kind::MappingIdc, k, p, 0, Width::One);
    let v = at_most(rest, a, u64::from(most_idc(k)), Refusal::Field)?;
    Ok(v as u8)
}

fn order_kind(idc: u8) -> Kind
    ensures { result ≡ order_kind idc }
{
    if idc == MMR {
        Kind::MmrOrderMinus1
    } else {
        Kind::PolyOrderMinus1
    }
}

// poly_order_minus1 or mmr_order_minus1 of piece p.
pub fn order(rest: &mut &[u8], k: usize, p: usize, idc: u8) -> Result<u8, Failure>
    ensures value { as_read result rest.new.now ≡ ranged (asked (order_kind idc) k p 0 One) (order_fits idc) rest.old.now }
    ensures fits { IfOk result (λ v. order_fits idc v ≡ true) }
{
    let a = asked(order_kind(idc), k, p, 0, Width::One);
    let v = at_most(rest, a, u64::from(most_order(idc)), Refusal::Field)?;
    Ok(v as u8)
}

// The kind of the integer part in place i of a row.
fn integer_kind(idc: u8, i: usize) -> Kind
    ensures { result ≡ integer_kind idc i }
{
    if idc != MMR {
        return Kind::PolyCoefInt;
    }
    if i == 0 {
        Kind::MmrConstantInt
    } else {
        Kind::MmrCoefInt
    }
}

// The kind of a number's fraction, by its integer part's.
pub fn fraction_kind(kind: Kind) -> Kind
    ensures { result ≡ fraction_kind kind }
{
    match kind {
        Kind::PolyCoefInt => Kind::PolyCoef,
        Kind::HdrInMaxInt => Kind::HdrInMax,
        Kind::SlopeInt => Kind::Slope,
        Kind::ThresholdInt => Kind::Threshold,
        Kind::MmrConstantInt => Kind::MmrConstant,
        Kind::MmrCoefInt => Kind::MmrCoef,
        _ => kind,
    }
}

fn integer_width(idc: u8) -> Width
    ensures { result ≡ integer_width idc }
{
    if idc == MMR { Width::Four } else { Width::One }
}

// How many numbers an integer part's bytes have.
fn integer_numbers(idc: u8) -> u64
    ensures { (result ≡ numbers (integer_width idc)) × (result ≤ 2 ^ 32) }
{
    if idc == MMR { 4294967296 } else { 256 }
}

fn integer_fits(idc: u8, v: u64) -> bool
    ensures { result ≡ integer_fits idc v }
{
    let m = integer_limit(idc);
    let top = integer_numbers(idc);
    (v < m) | ((top - m <= v) & (v <= top - 1))
}

// What is asked of the fraction in place i of piece p.
pub fn fraction_asked(k: usize, p: usize, idc: u8, i: usize) -> Ask
    ensures { result ≡ asked (fraction_kind (integer_kind idc i)) k p i Four }
{
    asked(fraction_kind(integer_kind(idc, i)), k, p, i, Width::Four)
}

// The integer part in place i of piece p, as its bytes stand.
pub fn integer(rest: &mut &[u8], k: usize, p: usize, idc: u8, i: usize) -> Result<u32, Failure>
    ensures value { as_read result rest.new.now ≡ ranged (asked (integer_kind idc i) k p i (integer_width idc)) (integer_fits idc) rest.old.now }
    ensures fits { IfOk result (λ v. integer_fits idc v ≡ true) }
{
    let a = asked(integer_kind(idc, i), k, p, i, integer_width(idc));
    let mut after = *rest;
    let v = raw(&mut after, a)?;
    if !integer_fits(idc, v) {
        return Err(Failure {
            refusal: Refusal::Field,
            name: a.name,
        });
    }
    *rest = after;
    Ok(v as u32)
}

// The number that an integer part's bytes stand for.
pub fn signed(idc: u8, v: u32) -> i64
    ensures { result ≡ signed (integer_width idc) v }
{
    let top = integer_numbers(idc);
    if u64::from(v) < top / 2 {
        return i64::from(v);
    }
    i64::from(v) - (top as i64)
}
