// What goes by mapping_idc: 0 is the polynomial (5.3.3.2), 1 is MMR (5.3.3.3).
ghost use Rattle.std.specs.Prelude.{◌≡◌, cond, ◌≤◌, eqb};
ghost use Rattle.plan.specs.Methods.{method};
ghost use Rattle.plan.specs.Ranges.{integer_limit};
ghost use Rattle.plan.specs.Rule7.{coefficients_used};

// The number, as a block and a plan carry it.
pub const MMR: u8 = 1;

#[derive(Clone, Copy, PartialEq, Eq)]
pub enum Method {
    Polynomial,
    Mmr,
}

impl Method {
    // None where the standard has no such method.
    pub fn of(idc: u8) -> Option<Method>
        ensures { result ≡ method idc }
    {
        match idc {
            0 => Some(Method::Polynomial),
            MMR => Some(Method::Mmr),
            _ => None,
        }
    }
}

// The greatest mapping_idc of component k, which is counted where a block or a text is walked: luma, 0, has no MMR.
pub fn most_idc(k: usize) -> u8
    ensures { result ≡ cond (eqb k 0) 0 1 }
{
    if k == 0 { 0 } else { MMR }
}

// The greatest poly_order_minus1 or mmr_order_minus1.
pub fn most_order(idc: u8) -> u8
    ensures { result ≡ cond (eqb idc 1) 2 1 }
{
    match Method::of(idc) {
        Some(Method::Mmr) => 2,
        _ => 1,
    }
}

// How many coefficients a piece of an order has: the polynomial's, or the constant and 7 for each order.
pub fn coefficients_used(idc: u8, order: u8) -> usize
    ensures is { result ≡ coefficients_used idc order }
    ensures few { result ≤ 1793 }
{
    match Method::of(idc) {
        Some(Method::Mmr) => 7 * (usize::from(order) + 1) + 1,
        _ => usize::from(order) + 2,
    }
}

// What the integer part of a coefficient is below, and its negative is at most.
pub fn integer_limit(idc: u8) -> u64
    ensures { (result ≡ integer_limit idc) × (result ≤ 65536) }
{
    match Method::of(idc) {
        Some(Method::Mmr) => 65536,
        _ => 64,
    }
}
