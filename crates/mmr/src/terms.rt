// What the coefficients are multiplied by, tt[0] to tt[21], as unsigned numbers of at most 2 ^ 20.
ghost use Rattle.std.specs.Prelude.{◌≡◌, ℕ, ◌+◌, ◌-◌, ◌*◌, ◌≤◌, ◌^◌};
ghost use Rattle.runs.specs.inner.Loops.{at};
ghost use Rattle.standard.specs.Mmr.{◌<<◌, terms};
ghost use Rattle.mmr.specs.inner.Terms.{TermsGiven, Agreed, high_of};

use plan::limits::ROW;

// Terms up to an order; in the places of the others nothing is large.
#[derive(Clone, Copy)]
pub(crate) struct Terms {
    pub order: usize,
    pub tt: [u64; ROW],
    ghost some_order: { 1 ≤ order },
    ghost few_orders: { order ≤ 3 },
    ghost low: { (i : ℕ) → at tt i ≤ 2 ^ 20 },
}

// A number of k bits raised to 20.
fn raise(k: u32, x: u64) -> u64
    requires { (k ≤ 20) × (x ≤ 2 ^ k) }
    ensures { (result ≡ x << (20 - k)) × (result ≤ 2 ^ 20) }
{
    x << (20 - k)
}

fn product(depth: u32, x: u64, y: u64) -> u64
    requires { (depth ≤ 10) × (x ≤ 2 ^ depth) × (y ≤ 2 ^ depth) }
    ensures { (result ≡ (x * y) << (20 - 2 * depth)) × (result ≤ 2 ^ 20) }
{
    raise(2 * depth, x * y)
}

// The product of two numbers with 20 bits of fraction, with 20 again.
pub(crate) fn high(x: u64, y: u64) -> u64
    requires { (x ≤ 2 ^ 20) × (y ≤ 2 ^ 20) }
    ensures { (result ≡ high_of x y) × (result ≤ 2 ^ 20) }
{
    (x * y) >> 20
}

// The constant's term and those of the first order, and 0 in the places of the others.
fn first_terms(depth: u32, s0: u16, s1: u16, s2: u16) -> [u64; ROW]
    requires { TermsGiven depth s0 s1 s2 }
    ensures { Agreed 8 result (terms depth s0 s1 s2) }
{
    let a = u64::from(s0);
    let b = u64::from(s1);
    let c = u64::from(s2);
    let t1 = raise(depth, a);
    let t2 = raise(depth, b);
    let t3 = raise(depth, c);
    let t4 = product(depth, a, b);
    let t5 = product(depth, a, c);
    let t6 = product(depth, b, c);
    let t7 = high(t4, t3);
    [
        1048576, t1, t2, t3, t4, t5, t6, t7, 0, 0, 0, 0, 0, 0, 0, 0, 0, 0, 0, 0, 0, 0,
    ]
}

// The terms up to an order. Each of the second is the square of one of the first, and each of the third the product of
// both.
pub(crate) fn terms_of(order: usize, depth: u32, s0: u16, s1: u16, s2: u16) -> Terms
    requires order_bound { (1 ≤ order) × (order ≤ 3) }
    requires terms_given { TermsGiven depth s0 s1 s2 }
    ensures order { result.order ≡ order }
    ensures terms { Agreed (7 * order + 1) result.tt (terms depth s0 s1 s2) }
{
    let mut tt = first_terms(depth, s0, s1, s2);
    if order >= 2 {
        for j in 1..8 {
            tt[7 + j] = high(tt[j], tt[j]);
        }
    }
    if order >= 3 {
        for k in 1..8 {
            tt[14 + k] = high(tt[k], tt[7 + k]);
        }
    }
    Terms { order, tt }
}
