// Fields of bytes, read from first byte to last. A reader is lent what is left of the bytes. It answers a value and
// moves on past it, or it answers which field failed and by which rule, and what is left then begins with that field.
#![tactic(auto)]

pub mod kinds; // the kinds of fields
pub mod numbers; // big-endian numbers that stand at a place

ghost use Rattle.std.specs.Prelude.{◌^◌, Bool, true, ℕ, ◌≡◌, ◌<◌, ◌≤◌, leb, ltb, IfOk};
ghost use Rattle.refusals.specs.Refusals.{number_of};
ghost use Rattle.fields.specs.Fields.{wide, field, ended};
ghost use Rattle.fields.specs.inner.Readers.{as_read};

use kinds::Kind;
use numbers::number;
use refusals::Refusal;

// Which field: a kind, and as many indices as it has.
#[derive(Clone, Copy)]
pub struct Name {
    pub kind: Kind,
    pub first: usize,
    pub second: usize,
    pub third: usize,
}

#[derive(Clone, Copy)]
pub enum Width {
    One,
    Two,
    Four,
}

impl Width {
    fn bytes(self) -> usize
        ensures { (result ≡ wide self) × (result ≤ 4) }
    {
        match self {
            Width::One => 1,
            Width::Two => 2,
            Width::Four => 4,
        }
    }
}

// What is asked of a field: its name, its width, and the rule where it runs past the bytes.
#[derive(Clone, Copy)]
pub struct Ask {
    pub name: Name,
    pub width: Width,
    pub past: Refusal,
}

// A field that failed, and by which rule. What is left of the bytes says where.
#[derive(Clone, Copy)]
pub struct Failure {
    pub refusal: Refusal,
    pub name: Name,
}

// A field, whatever it holds.
pub fn raw(rest: &mut &[u8], a: Ask) -> Result<u64, Failure>
    ensures value { as_read result rest.new.now ≡ field a (λ v. true) (λ v. 0) rest.old.now }
    ensures small { IfOk result (λ v. v < 256 ^ wide a.width) }
{
    let w = a.width.bytes();
    if rest.len() < w {
        return Err(Failure {
            refusal: a.past,
            name: a.name,
        });
    }
    let (bytes, after) = rest.split_at(w);
    *rest = after;
    Ok(number(bytes))
}

// A field that fits.
fn fitting<F: Fn(u64) -> bool>(
    rest: &mut &[u8],
    a: Ask,
    fits: F,
    refusal: Refusal,
) -> Result<u64, Failure>
    requires { F.IsAlwaysCallable fits }
    ensures value { (test : ℕ → Bool) → ((v : ℕ) (b : Bool) → F.post fits v b → b ≡ test v) → as_read result rest.new.now ≡ field a test (λ v. number_of refusal) rest.old.now }
    ensures small { IfOk result (λ v. F.post fits v true) }
{
    let mut after = *rest;
    let v = raw(&mut after, a)?;
    if !fits(v) {
        return Err(Failure {
            refusal,
            name: a.name,
        });
    }
    *rest = after;
    Ok(v)
}

// A field that is below a limit.
pub fn below(rest: &mut &[u8], a: Ask, limit: u64, refusal: Refusal) -> Result<u64, Failure>
    ensures value { as_read result rest.new.now ≡ field a (λ v. ltb v limit) (λ v. number_of refusal) rest.old.now }
    ensures small { IfOk result (λ v. v < limit) }
{
    fitting(rest, a, |v| v < limit, refusal)
}

// A field that is at most `top`.
pub fn at_most(rest: &mut &[u8], a: Ask, top: u64, refusal: Refusal) -> Result<u64, Failure>
    ensures value { as_read result rest.new.now ≡ field a (λ v. leb v top) (λ v. number_of refusal) rest.old.now }
    ensures small { IfOk result (λ v. v ≤ top) }
{
    fitting(rest, a, |v| v <= top, refusal)
}

// The end of the bytes: none are left over.
pub fn ended(rest: &[u8], name: Name, refusal: Refusal) -> Result<(), Failure>
    ensures { as_read result rest.now ≡ ended name (number_of refusal) tt rest.now }
{
    if rest.is_empty() {
        Ok(())
    } else {
        Err(Failure { refusal, name })
    }
}
