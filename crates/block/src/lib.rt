// The composing block, read to a plan.
#![tactic(auto)]

ghost use Rattle.std.specs.Prelude.{◌≡◌, ◌≤◌, length};
ghost use Rattle.frame.specs.Frame.{wrong_column};
ghost use Rattle.block.specs.Reading.{refusal, with_section, sections, body, read};
ghost use Rattle.block.specs.Facts.{Sound, LastBytes};
ghost use Rattle.block.specs.inner.Placed.{Placed};
ghost use Rattle.block.specs.inner.Answering.{Answers, said, denied};

use fields::Name;
use frame::columns::wrong_column;
use frame::{Trailer, read_header, read_trailer, trailer_fits, zeros_fit};
use plan::ranges::FittingHeader;
use plan::{Component, Header, Plan};
use refusals::Refusal;
use sections::read_section;

// What reading comes to: 0 and the plan, or the refusal's number, the byte and the field where the failure was met, and
// a plan of zeros. Rules 1 and 2 name no field. It is no Result: a refused block gives a plan of zeros (`Sound`), which
// rule 7 refuses, so that a caller who does not ask for the number composes nothing. The number is the
// house's, as `read` and `Sound` of specs/ speak of it.
#[derive(Clone, Copy)]
pub struct Reading {
    pub number: u8,
    pub place: usize,
    pub field: Option<Name>,
    pub plan: Plan,
}

// A failure, and where it was met.
#[derive(Clone, Copy)]
struct Fault {
    refusal: Refusal,
    place: usize,
    field: Option<Name>,
}

// A refused block hands back nothing of what was read.
fn refused(fault: Fault) -> Reading
    ensures { result ≡ denied fault }
{
    let plan = plan::empty();
    Reading {
        number: fault.refusal.number(),
        place: fault.place,
        field: fault.field,
        plan,
    }
}

// Section k of a version, the bytes from a up to b. It is a part of the slice, so that its fields cannot run into the
// next one's. The place of a failure is the definition's, whose subtraction ends at 0.
fn part(
    bytes: &[u8],
    a: usize,
    b: usize,
    version: u16,
    h: FittingHeader,
    k: usize,
) -> Result<Component, Fault>
    requires { (a ≤ b) × (b ≤ length bytes.now) }
    ensures { Answers result (with_section bytes.now version h.header k a b) }
{
    let mut rest = &bytes[a..b];
    match read_section(&mut rest, version, h, k) {
        Ok(component) => Ok(component),
        Err(failure) => Err(Fault {
            refusal: failure.refusal,
            place: a + (b - a).saturating_sub(rest.len()),
            field: Some(failure.name),
        }),
    }
}

// The sections from first byte to last: the first failure met is the answer. The trailer's numbers are cast by `as`, here, in `body`
// and in `read`: by `usize::from` each place is what a call answers, and the three proofs no longer closed.
fn sections(bytes: &[u8], t: usize, x: Trailer, h: FittingHeader) -> Result<Plan, Fault>
    requires { Placed (length bytes.now) t x }
    ensures { said result ≡ sections bytes.now t x h.header }
{
    let a = t - (x.d0 as usize);
    let b = t - (x.d1 as usize);
    let c = t - (x.d2 as usize);
    let y = part(bytes, a, b, x.version, h, 0)?;
    let cb = part(bytes, b, c, x.version, h, 1)?;
    let cr = part(bytes, c, t, x.version, h, 2)?;
    Ok(Plan {
        header: h.header,
        y,
        cb,
        cr,
    })
}

// Rule 4: a header that begins at a, named by its first column that does not fit.
fn wrong_header(head: &[u8], header: Header, a: usize) -> Reading
    ensures { result ≡ refusal 4 a (wrong_column head.now header) }
{
    refused(Fault {
        refusal: Refusal::Header,
        place: a,
        field: wrong_column(head, header),
    })
}

// The header, and then the sections, whose ranges are made of the header's numbers.
fn body(bytes: &[u8], t: usize, x: Trailer) -> Reading
    requires { Placed (length bytes.now) t x }
    ensures { result ≡ body bytes.now t x }
{
    let a = t - (x.a as usize);
    let b = t - (x.d0 as usize);
    let head = &bytes[a..b];
    let header = read_header(head);
    match FittingHeader::of(header) {
        Some(h) => {
            if !zeros_fit(head) {
                return wrong_header(head, header, a);
            }
            match sections(bytes, t, x, h) {
                Ok(plan) => Reading {
                    number: 0,
                    place: 0,
                    field: None,
                    plan,
                },
                Err(fault) => refused(fault),
            }
        }
        None => wrong_header(head, header, a),
    }
}

// Reads a composing block: the bytes before its header are ignored.
#[tactic(auto, using(crate::proofs::Cascade::bad_trailer))]
pub fn read(bytes: &[u8]) -> Reading
    ensures value { result ≡ read bytes.now }
    ensures sound { Sound result }
{
    let short = Fault {
        refusal: Refusal::Short,
        place: 0,
        field: None,
    };
    if bytes.len() < 12 {
        return refused(short);
    }
    let t = bytes.len() - 12;
    let x = read_trailer(&bytes[t..]);
    if !trailer_fits(x) {
        return refused(Fault {
            refusal: Refusal::Trailer,
            place: t,
            field: None,
        });
    }
    // The rest of rule 1 comes after rule 2: only a trailer that passes is believed.
    if t < (x.a as usize) {
        return refused(short);
    }
    body(bytes, t, x)
}

// Carries a fact of reading, so that the gate names it: bytes before the last A + 12 change nothing.
pub fn last_bytes()
    ensures { LastBytes }
{}
