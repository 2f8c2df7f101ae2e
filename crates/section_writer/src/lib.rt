// A section of the composing block, written from a component.
#![tactic(auto)]

mod lengths; // how many bytes it has, and whether there is one of a version
mod piece; // a piece: mapping_idc, the order, the coefficients

ghost use Rattle.std.specs.Prelude.{◌≡◌, ◌+◌, ◌≤◌, length, get_or};
ghost use Rattle.pen.specs.Bytes.{bytes_of, in_turn};
ghost use Rattle.pen.specs.inner.Putting.{Inked};
ghost use Rattle.section_writer.specs.Section.{nlq_bytes};
ghost use Rattle.section_writer.specs.inner.Writing.{put_section};

pub use lengths::section_length;
use lengths::{carried, length_in};
use pen::{number, put};
use piece::piece;
use plan::limits::MOST_N;
use plan::{Component, Nlq};

// Pivots, one after the other; gives the place after them.
fn pivots(out: &mut [u8], at: usize, preds: &[u16]) -> usize
    requires { at + length (in_turn (length preds.now) (λ i. bytes_of 2 (get_or preds.now i 0))) ≤ length out.old }
    ensures { Inked out.old at (in_turn (length preds.now) (λ i. bytes_of 2 (get_or preds.now i 0))) out.new result }
{
    let mut next = at;
    for pred in preds {
        put(out, next, pred.to_be_bytes());
        next += 2;
    }
    next
}

fn nlq(out: &mut [u8], at: usize, d: u8, q: Nlq)
    requires { (d ≤ 32) × (at + 17 ≤ length out.old) }
    ensures { Inked out.old at (nlq_bytes d q) out.new (at + 17) }
{
    put(out, at, q.offset.to_be_bytes());
    number(out, at + 2, false, d, q.maximum.into());
    number(out, at + 7, false, d, q.slope.into());
    number(out, at + 12, false, d, q.threshold.into());
}

// Writes the section of a component in a version from `at` on, with fractions of d bits. Where it does not fit nothing
// is written.
pub fn put_section(out: &mut [u8], at: usize, version: u16, d: u8, c: &Component)
    ensures { out.new ≡ put_section out.old at version d c.now }
{
    if 32 < d || MOST_N < c.n {
        return;
    }
    let size = length_in(version, c);
    if out.len() < size || out.len() - size < at {
        return;
    }
    put(out, at, [c.n]);
    let mut next = pivots(out, at + 1, &c.preds[..usize::from(c.n) + 2]);
    for q in carried(version, c) {
        next = piece(out, next, d, q);
    }
    nlq(out, next, d, c.nlq);
}
