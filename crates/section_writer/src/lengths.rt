// How many bytes a section has, and whether there is one of a version.
ghost use Rattle.std.specs.Prelude.{◌≡◌, ◌≤◌, ◌+◌, ◌*◌, length, take, IfSome};
ghost use Rattle.plan.specs.Ranges.{most_n};
ghost use Rattle.plan.specs.Versions.{pieces_carried, can_carry};
ghost use Rattle.section_writer.specs.Section.{section_bytes};
ghost use Rattle.section_writer.specs.inner.Writing.{piece_length, most_length, section_length};

use pen::integer_bytes;
use plan::limits::MOST_N;
use plan::methods::{MMR, coefficients_used};
use plan::versions::pieces_carried;
use plan::{Component, Piece};

// Whether a version carries all pieces: version 2 does, and version 1 where piece n stands twice.
fn carries_all(version: u16, c: &Component) -> bool
    requires { c.now.n ≤ most_n }
    ensures { result ≡ can_carry version c.now }
{
    let last = usize::from(c.n);
    version == 2 || (version == 1 && c.pieces[last] == c.pieces[last + 1])
}

// A piece: mapping_idc, its order, and its coefficients, each of 5 bytes, or of MMR 8.
fn piece_length(idc: u8, order: u8) -> usize
    ensures { (result ≡ piece_length idc order) × (result ≤ most_length) }
{
    2 + coefficients_used(idc, order) * (integer_bytes(idc == MMR) + 4)
}

// The pieces that a version carries, which a component of at most so many has places for.
pub(crate) fn carried(version: u16, c: &Component) -> &[Piece]
    requires { c.now.n ≤ most_n }
    ensures is { result.now ≡ take (pieces_carried version c.now.n) c.now.pieces }
    ensures count { length result.now ≡ pieces_carried version c.now.n }
{
    &c.pieces[..pieces_carried(version, c.n)]
}

// A section: 1 byte, 2 a pivot, the pieces that are carried, and 17.
pub(crate) fn length_in(version: u16, c: &Component) -> usize
    requires { c.now.n ≤ most_n }
    ensures is { result ≡ length (section_bytes version 0 c.now) }
    ensures most { result ≤ 250000 }
{
    let mut size = 1 + (usize::from(c.n) + 2) * 2 + 17;
    for q in carried(version, c) {
        size += piece_length(q.idc, q.order);
    }
    size
}

// The length of a component's section in a version. There is none where the component has more pieces than a plan has
// places for, or than the version carries.
pub fn section_length(version: u16, c: &Component) -> Option<usize>
    ensures is { result ≡ section_length version c.now }
    ensures most { IfSome result (λ n. n ≤ 250000) }
{
    if c.n <= MOST_N && carries_all(version, c) {
        Some(length_in(version, c))
    } else {
        None
    }
}
