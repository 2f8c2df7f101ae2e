// A piece of a section: mapping_idc, the order, and the coefficients.
ghost use Rattle.std.specs.Prelude.{◌≡◌, ◌+◌, ◌≤◌, length};
ghost use Rattle.pen.specs.inner.Putting.{Inked};
ghost use Rattle.section_writer.specs.Section.{piece_bytes};
ghost use Rattle.section_writer.specs.inner.Writing.{row_bytes};

use pen::{integer_bytes, put, signed};
use plan::Piece;
use plan::methods::{MMR, coefficients_used};

// The first coefficients of a row; what stands past its places is 0. Gives the place after them. That d is at most 32
// is tested once, by `put_section`, and asked for below it.
fn coefficients(out: &mut [u8], at: usize, d: u8, long: bool, row: &[i64], count: usize) -> usize
    requires d_bound { d ≤ 32 }
    requires count_in_bounds { at + length (row_bytes long d row.now count) ≤ length out.old }
    ensures { Inked out.old at (row_bytes long d row.now count) out.new result }
{
    let size = integer_bytes(long) + 4;
    let mut next = at;
    for i in 0..count {
        let z = row.get(i).copied().unwrap_or(0);
        signed(out, next, long, d, z);
        next += size;
    }
    next
}

// Gives the place after it.
pub(crate) fn piece(out: &mut [u8], at: usize, d: u8, q: &Piece) -> usize
    requires d_bound { d ≤ 32 }
    requires q_in_bounds { at + length (piece_bytes d q.now) ≤ length out.old }
    ensures { Inked out.old at (piece_bytes d q.now) out.new result }
{
    put(out, at, [q.idc, q.order]);
    let used = coefficients_used(q.idc, q.order);
    coefficients(out, at + 2, d, q.idc == MMR, &q.row, used)
}
