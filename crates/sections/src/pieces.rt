// The pieces of a section: mapping_idc, the order, and the coefficients.
ghost use Rattle.std.specs.Prelude.{◌≡◌, ◌≤◌, pos};
ghost use Rattle.plan.specs.Ranges.{most_n};
ghost use Rattle.plan.specs.Rule7.{row_places, piece_places, zero_piece};
ghost use Rattle.fields.specs.inner.Readers.{as_read, filled};
ghost use Rattle.sections.specs.Sections.{coefficient, piece};
ghost use Rattle.sections.specs.inner.Holding.{held};

use crate::filling::filled;
use crate::fraction::coefficient;
use fields::Failure;
use plan::Piece;
use plan::limits::{PIECES, ROW};
use plan::methods::coefficients_used;
use plan::ranges::FittingHeader;
use plan::versions::{copy_last, pieces_carried};
use section_fields::{idc, order};

fn row(
    rest: &mut &[u8],
    h: FittingHeader,
    k: usize,
    p: usize,
    idc: u8,
    count: usize,
) -> Result<[i64; ROW], Failure>
    requires { count ≤ row_places }
    ensures { as_read result rest.new.now ≡ filled row_places (pos 0) count (coefficient h.header k p idc) rest.old.now }
{
    filled(rest, 0, count, |rest, i| coefficient(rest, h, k, p, idc, i))
}

fn piece(rest: &mut &[u8], h: FittingHeader, k: usize, p: usize) -> Result<Piece, Failure>
    ensures { as_read result rest.new.now ≡ piece h.header k p rest.old.now }
{
    let idc = idc(rest, k, p)?;
    let order = order(rest, k, p, idc)?;
    let row = row(rest, h, k, p, idc, coefficients_used(idc, order))?;
    Ok(Piece { idc, order, row })
}

fn pieces(
    rest: &mut &[u8],
    h: FittingHeader,
    k: usize,
    count: usize,
) -> Result<[Piece; PIECES], Failure>
    requires { count ≤ piece_places }
    ensures { as_read result rest.new.now ≡ filled piece_places zero_piece count (piece h.header k) rest.old.now }
{
    let none = Piece {
        idc: 0,
        order: 0,
        row: [0; ROW],
    };
    filled(rest, none, count, |rest, p| piece(rest, h, k, p))
}

// The pieces of a component with num_pivots_minus2 n: those that its section carries, and of version 1 piece n again.
pub(crate) fn held(
    rest: &mut &[u8],
    version: u16,
    h: FittingHeader,
    k: usize,
    n: u8,
) -> Result<[Piece; PIECES], Failure>
    requires { n ≤ most_n }
    ensures { as_read result rest.new.now ≡ held version h.header k n rest.old.now }
{
    let carried = pieces(rest, h, k, pieces_carried(version, n))?;
    Ok(copy_last(version, n, carried))
}
