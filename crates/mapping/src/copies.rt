// What the mapping reads of a component's pieces, copied. The loop goes over all places and does little, so that the
// compiler unrolls it and reads the numbers where they lie. With turns that it does not know it would copy the
// component first.
ghost use Rattle.std.specs.Prelude.{◌≡◌};
ghost use Rattle.plan.specs.Rule7.{piece_places};
ghost use Rattle.mapping.specs.inner.Mapped.{order_by};
ghost use Rattle.mapping.specs.inner.Copies.{copied, Copied};

use plan::Piece;
use plan::limits::PIECES;
use plan::methods::Method;

// The coefficients that a polynomial can have, where a row may have places for more, and its order, less 1. It has 32
// bytes: one of several is found with a shift and not with a product.
#[derive(Clone, Copy)]
pub(crate) struct Polynomial {
    pub(crate) row: [i64; 3],
    pub(crate) order: u8,
}

// The order of a polynomial, less 1; of another method one that no polynomial has: one test then finds both.
fn order_by(idc: u8, order: u8) -> u8
    ensures { result ≡ order_by idc order }
{
    match Method::of(idc) {
        Some(Method::Polynomial) => order,
        _ => 2,
    }
}

fn copied(q: &Piece) -> Polynomial
    ensures { result ≡ copied q.now }
{
    let row = [q.row[0], q.row[1], q.row[2]];
    Polynomial {
        row,
        order: order_by(q.idc, q.order),
    }
}

pub(crate) fn polynomials_of(pieces: &[Piece; PIECES]) -> [Polynomial; PIECES]
    ensures { Copied pieces.now result piece_places }
{
    let none = Polynomial {
        row: [0; 3],
        order: 0,
    };
    let mut polynomials = [none; PIECES];
    for (p, q) in pieces.iter().enumerate() {
        polynomials[p] = copied(q);
    }
    polynomials
}
