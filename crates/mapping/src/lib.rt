// The mapping of base layer samples (5.4.2): a table of what every code comes to, since a picture has many more
// samples than there are codes.
#![tactic(auto)]

mod copies; // what the mapping reads of the pieces, copied
mod limits; // what the numbers of a component must keep to, so that its mapping can be computed
mod polynomial; // the polynomial of a piece
mod table; // the table, by the rows of the pieces

ghost use Rattle.std.specs.Prelude.{◌≡◌};
ghost use Rattle.mapping.specs.inner.Mapped.{answer};

use copies::polynomials_of;
use limits::{frame_maps, pieces_map};
use plan::{Component, Header};
use polynomial::Scale;
use table::table_by;

// The mapped sample of each code, where there is one: a component with an MMR piece, or one that cannot be computed
// with, has none. Of a piece its method, its order and the coefficients of a polynomial are copied, and nothing else
// of it is read.
pub fn mapped_table(h: Header, c: Component) -> Option<[u16; 1024]>
    ensures { result ≡ answer h c }
{
    if !frame_maps(h, c.n, &c.preds) {
        return None;
    }
    let n = usize::from(c.n);
    let polynomials = polynomials_of(&c.pieces);
    if !pieces_map(&polynomials[..n + 2]) {
        return None;
    }
    let scale = Scale {
        depth: u32::from(h.bl) + 8,
        d: h.d,
    };
    let table = table_by(scale, n, c.preds, &polynomials);
    Some(table)
}
