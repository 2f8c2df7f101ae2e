// The pivots and pieces of a component, and the coefficients of a piece. Reading has seen to it that num_pivots_minus2
// and the orders are small enough; for other numbers there are none.
use plan::methods::{MMR, coefficients_used};
use plan::versions::pieces_carried;
use plan::{Component, Piece, Plan};
use saying::Plane;
use std::fmt;

pub(crate) fn component_of(plan: &Plan, plane: Plane) -> &Component {
    match plane {
        Plane::Y => &plan.y,
        Plane::Cb => &plan.cb,
        Plane::Cr => &plan.cr,
    }
}

// The pieces that a section of this version carries.
pub(crate) fn pieces_of(c: &Component, version: u16) -> &[Piece] {
    c.pieces.get(..pieces_carried(version, c.n)).unwrap_or(&[])
}

// Whether one of them is MMR. Places past the last piece are 0.
pub(crate) fn has_mmr(c: &Component) -> bool {
    c.pieces.iter().any(|piece| piece.idc == MMR)
}

pub(crate) fn coefficients_of(piece: &Piece) -> &[i64] {
    let count = coefficients_used(piece.idc, piece.order);
    piece.row.get(..count).unwrap_or(&[])
}

// The pred_pivot_value fields.
pub(crate) fn preds_of(c: &Component) -> &[u16] {
    let count = usize::from(c.n).saturating_add(2);
    c.preds.get(..count).unwrap_or(&[])
}

// The fields, each after a space.
#[derive(Clone, Copy)]
pub(crate) struct Preds<'a>(pub(crate) &'a [u16]);

impl fmt::Display for Preds<'_> {
    fn fmt<W: fmt::Write>(&self, f: &mut fmt::Formatter<W>) -> fmt::Result {
        for pred in self.0 {
            write!(f, " {pred}")?;
        }
        Ok(())
    }
}

// The pivots, likewise: each is the sum of the fields up to its own. No 17 of them come near to where it wraps.
#[derive(Clone, Copy)]
pub(crate) struct Pivots<'a>(pub(crate) &'a [u16]);

impl fmt::Display for Pivots<'_> {
    fn fmt<W: fmt::Write>(&self, f: &mut fmt::Formatter<W>) -> fmt::Result {
        let mut pivot: u32 = 0;
        for pred in self.0 {
            pivot = pivot.wrapping_add(u32::from(*pred));
            write!(f, " {pivot}")?;
        }
        Ok(())
    }
}
