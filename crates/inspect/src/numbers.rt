// A line about a number with a fraction: its two fields, and about what they come to.
use plan::methods::MMR;
use saying::{Fixed, MmrIndices};
use std::fmt;

// Which number: a coefficient by its place in its row.
#[derive(Clone, Copy, Debug, PartialEq, Eq)]
pub(crate) enum Number {
    PolyCoef(usize),
    MmrConstant,
    MmrCoef(usize),
    HdrInMax,
    Slope,
    Threshold,
}

impl Number {
    // What stands in a place of a row of a method.
    pub(crate) fn at(idc: u8, place: usize) -> Number {
        match (idc, place) {
            (MMR, 0) => Number::MmrConstant,
            (MMR, _) => Number::MmrCoef(place),
            _ => Number::PolyCoef(place),
        }
    }

    fn name(self) -> &'static str {
        match self {
            Number::PolyCoef(_) => "poly_coef",
            Number::MmrConstant => "mmr_constant",
            Number::MmrCoef(_) => "mmr_coef",
            Number::HdrInMax => "hdr_in_max",
            Number::Slope => "linear_deadzone_slope",
            Number::Threshold => "linear_deadzone_threshold",
        }
    }
}

// The indices of a number within its piece.
#[derive(Clone, Copy)]
struct Indices(Number);

impl fmt::Display for Indices {
    fn fmt<W: fmt::Write>(&self, f: &mut fmt::Formatter<W>) -> fmt::Result {
        match self.0 {
            Number::PolyCoef(place) => write!(f, "[{place}]"),
            Number::MmrCoef(place) => write!(f, "{}", MmrIndices(place)),
            _ => Ok(()),
        }
    }
}

// The number and what it is, in a line without its end.
#[derive(Clone, Copy)]
pub(crate) struct Line {
    pub(crate) number: Number,
    pub(crate) is: Fixed,
}

impl fmt::Display for Line {
    fn fmt<W: fmt::Write>(&self, f: &mut fmt::Formatter<W>) -> fmt::Result {
        let (name, indices) = (self.number.name(), Indices(self.number));
        let is = self.is;
        write!(f, "{name}_int{indices} {} + ", is.integer())?;
        write!(
            f,
            "{name}{indices} {}/2^{}, about {is}",
            is.fraction(),
            is.bits
        )
    }
}
