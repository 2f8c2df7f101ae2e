// A field of a section: its name and indices as the standard writes them, what was found there and what is allowed.
use crate::numbers::power;
use fields::Name;
use fields::kinds::Kind;
use fields::numbers::{four, one, two};
use plan::limits::MOST_N;
use plan::methods::{MMR, integer_limit, most_idc, most_order};
use section_fields::signed;
use std::fmt;

const POLYNOMIAL: u8 = 0; // mapping_idc

// Each order of MMR has so many coefficients.
const TERMS: usize = 7;

// Left-over bytes are no field.
fn name_of(kind: Kind) -> &'static str {
    match kind {
        Kind::NumPivotsMinus2 => "num_pivots_minus2",
        Kind::PredPivotValue => "pred_pivot_value",
        Kind::MappingIdc => "mapping_idc",
        Kind::PolyOrderMinus1 => "poly_order_minus1",
        Kind::PolyCoefInt => "poly_coef_int",
        Kind::PolyCoef => "poly_coef",
        Kind::NlqOffset => "nlq_offset",
        Kind::HdrInMaxInt => "hdr_in_max_int",
        Kind::HdrInMax => "hdr_in_max",
        Kind::SlopeInt => "linear_deadzone_slope_int",
        Kind::Slope => "linear_deadzone_slope",
        Kind::ThresholdInt => "linear_deadzone_threshold_int",
        Kind::Threshold => "linear_deadzone_threshold",
        Kind::MmrOrderMinus1 => "mmr_order_minus1",
        Kind::MmrConstantInt => "mmr_constant_int",
        Kind::MmrConstant => "mmr_constant",
        Kind::MmrCoefInt => "mmr_coef_int",
        Kind::MmrCoef => "mmr_coef",
        _ => "",
    }
}

// The order and the term of mmr_coef, by its place in the row. The constant has place 0, and no indices.
#[derive(Clone, Copy)]
pub struct MmrIndices(pub usize);

impl fmt::Display for MmrIndices {
    fn fmt<W: fmt::Write>(&self, f: &mut fmt::Formatter<W>) -> fmt::Result {
        match self.0.checked_sub(1) {
            Some(k) => write!(f, "[{}][{}]", k / TERMS + 1, k % TERMS),
            None => Ok(()),
        }
    }
}

#[derive(Clone, Copy)]
struct Indices(Name);

impl fmt::Display for Indices {
    fn fmt<W: fmt::Write>(&self, f: &mut fmt::Formatter<W>) -> fmt::Result {
        let Name {
            kind,
            first,
            second,
            third,
        } = self.0;
        match kind {
            Kind::PredPivotValue
            | Kind::MappingIdc
            | Kind::PolyOrderMinus1
            | Kind::MmrOrderMinus1
            | Kind::MmrConstantInt
            | Kind::MmrConstant => write!(f, "[{first}][{second}]"),
            Kind::PolyCoefInt | Kind::PolyCoef => write!(f, "[{first}][{second}][{third}]"),
            Kind::MmrCoefInt | Kind::MmrCoef => write!(
                f,
                "[{first}][{second}]{}",
                MmrIndices(third)
            ),
            _ => write!(f, "[{first}]"),
        }
    }
}

// The integer part of a coefficient, by its method and its bytes.
#[derive(Clone, Copy)]
struct Integer {
    idc: u8,
    bytes: u32,
}

impl fmt::Display for Integer {
    fn fmt<W: fmt::Write>(&self, f: &mut fmt::Formatter<W>) -> fmt::Result {
        let limit = integer_limit(self.idc);
        let found = signed(self.idc, self.bytes);
        write!(f, "{found}, allowed -{limit} to {}", limit - 1)
    }
}

// What stands at the place of a field, whose bytes begin the slice, under a header. The limits are made of the header's
// numbers, which rule 4 has passed.
#[derive(Clone, Copy)]
struct Value<'a> {
    field: Name,
    bytes: &'a [u8],
    head: &'a [u8],
}

impl fmt::Display for Value<'_> {
    fn fmt<W: fmt::Write>(&self, f: &mut fmt::Formatter<W>) -> fmt::Result {
        let byte = one(self.bytes, 0);
        let pair = two(self.bytes, 0);
        let quad = four(self.bytes, 0);
        match self.field.kind {
            Kind::NumPivotsMinus2 => write!(f, "{byte}, allowed 0 to {MOST_N}"),
            Kind::PredPivotValue | Kind::NlqOffset => {
                let samples = power(one(self.head, 3).saturating_add(8));
                write!(f, "{pair}, allowed less than {samples}")
            }
            // A section has one method or two.
            Kind::MappingIdc => match most_idc(self.field.first) {
                POLYNOMIAL => write!(f, "{byte}, allowed 0"),
                most => write!(f, "{byte}, allowed 0 or {most}"),
            },
            Kind::PolyOrderMinus1 => write!(f, "{byte}, allowed 0 to {}", most_order(POLYNOMIAL)),
            Kind::MmrOrderMinus1 => write!(f, "{byte}, allowed 0 to {}", most_order(MMR)),
            Kind::PolyCoefInt => Integer {
                idc: POLYNOMIAL,
                bytes: u32::from(byte),
            }
            .fmt(f),
            Kind::MmrConstantInt | Kind::MmrCoefInt => Integer {
                idc: MMR,
                bytes: quad,
            }
            .fmt(f),
            Kind::HdrInMaxInt | Kind::SlopeInt | Kind::ThresholdInt => write!(
                f,
                "{byte}, allowed 0 to 1"
            ),
            _ => {
                let fractions = power(one(self.head, 2));
                write!(f, "{quad}, allowed less than {fractions}")
            }
        }
    }
}

// The field, whose bytes begin the slice, under a header.
#[derive(Clone, Copy)]
pub(crate) struct Found<'a> {
    pub(crate) field: Name,
    pub(crate) bytes: &'a [u8],
    pub(crate) head: &'a [u8],
}

impl fmt::Display for Found<'_> {
    fn fmt<W: fmt::Write>(&self, f: &mut fmt::Formatter<W>) -> fmt::Result {
        let name = name_of(self.field.kind);
        let indices = Indices(self.field);
        let value = Value {
            field: self.field,
            bytes: self.bytes,
            head: self.head,
        };
        write!(f, "{name}{indices} is {value}")
    }
}
