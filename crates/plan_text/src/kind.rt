// The fields in the order in which a text has them. A field is one number of the text.
ghost use Rattle.std.specs.Prelude.{◌≤◌};

use Kind::{
    BlDepth, Brightest, Columns, Component, Darkest, Denominator, Disabled, ElDepth, FirstPivot,
    HdrDepth, Level, MappingIdc, Maximum, MaximumInt, MmrCoef, MmrCoefInt, MmrConstant,
    MmrConstantInt, MmrOrder, MorePivots, NlqOffset, NumPivots, Pairs, Piece, PolyCoef,
    PolyCoefInt, PolyOrder, Profile, Slope, SlopeInt, Threshold, ThresholdInt, Version,
};

// A number with a fraction is two fields: its integer part, and then its fraction.
#[derive(Clone, Copy, Debug, PartialEq, Eq)]
pub(crate) enum Kind {
    Version,
    Profile,
    Level,
    Denominator,
    BlDepth,
    ElDepth,
    HdrDepth,
    Disabled,
    Columns,
    Pairs,
    Brightest,
    Darkest,
    Component,
    NumPivots,
    FirstPivot,
    MorePivots, // all but the first pred_pivot_value
    Piece,
    MappingIdc,
    PolyOrder,
    PolyCoefInt,
    PolyCoef,
    MmrOrder,
    MmrConstantInt,
    MmrConstant,
    MmrCoefInt,
    MmrCoef,
    NlqOffset, // the first after the pieces
    MaximumInt,
    Maximum,
    SlopeInt,
    Slope,
    ThresholdInt,
    Threshold, // the last of a section
}

const ORDER: [Kind; 33] = [
    Version,
    Profile,
    Level,
    Denominator,
    BlDepth,
    ElDepth,
    HdrDepth,
    Disabled,
    Columns,
    Pairs,
    Brightest,
    Darkest,
    Component,
    NumPivots,
    FirstPivot,
    MorePivots,
    Piece,
    MappingIdc,
    PolyOrder,
    PolyCoefInt,
    PolyCoef,
    MmrOrder,
    MmrConstantInt,
    MmrConstant,
    MmrCoefInt,
    MmrCoef,
    NlqOffset,
    MaximumInt,
    Maximum,
    SlopeInt,
    Slope,
    ThresholdInt,
    Threshold,
];

impl Kind {
    // The field after this one, where neither a count nor a method says otherwise; none after the last.
    pub(crate) fn following(self) -> Option<Kind> {
        let fields = ORDER.iter().copied();
        fields.skip_while(|kind| *kind != self).nth(1)
    }

    pub(crate) fn name(self) -> &'static str {
        match self {
            Version => "version",
            Profile => "ccm_profile",
            Level => "ccm_level",
            Denominator => "coefficient_log2_denom",
            BlDepth => "BL_bit_depth_minus8",
            ElDepth => "EL_bit_depth_minus8",
            HdrDepth => "hdr_bit_depth_minus8",
            Disabled => "disable_residual_flag",
            Columns => "W/2",
            Pairs => "H/2",
            Brightest => "max_display_mastering_luminance",
            Darkest => "min_display_mastering_luminance",
            Component => "component",
            NumPivots => "num_pivots_minus2",
            FirstPivot | MorePivots => "pred_pivot_value",
            Piece => "piece",
            MappingIdc => "mapping_idc",
            PolyOrder => "poly_order_minus1",
            PolyCoefInt | PolyCoef => "poly_coef",
            MmrOrder => "mmr_order_minus1",
            MmrConstantInt | MmrConstant => "mmr_constant",
            MmrCoefInt | MmrCoef => "mmr_coef",
            NlqOffset => "nlq_offset",
            MaximumInt | Maximum => "hdr_in_max",
            SlopeInt | Slope => "linear_deadzone_slope",
            ThresholdInt | Threshold => "linear_deadzone_threshold",
        }
    }

    // Whether the field is the first of a line.
    pub(crate) fn begins_line(self) -> bool {
        !matches!(
            self,
            MorePivots | PolyCoef | MmrConstant | MmrCoef | Maximum | Slope | Threshold
        )
    }

    // How many bytes hold the field; none hold the number of a component or of a piece.
    pub(crate) fn width(self) -> usize
        ensures { result ≤ 4 }
    {
        match self {
            Component | Piece => 0,
            Version | Columns | Pairs | Brightest | FirstPivot | MorePivots | NlqOffset => 2,
            Darkest
            | PolyCoef
            | MmrConstantInt
            | MmrConstant
            | MmrCoefInt
            | MmrCoef
            | Maximum
            | Slope
            | Threshold => 4,
            _ => 1,
        }
    }

    // How far it is to the next field. The header's zero bytes go with the field before them, and the version is in the
    // trailer, which comes after all fields.
    pub(crate) fn span(self) -> usize
        ensures { result ≤ 8 }
    {
        match self {
            Version => 0,
            Disabled => 2,
            Brightest => 4,
            Darkest => 8,
            _ => self.width(),
        }
    }

    // Whether the field may be negative.
    pub(crate) fn is_signed(self) -> bool {
        matches!(self, PolyCoefInt | MmrConstantInt | MmrCoefInt)
    }

    // The least number that the field's bytes hold.
    pub(crate) fn least(self) -> i64 {
        match (self.is_signed(), self.width()) {
            (true, 1) => -128,
            (true, _) => -2147483648,
            (false, _) => 0,
        }
    }

    // The greatest.
    pub(crate) fn greatest(self) -> i64 {
        match (self.is_signed(), self.width()) {
            (true, 1) => 127,
            (true, _) => 2147483647,
            (false, 1) => 255,
            (false, 2) => 65535,
            (false, _) => 4294967295,
        }
    }

    // What the field's bytes hold for a number, with a sign in two's complement; None where they hold none for it.
    pub(crate) fn held(self, number: i64) -> Option<u32> {
        if number < self.least() || self.greatest() < number {
            return None;
        }
        u32::try_from(number.rem_euclid(4294967296)).ok()
    }

    // The number for which the field's bytes hold this.
    pub(crate) fn number_of(self, held: u32) -> i64 {
        let [_, _, _, byte] = held.to_be_bytes();
        match (self.is_signed(), self.width()) {
            (true, 1) => i64::from(byte.cast_signed()),
            (true, _) => i64::from(held.cast_signed()),
            (false, _) => i64::from(held),
        }
    }
}
