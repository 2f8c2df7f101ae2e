// A plan: every field of a composing block, as a value that travels with each call.
#![tactic(auto)]

pub mod limits; // the largest sizes and counts, and the places of a plan's arrays
pub mod methods; // what goes by mapping_idc
pub mod ranges; // the ranges of the header's fields
pub mod versions; // the versions of a block, and how many pieces each carries

ghost use Rattle.std.specs.Prelude.{false, ◌≡◌};
ghost use Rattle.plan.specs.Rule7.{fitting, no_plan};

use limits::{PIECES, PIVOTS, ROW};

// The header's fields (5.3.2), as the block carries them. W is twice `columns`, and H twice `pairs`. C builds plans
// and hands them over, so the fields of these structs, their order and their layout are the C interface.
#[repr(C)]
#[derive(Clone, Copy, Default, PartialEq, Eq)]
pub struct Header {
    pub profile: u8, // ccm_profile
    pub level: u8, // ccm_level
    pub d: u8, // coefficient_log2_denom
    pub bl: u8, // BL_bit_depth_minus8
    pub el: u8, // EL_bit_depth_minus8
    pub hdr: u8, // hdr_bit_depth_minus8
    pub disabled: u8, // disable_residual_flag
    pub columns: u16, // W/2: the columns of a chroma plane
    pub pairs: u16, // H/2: the row pairs of the picture, and the rows of a chroma plane
    pub brightest: u16, // max_display_mastering_luminance, in units of 1 cd/m2
    pub darkest: u32, // min_display_mastering_luminance, in units of 0.0001 cd/m2
}

// One piece of a component's mapping (5.3.3): mapping_idc, its order less 1, and its row of coefficients. A
// polynomial's are fp_poly_coef; of MMR place 0 is fp_mmr_constant, and place 7 (i - 1) + j + 1 is fp_mmr_coef[i][j].
#[repr(C)]
#[derive(Clone, Copy, Default, PartialEq, Eq)]
pub struct Piece {
    pub idc: u8,
    pub order: u8,
    pub row: [i64; ROW],
}

// How a component's residual is inverse quantized (5.3.4): nlq_offset, fp_hdr_in_max,
// fp_linear_deadzone_slope and fp_linear_deadzone_threshold.
#[repr(C)]
#[derive(Clone, Copy, Default, PartialEq, Eq)]
pub struct Nlq {
    pub offset: u16,
    pub maximum: u64,
    pub slope: u64,
    pub threshold: u64,
}

// One component: num_pivots_minus2, n + 2 of pred_pivot_value, n + 2 pieces and the residual's numbers.
// Places beyond the last pivot, the last piece or a piece's order are 0.
#[repr(C)]
#[derive(Clone, Copy, Default, PartialEq, Eq)]
pub struct Component {
    pub n: u8,
    pub preds: [u16; PIVOTS],
    pub pieces: [Piece; PIECES],
    pub nlq: Nlq,
}

#[repr(C)]
#[derive(Clone, Copy, Default, PartialEq, Eq)]
pub struct Plan {
    pub header: Header,
    pub y: Component,
    pub cb: Component,
    pub cr: Component,
}

// The plan of zeros, which stands for none. Rule 7 refuses it: its profile is not listed.
#[tactic(auto, using(crate::proofs::Zeros::is_empty, crate::proofs::Facts::no_plan_refused))]
pub fn empty() -> Plan
    ensures { (result ≡ no_plan) × (fitting result ≡ false) }
{
    Plan::default()
}
