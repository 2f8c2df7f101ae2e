// The limits of the house rules' tables, each once. specs/Ranges.antt and specs/Rule7.antt have the same numbers for
// the logic.
pub const MOST_COLUMNS: u16 = 2048; // W/2

pub const MOST_PAIRS: u16 = 1152; // H/2

pub const MOST_D: u8 = 32; // coefficient_log2_denom

pub const MOST_LUMINANCE: u16 = 10000; // max_display_mastering_luminance, cd/m2

pub const MOST_N: u8 = 15; // num_pivots_minus2

// The places of a plan's arrays.
pub const PIVOTS: usize = 17;

pub const PIECES: usize = 17;

pub const ROW: usize = 22;
