// A column of the header (docs/RULES.md, "Header"): its name, what was found there and what is allowed.
use fields::kinds::Kind;
use fields::numbers::{four, one, two};
use plan::limits::{MOST_COLUMNS, MOST_D, MOST_LUMINANCE, MOST_PAIRS};
use std::fmt;

// A column's first byte.
pub(crate) fn place_of(kind: Kind) -> usize {
    match kind {
        Kind::Profile => 0,
        Kind::Level => 1,
        Kind::Denominator => 2,
        Kind::BlDepth => 3,
        Kind::ElDepth | Kind::Depths => 4,
        Kind::HdrDepth => 5,
        Kind::Disabled => 6,
        Kind::Zero7 => 7,
        Kind::Columns => 8,
        Kind::Pairs => 10,
        Kind::Brightest => 12,
        Kind::Zero14 => 14,
        Kind::Darkest => 16,
        _ => 20,
    }
}

fn name_of(kind: Kind) -> &'static str {
    match kind {
        Kind::Profile => "ccm_profile",
        Kind::Level => "ccm_level",
        Kind::Denominator => "coefficient_log2_denom",
        Kind::BlDepth => "BL_bit_depth_minus8",
        Kind::ElDepth | Kind::Depths => "EL_bit_depth_minus8",
        Kind::HdrDepth => "hdr_bit_depth_minus8",
        Kind::Disabled => "disable_residual_flag",
        Kind::Zero7 => "zero (byte 7)",
        Kind::Columns => "W/2",
        Kind::Pairs => "H/2",
        Kind::Brightest => "max_display_mastering_luminance",
        Kind::Zero14 => "zero (bytes 14-15)",
        Kind::Darkest => "min_display_mastering_luminance",
        _ => "zero (bytes 20-23)",
    }
}

// What stands there: the columns have one byte up to byte 7, two up to byte 15, and then four.
fn value_at(head: &[u8], place: usize) -> u32 {
    match place {
        0..=7 => u32::from(one(head, place)),
        8..=15 => u32::from(two(head, place)),
        _ => four(head, place),
    }
}

// What a column may hold, in the header that begins the bytes.
#[derive(Clone, Copy)]
struct Allowed<'a> {
    kind: Kind,
    head: &'a [u8],
}

impl fmt::Display for Allowed<'_> {
    fn fmt<W: fmt::Write>(&self, f: &mut fmt::Formatter<W>) -> fmt::Result {
        match self.kind {
            Kind::Profile => f.write_str("1, 3 or 4"),
            Kind::Denominator => write!(f, "{} to {MOST_D}", u32::from(one(self.head, 4)) + 8 + 5),
            Kind::BlDepth | Kind::ElDepth => f.write_str("0 or 2"),
            Kind::Depths => write!(f, "{}, as BL_bit_depth_minus8 is", one(self.head, 3)),
            Kind::HdrDepth => f.write_str("2 or 4"),
            Kind::Disabled => f.write_str("0 or 1"),
            Kind::Columns => write!(f, "1 to {MOST_COLUMNS}"),
            Kind::Pairs => write!(f, "1 to {MOST_PAIRS}"),
            Kind::Brightest => write!(f, "0 to {MOST_LUMINANCE}"),
            // Both luminances in units of 0.0001 cd/m2.
            Kind::Darkest => write!(f, "less than {}", 10000 * u32::from(two(self.head, 12))),
            _ => f.write_str("0"),
        }
    }
}

// The column of this kind, in the header that begins the bytes.
#[derive(Clone, Copy)]
pub(crate) struct Column<'a> {
    pub(crate) kind: Kind,
    pub(crate) head: &'a [u8],
}

impl fmt::Display for Column<'_> {
    fn fmt<W: fmt::Write>(&self, f: &mut fmt::Formatter<W>) -> fmt::Result {
        let name = name_of(self.kind);
        let value = value_at(self.head, place_of(self.kind));
        let allowed = Allowed {
            kind: self.kind,
            head: self.head,
        };
        write!(f, "{name} is {value}, allowed {allowed}")
    }
}
