// Which column of a header is the first that does not fit.
ghost use Rattle.std.specs.Prelude.{◌≡◌};
ghost use Rattle.frame.specs.Frame.{wrong_column};
ghost use Rattle.frame.specs.inner.Tables.{first_of};

use fields::Name;
use fields::kinds::Kind;
use fields::numbers::{four, one, two};
use plan::Header;
use plan::limits::{MOST_COLUMNS, MOST_D, MOST_LUMINANCE, MOST_PAIRS};

// The kind of the first column of a table whose test fails.
fn first_wrong(table: &[(bool, Kind)]) -> Option<Kind>
    ensures { result ≡ first_of table.now }
{
    for c in table {
        if !c.0 {
            return Some(c.1);
        }
    }
    None
}

// The column that a refused header is named by. Each test is made, and then the table is searched.
pub fn wrong_column(head: &[u8], h: Header) -> Option<Name>
    ensures { result ≡ wrong_column head.now h }
{
    let table = [
        (
            (h.profile == 1) | ((h.profile == 3) | (h.profile == 4)),
            Kind::Profile,
        ),
        (h.level == 0, Kind::Level),
        ((h.bl == 0) | (h.bl == 2), Kind::BlDepth),
        ((h.el == 0) | (h.el == 2), Kind::ElDepth),
        (h.bl == h.el, Kind::Depths),
        (
            (u16::from(h.el) + 8 + 5 <= u16::from(h.d)) & (h.d <= MOST_D),
            Kind::Denominator,
        ),
        ((h.hdr == 2) | (h.hdr == 4), Kind::HdrDepth),
        (h.disabled <= 1, Kind::Disabled),
        (one(head, 7) == 0, Kind::Zero7),
        (
            (1 <= h.columns) & (h.columns <= MOST_COLUMNS),
            Kind::Columns,
        ),
        ((1 <= h.pairs) & (h.pairs <= MOST_PAIRS), Kind::Pairs),
        (h.brightest <= MOST_LUMINANCE, Kind::Brightest),
        (two(head, 14) == 0, Kind::Zero14),
        (h.darkest < 10000 * u32::from(h.brightest), Kind::Darkest),
        (four(head, 20) == 0, Kind::Zero20),
    ];
    let kind = first_wrong(&table)?;
    Some(Name {
        kind,
        first: 0,
        second: 0,
        third: 0,
    })
}
