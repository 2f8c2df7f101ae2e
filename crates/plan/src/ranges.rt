// The ranges of the house rules' tables. No test here leans on another, so all are made, and `&` joins them.
ghost use Rattle.std.specs.Prelude.{◌≡◌, true, false, ◌+◌, ◌≤◌, ◌||◌, eqb, MatchOption};
ghost use Rattle.plan.specs.Ranges.{listed_profile, format_fits, size_fits, header_fits, bl_depth, el_depth, hdr_depth};
ghost use Rattle.plan.specs.inner.Facts.{HeaderFacts};

use crate::Header;
use crate::limits::{MOST_COLUMNS, MOST_D, MOST_LUMINANCE, MOST_PAIRS};

fn profile_listed(v: u8) -> bool
    ensures { result ≡ listed_profile v }
{
    matches!(v, 1 | 3 | 4)
}

#[tactic(auto, unfolding(crate::specs::Ranges::format_fits))]
fn format_fits(h: Header) -> bool
    ensures { result ≡ format_fits h }
{
    let profile = profile_listed(h.profile);
    let level = h.level == 0;
    let bl = matches!(h.bl, 0 | 2);
    let el = matches!(h.el, 0 | 2);
    let same = h.bl == h.el;
    let d = (u16::from(h.el) + 8 + 5 <= u16::from(h.d)) & (h.d <= MOST_D);
    let hdr = matches!(h.hdr, 2 | 4);
    let disabled = h.disabled <= 1;
    profile & (level & (bl & (el & (same & (d & (hdr & disabled))))))
}

#[tactic(auto, unfolding(crate::specs::Ranges::size_fits))]
fn size_fits(h: Header) -> bool
    ensures { result ≡ size_fits h }
{
    let columns = matches!(h.columns, 1..=MOST_COLUMNS);
    let pairs = matches!(h.pairs, 1..=MOST_PAIRS);
    let brightest = h.brightest <= MOST_LUMINANCE;
    // Both luminances in units of 0.0001 cd/m2.
    let darkest = h.darkest < 10000 * u32::from(h.brightest);
    columns & (pairs & (brightest & darkest))
}

pub fn header_fits(h: Header) -> bool
    ensures { result ≡ header_fits h }
{
    format_fits(h) & size_fits(h)
}

// A header that keeps its ranges: made by their test alone, so that whoever is handed one can shift by its numbers.
#[derive(Clone, Copy)]
pub struct FittingHeader {
    pub header: Header,
    pub ghost fits: { header_fits header ≡ true },
    pub ghost facts: { HeaderFacts header },
}

impl FittingHeader {
    pub fn of(h: Header) -> Option<FittingHeader>
        ensures { MatchOption result (header_fits h ≡ false) (λ f. f.header ≡ h) }
    {
        if header_fits(h) {
            Some(FittingHeader { header: h })
        } else {
            None
        }
    }

    pub fn bl_depth(self) -> u32
        ensures is { result ≡ bl_depth self.header }
        ensures most { result ≤ 10 }
    {
        u32::from(self.header.bl) + 8
    }

    pub fn el_depth(self) -> u32
        ensures is { result ≡ el_depth self.header }
        ensures most { result ≤ 10 }
    {
        u32::from(self.header.el) + 8
    }

    pub fn hdr_depth(self) -> u32
        ensures is { result ≡ hdr_depth self.header }
        ensures most { result ≤ 12 }
    {
        u32::from(self.header.hdr) + 8
    }

    // d: how many bits a fraction has.
    pub fn fraction_bits(self) -> u32
        ensures is { result ≡ self.header.d }
        ensures most { result ≤ 32 }
    {
        u32::from(self.header.d)
    }
}
