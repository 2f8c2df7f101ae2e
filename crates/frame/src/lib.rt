// The trailer and the header: fields at fixed places, read as they stand and then tested.
#![tactic(auto)]

pub mod columns; // which column of a refused header is named

ghost use Rattle.std.specs.Prelude.{◌≡◌};
ghost use Rattle.frame.specs.Frame.{trailer, trailer_fits, header, zeros_fit};

use fields::numbers::{four, one, two};
use plan::Header;
use plan::versions::is_known;

// The trailer's numbers A, D0, D1, D2: the distances from its first byte back to the header and the sections.
#[derive(Clone, Copy)]
pub struct Trailer {
    pub a: u16,
    pub d0: u16,
    pub d1: u16,
    pub d2: u16,
    pub version: u16,
    pub last: u16,
}

// The trailer, which is the whole of s.
pub fn read_trailer(s: &[u8]) -> Trailer
    ensures { result ≡ trailer s.now }
{
    let a = two(s, 0);
    let d0 = two(s, 2);
    let d1 = two(s, 4);
    let d2 = two(s, 6);
    let version = two(s, 8);
    let last = two(s, 10);
    Trailer {
        a,
        d0,
        d1,
        d2,
        version,
        last,
    }
}

// Rule 2. The sum is taken in 32 bits: in 16 it could wrap.
pub fn trailer_fits(x: Trailer) -> bool
    ensures { result ≡ trailer_fits x }
{
    let header = u32::from(x.a) == u32::from(x.d0) + 24;
    let falling = (x.d1 < x.d0) & ((x.d2 < x.d1) & (0 < x.d2));
    is_known(x.version) & ((x.last == 0) & (header & falling))
}

// The header, which is the whole of s.
pub fn read_header(s: &[u8]) -> Header
    ensures { result ≡ header s.now }
{
    let profile = one(s, 0);
    let level = one(s, 1);
    let d = one(s, 2);
    let bl = one(s, 3);
    let el = one(s, 4);
    let hdr = one(s, 5);
    let disabled = one(s, 6);
    let columns = two(s, 8);
    let pairs = two(s, 10);
    let brightest = two(s, 12);
    let darkest = four(s, 16);
    Header {
        profile,
        level,
        d,
        bl,
        el,
        hdr,
        disabled,
        columns,
        pairs,
        brightest,
        darkest,
    }
}

// The header's bytes that stand between its fields are 0.
pub fn zeros_fit(s: &[u8]) -> bool
    ensures { result ≡ zeros_fit s.now }
{
    let first = one(s, 7);
    let second = two(s, 14);
    let third = four(s, 20);
    (first == 0) & ((second == 0) & (third == 0))
}
