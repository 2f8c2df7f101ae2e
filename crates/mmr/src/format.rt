// What the samples of all rows have in common.
ghost use Rattle.std.specs.Prelude.{◌≡◌, ◌<◌, ◌≤◌};
ghost use Rattle.plan.specs.Ranges.{most_n};
ghost use Rattle.mmr.specs.inner.Columns.{code_of};
ghost use Rattle.mmr.specs.inner.Chroma.{ends_of};

use plan::Component;
use steps::{clamp, pivots_of};

// The first and the last pivot of a component.
#[derive(Clone, Copy)]
pub(crate) struct Ends {
    pub first: u16,
    pub last: u16,
}

// The order is the highest of all pieces.
#[derive(Clone, Copy)]
pub(crate) struct Format {
    pub depth: u32,
    pub codes: u16, // how many codes a sample can have, 2 ^ depth
    pub d: u8,
    pub order: usize,
    pub y: Ends,
    pub cb: Ends,
    pub cr: Ends,
}

impl Ends {
    pub fn of(c: &Component) -> Self
        requires { c.now.n ≤ most_n }
        ensures { result ≡ ends_of c.now }
    {
        let pivots = pivots_of(c.preds);
        Ends {
            first: pivots[0],
            last: pivots[(c.n as usize) + 1],
        }
    }

    // A sample clamped to the pivots; one that is no code is 0, so that whatever a run holds nothing wraps.
    pub fn code_of(self, codes: u16, s: u16) -> u16
        ensures { (result ≡ code_of codes self s) × (1 ≤ codes → result < codes) }
    {
        let t = clamp(self.first, self.last, s);
        if t < codes { t } else { 0 }
    }
}
