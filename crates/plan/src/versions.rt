// The versions of a composing block: which there are, and how many pieces a section of each carries.
ghost use Rattle.std.specs.Prelude.{◌≡◌, ◌+◌, ◌≤◌};
ghost use Rattle.plan.specs.Versions.{known_version, pieces_carried};
ghost use Rattle.plan.specs.inner.Copying.{copied};

use crate::Piece;
use crate::limits::{MOST_N, PIECES};

pub const LAST_VERSION: u16 = 2;

pub fn is_known(version: u16) -> bool
    ensures { result ≡ known_version version }
{
    (1 <= version) & (version <= LAST_VERSION)
}

// How many pieces a section with num_pivots_minus2 n carries.
pub fn pieces_carried(version: u16, n: u8) -> usize
    ensures is { result ≡ pieces_carried version n }
    ensures most { result ≤ n + 2 }
{
    if version == 1 {
        usize::from(n) + 1
    } else {
        usize::from(n) + 2
    }
}

// The pieces of a component, by those that its section carries, which stand in the first places: version 1 is read as
// if piece n stood twice.
pub fn copy_last(version: u16, n: u8, carried: [Piece; PIECES]) -> [Piece; PIECES]
    ensures { result ≡ copied version n carried }
{
    let mut pieces = carried;
    if version != 1 {
        return pieces;
    }
    if MOST_N < n {
        return pieces;
    }
    let p = usize::from(n);
    let last = pieces[p];
    pieces[p + 1] = last;
    pieces
}
