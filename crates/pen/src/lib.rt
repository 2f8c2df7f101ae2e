// Big-endian numbers, written at a place of a lent slice. Where a number's bytes do not all fit, nothing is written.
#![tactic(auto)]

mod fixed; // numbers with a fraction

ghost use Rattle.std.specs.Prelude.{◌≡◌};
ghost use Rattle.pen.specs.inner.Putting.{put_at};

pub use fixed::{Distance, integer_bytes, number, signed};

// Puts bytes from `at` on. It goes by a place and not by a sink: a struct that held the slice would need a clause more
// in each method, that it keeps its slice, and what does not fit is to write nothing.
pub fn put<const N: usize>(out: &mut [u8], at: usize, bytes: [u8; N])
    ensures { out.new ≡ put_at out.old at bytes.entry }
{
    if out.len() < N || out.len() - N < at {
        return;
    }
    out[at..at + N].copy_from_slice(&bytes);
}
