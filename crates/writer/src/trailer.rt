// The trailer: the distances back to the header and the sections, and the version.
ghost use Rattle.std.specs.Prelude.{◌+◌, ◌≤◌, length};
ghost use Rattle.pen.specs.inner.Putting.{Inked};
ghost use Rattle.writer.specs.Writing.{trailer_bytes};

use crate::lengths::Lengths;
use pen::put;

// The trailer behind sections of these lengths.
pub(crate) fn put_trailer(out: &mut [u8], lengths: Lengths, version: u16)
    requires { 24 + lengths.y + lengths.cb + lengths.cr + 12 ≤ length out.old }
    ensures { Inked out.old (24 + lengths.y + lengths.cb + lengths.cr) (trailer_bytes (24 + (lengths.y + (lengths.cb + lengths.cr))) (lengths.y + (lengths.cb + lengths.cr)) (lengths.cb + lengths.cr) lengths.cr version) out.new (24 + lengths.y + lengths.cb + lengths.cr + 12) }
{
    let at = 24 + lengths.y + lengths.cb + lengths.cr;
    let d2 = lengths.cr as u16;
    let d1 = lengths.cb as u16 + d2;
    let d0 = lengths.y as u16 + d1;
    put(out, at, (24 + d0).to_be_bytes());
    put(out, at + 2, d0.to_be_bytes());
    put(out, at + 4, d1.to_be_bytes());
    put(out, at + 6, d2.to_be_bytes());
    put(out, at + 8, version.to_be_bytes());
    put(out, at + 10, [0; 2]);
}
