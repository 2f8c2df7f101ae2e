// The header of the composing block, written from a plan's: fields at fixed places.
#![tactic(auto)]

ghost use Rattle.std.specs.Prelude.{◌≡◌};
ghost use Rattle.pen.specs.inner.Putting.{put_at};
ghost use Rattle.header_writer.specs.Header.{header_bytes};

use pen::put;
use plan::Header;

// Writes the header to the front of a slice. Where it does not fit nothing is written.
pub fn put_header(out: &mut [u8], h: Header)
    ensures { out.new ≡ put_at out.old 0 (header_bytes h) }
{
    let [c0, c1] = h.columns.to_be_bytes();
    let [p0, p1] = h.pairs.to_be_bytes();
    let [b0, b1] = h.brightest.to_be_bytes();
    let [d0, d1, d2, d3] = h.darkest.to_be_bytes();
    put(
        out,
        0,
        [
            h.profile, h.level, h.d, h.bl, h.el, h.hdr, h.disabled, 0, c0, c1, p0, p1, b0, b1, 0,
            0, d0, d1, d2, d3, 0, 0, 0, 0,
        ],
    );
}
