// Rule 11, before anything is written: some sample of the row pairs reaches 2^depth where their bits do.
ghost use Rattle.std.specs.Prelude.{◌≡◌, true, ◌+◌, ◌≤◌, ◌^◌, length};
ghost use Rattle.runs.specs.Runs.{some, at_least};
ghost use Rattle.plan.specs.inner.Facts.{HeaderFacts};
ghost use Rattle.picture.specs.Picture.{in_pairs};
ghost use Rattle.picture.specs.inner.Planes.{InPicture};
ghost use Rattle.rules.specs.Rules.{extent, used, wrong_sample};
ghost use Rattle.rules.specs.inner.Six.{SixWithin, some_in_six};

use crate::{Work, extent_of, is_used};
use picture::Extent;
use plan::Header;
use spans::joined_six;

// How many codes a sample has, by its bit depth less 8. Base and enhancement have a depth each, so that none of what
// follows could be handed the header alone.
fn codes_of(minus8: u8) -> u16
    requires { minus8 ≤ 2 }
    ensures { result ≡ 2 ^ (minus8 + 8) }
{
    1u16 << (minus8 + 8)
}

// Six runs of n samples, gone over in step: four from y on, one from b on and one from r on.
fn large_in_six(y: usize, b: usize, r: usize, n: usize, minus8: u8, run: &[u16]) -> bool
    requires { SixWithin y b r n (length run.now) × (minus8 ≤ 2) }
    ensures { result ≡ some_in_six y b r n (at_least (2 ^ (minus8 + 8))) run.now }
{
    let y2 = y + n;
    let y3 = y2 + n;
    let y4 = y3 + n;
    let bits = joined_six(
        &run[y..y2],
        &run[y2..y3],
        &run[y3..y4],
        &run[y4..y4 + n],
        &run[b..b + n],
        &run[r..r + n],
    );
    codes_of(minus8) <= bits
}

// Row pairs that follow each other are one stretch of each plane, and luma's is four times as long as Cb's or Cr's.
fn large_in_picture(e: Extent, first: usize, last: usize, minus8: u8, run: &[u16]) -> bool
    requires { InPicture e first last (length run.now) × (minus8 ≤ 2) }
    ensures { result ≡ some (in_pairs e first last) (at_least (2 ^ (minus8 + 8))) run.now }
{
    let p = e.planes();
    let y = p.y.start + p.y.row * first;
    let b = p.cb.start + p.cb.row * first;
    let r = p.cr.start + p.cr.row * first;
    large_in_six(y, b, r, p.cb.row * (last - first), minus8, run)
}

pub(crate) fn is_wrong_sample(h: Header, work: Work<'_>) -> bool
    requires header_facts { HeaderFacts h × InPicture (extent h) work.first (work.first + work.count) (length work.base.now) }
    requires in_picture { used h (length work.enhancement.now) ≡ true → InPicture (extent h) work.first (work.first + work.count) (length work.enhancement.now) }
    ensures { let w = work.entry in result ≡ wrong_sample h w.first (w.first + w.count) w.base.now w.enhancement.now }
{
    let e = extent_of(h);
    let last = work.first + work.count;
    let large = large_in_picture(e, work.first, last, h.bl, work.base);
    if !is_used(h, work.enhancement.len()) {
        return large;
    }
    large | large_in_picture(e, work.first, last, h.el, work.enhancement)
}
