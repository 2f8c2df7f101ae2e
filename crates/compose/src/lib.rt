// The composing process over pictures: row pairs of a base picture, perhaps with an enhancement picture, to HDR
// samples.
#![tactic(auto)]

ghost use Rattle.std.specs.Prelude.{◌≡◌, ◌≤◌, length};
ghost use Rattle.picture.specs.Picture.{picture_size};
ghost use Rattle.rules.specs.Rules.{given, extent};
ghost use Rattle.compose.specs.Composing.{says, makes_full, answer, output_after};
ghost use Rattle.compose.specs.inner.Seen.{marks_seen};

use plan::{Header, Plan};
use planes::{enhanced_planes, plain_planes};
use refusals::Refusal;
use rows::Rows;
use rules::{Work, extent_of, is_used, refusal_of};

// How many samples the run of a picture has, 3WH/2, whatever the header says.
pub fn picture_size(h: Header) -> usize
    ensures { result ≡ picture_size (extent h) }
{
    extent_of(h).picture_size()
}

// Whether a call makes full row pairs: the flag is 1, or an enhancement picture is used.
#[tactic(auto, unfolding(crate::specs::Composing::makes_full))]
pub fn makes_full(h: Header, enhancement: usize) -> bool
    ensures { result ≡ makes_full h enhancement }
{
    (h.disabled == 1) | is_used(h, enhancement)
}

// How many of the marks a call without residual sees: where the flag is 1 its row pairs are full, and none is kept.
#[tactic(auto, unfolding(crate::specs::inner::Seen::marks_seen))]
pub fn marks_seen(h: Header, marks: usize) -> usize
    ensures is { result ≡ marks_seen h marks }
    ensures few { result ≤ marks }
{
    if h.disabled == 1 { 0 } else { marks }
}

// Composes `count` row pairs from `first` on, or refuses by rule 7, 9, 10 or 11, in this order, and writes nothing.
// An enhancement of length 0 is not present. Row pairs that the marks say are full are kept where the call makes base
// only ones; without marks nothing is kept.
pub fn compose_row_pairs(
    plan: Plan,
    first: usize,
    count: usize,
    base: &[u16],
    enhancement: &[u16],
    marks: &[u8],
    output: &mut [u16],
) -> Result<(), Refusal>
    ensures answers { says result ≡ answer (given plan first count base.now enhancement.now) (length output.old) }
    ensures writes { output.new ≡ output_after (given plan first count base.now enhancement.now) marks.now output.old }
{
    let work = Work {
        first,
        count,
        base,
        enhancement,
    };
    refusal_of(plan, work, output.len())?;
    let r = Rows {
        first,
        last: first + count,
    };
    if is_used(plan.header, enhancement.len()) {
        enhanced_planes(plan, r, base, enhancement, output);
        return Ok(());
    }
    let seen = marks_seen(plan.header, marks.len());
    plain_planes(plan, r, &marks[..seen], base, output);
    Ok(())
}
