// Steps that mapping takes: the pivots (5.3.2), the piece of a sample (5.4.2.2), the clamp to the pivots and the cut
// of a sum (5.4.2.3).
#![tactic(auto)]

ghost use Rattle.std.specs.Prelude.{◌≡◌, ◌+◌, ◌<◌, ◌≤◌, min};
ghost use Rattle.runs.specs.inner.Loops.{at};
ghost use Rattle.plan.specs.Ranges.{most_n};
ghost use Rattle.plan.specs.Rule7.{pivot_places};
ghost use Rattle.standard.specs.Mapping.{pivot_idx, clamped};
ghost use Rattle.steps.specs.inner.Steps.{Rising, pivot_table, passed, found, cut_by};

use plan::limits::PIVOTS;

// The pivots, each the sum of the predictions up to it, in 16 bits. A larger sum is the largest number of 16 bits: one
// that wrapped would be a pivot below the one before it. Predictions past the last pivot are 0.
pub fn pivots_of(preds: [u16; PIVOTS]) -> [u16; PIVOTS]
    ensures { result ≡ pivot_table preds }
{
    let mut pivots = [0u16; PIVOTS];
    let mut sum: u32 = 0;
    for (i, pred) in preds.iter().enumerate() {
        sum += u32::from(*pred);
        pivots[i] = sum.min(65535) as u16;
    }
    pivots
}

// One comparison: a pivot that is not greater than the sample is passed, and so are those before it. Its answer enters
// as a number: of an `if` the compiler makes a branch for x86-64, which no processor can guess.
fn passed(pivots: &[u16; PIVOTS], s: u16, low: usize, half: usize) -> usize
    requires { low + half < pivot_places }
    ensures { (result ≡ passed (at pivots.now) s low half) × (result ≤ low + half) }
{
    low + half * usize::from(pivots[low + half] <= s)
}

// The piece of a sample that is not clamped yet: the first whose next pivot is greater, or n + 1. Pivots rise, so it
// is the number of those, from the second on, that are not greater. Each comparison halves what is left of 16, and
// none is a branch. Places above the last pivot in use are compared too: a loop that goes by their number is slower.
// One piece takes one comparison.
pub fn piece_of(pivots: &[u16; PIVOTS], n: usize, s: u16) -> usize
    ensures is { result ≡ found (at pivots.now) n s }
    ensures piece { Rising (at pivots.now) → n ≤ most_n → result ≡ pivot_idx (at pivots.now) n s }
{
    if n == 0 {
        return passed(pivots, s, 0, 1);
    }
    let by_eight = passed(pivots, s, 0, 8);
    let by_four = passed(pivots, s, by_eight, 4);
    let by_two = passed(pivots, s, by_four, 2);
    let by_one = passed(pivots, s, by_two, 1);
    let all = passed(pivots, s, by_one, 1);
    // the lesser of it and n + 1, which is not made where it could wrap
    if all <= n { all } else { n + 1 }
}

// A sample raised to the first pivot and lowered to the last.
pub fn clamp(first: u16, last: u16, s: u16) -> u16
    ensures { result ≡ clamped first last s }
{
    s.max(first).min(last)
}

// A sum is not below 0, is shifted by 4 + d, and is cut at 65,535.
pub fn cut_at(d: u8, v: i64) -> u16
    ensures { result ≡ cut_by d v }
{
    if v < 0 {
        return 0;
    }
    let q = (v as u64) >> ((4 + u32::from(d)) % 64);
    q.min(65535) as u16
}
