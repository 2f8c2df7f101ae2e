// Rules 9 and 10: tests of numbers that lean on nothing.
ghost use Rattle.std.specs.Prelude.{◌≡◌};
ghost use Rattle.rules.specs.Rules.{wrong_length, wrong_pairs};

use crate::{extent_of, is_used};
use plan::Header;

// Rule 9. An enhancement that is not used may have any length.
#[tactic(auto, unfolding(crate::specs::Rules::wrong_length))]
pub fn is_wrong_length(h: Header, base: usize, enhancement: usize, output: usize) -> bool
    ensures { result ≡ wrong_length h base enhancement output }
{
    let e = extent_of(h);
    let size = e.picture_size();
    let enhanced = is_used(h, enhancement);
    (base != size) | ((output != size) | (enhanced & (enhancement != size)))
}

// Rule 10. The sum of first and count could wrap, so it is not made.
pub(crate) fn is_wrong_pairs(h: Header, first: usize, count: usize) -> bool
    ensures { result ≡ wrong_pairs h first count }
{
    count == 0 || usize::from(h.pairs).saturating_sub(first) < count
}
