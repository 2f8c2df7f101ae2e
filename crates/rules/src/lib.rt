// The rules that composing row pairs tests: 7 by the plan, 9 by the lengths, 10 by the row pairs, 11 by the samples.
#![tactic(auto)]

pub mod lengths; // rules 9 and 10, by numbers alone
mod samples; // rule 11, by the samples of the row pairs

ghost use Rattle.std.specs.Prelude.{◌≡◌, cond, ◌∷◌, length};
ghost use Rattle.refusals.specs.Refusals.{rule, first_met, number_in};
ghost use Rattle.plan.specs.Ranges.{header_fits};
ghost use Rattle.rules.specs.Rules.{by_plan, given_work, extent, used, wrong_length, rows_rules, refusal};

use lengths::{is_wrong_length, is_wrong_pairs};
use picture::Extent;
use plan::ranges::header_fits;
use plan::{Header, Plan};
use refusals::Refusal;
use rule_seven::passes;
use samples::is_wrong_sample;

// What a call is to compose: so many row pairs from `first` on, of a base picture and, where its length is not 0, an
// enhancement picture. A call from outside has these four one by one.
#[derive(Clone, Copy)]
pub struct Work<'a> {
    pub first: usize,
    pub count: usize,
    pub base: &'a [u16],
    pub enhancement: &'a [u16],
}

// The size of a header's picture.
pub fn extent_of(h: Header) -> Extent
    ensures { result ≡ extent h }
{
    Extent {
        columns: h.columns,
        pairs: h.pairs,
    }
}

// 5.3.2: a picture that is not present disables the residual, whatever the flag says.
#[tactic(auto, unfolding(crate::specs::Rules::used))]
pub fn is_used(h: Header, enhancement: usize) -> bool
    ensures { result ≡ used h enhancement }
{
    (h.disabled == 0) & (0 < enhancement)
}

// Refuses by the first rule met of 9, 10 and 11, in this order. They ask for a header that fits: 7 where it does not.
pub fn refusal_of_pictures(h: Header, work: Work<'_>, output: usize) -> Result<(), Refusal>
    ensures { let w = work.entry in number_in result ≡ cond (header_fits h) (first_met (rule 9 (wrong_length h (length w.base.now) (length w.enhancement.now) output) ∷ rows_rules h w.first w.count w.base.now w.enhancement.now)) 7 }
{
    if !header_fits(h) {
        return Err(Refusal::Plan);
    }
    if is_wrong_length(h, work.base.len(), work.enhancement.len(), output) {
        return Err(Refusal::Run);
    }
    if is_wrong_pairs(h, work.first, work.count) {
        return Err(Refusal::Rows);
    }
    if is_wrong_sample(h, work) {
        return Err(Refusal::Sample);
    }
    Ok(())
}

// Refuses by the first rule met of 7, 9, 10 and 11, in this order, with the output's length.
#[tactic(auto, unfolding(crate::specs::Rules::refusal, crate::specs::Rules::rules))]
pub fn refusal_of(plan: Plan, work: Work<'_>, output: usize) -> Result<(), Refusal>
    ensures { number_in result ≡ refusal (given_work by_plan plan work.entry) output }
{
    if !passes(plan) {
        return Err(Refusal::Plan);
    }
    refusal_of_pictures(plan.header, work, output)
}
