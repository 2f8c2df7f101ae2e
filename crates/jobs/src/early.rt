// The rules that an opening and a job test before any picture is looked at.
ghost use Rattle.std.specs.Prelude.{◌≡◌, cond, eqb};
ghost use Rattle.refusals.specs.Refusals.{number_in};
ghost use Rattle.plan.specs.Rule7.{fitting};
ghost use Rattle.jobs.specs.Jobs.{opening_refusal};

use plan::Plan;
use refusals::Refusal;
use rule_seven::passes;

// Rule 7 comes before every other: `seven` where the plan meets it, and otherwise the refusal given, which may be a
// rule or its number.
pub fn seven_or<R: Copy>(plan: Plan, refusal: R, seven: R) -> R
    ensures { result ≡ cond (fitting plan) refusal seven }
{
    if passes(plan) { refusal } else { seven }
}

// Rule 9 on the marks: there is one for each row pair.
pub fn is_marked(plan: Plan, marks: usize) -> bool
    ensures { result ≡ eqb marks plan.header.pairs }
{
    marks == usize::from(plan.header.pairs)
}

// Refuses an opening by rule 7 or 9, in this order.
#[tactic(auto, unfolding(crate::specs::Jobs::opening_refusal))]
pub(crate) fn refusal_of_opening(plan: Plan, marks: usize) -> Result<(), Refusal>
    ensures { number_in result ≡ opening_refusal plan marks }
{
    if !passes(plan) {
        return Err(Refusal::Plan);
    }
    if !is_marked(plan, marks) {
        return Err(Refusal::Run);
    }
    Ok(())
}
