// The rules of composing by a lent table: 7, 9, 13, 10 and 11. A plan of polynomials alone, which is what a table is
// for, is looked through once: it meets neither 7 nor 13.
#![tactic(auto)]

ghost use Rattle.std.specs.Prelude.{◌≡◌, cond, Ok, Err};
ghost use Rattle.refusals.specs.Refusals.{number_in};
ghost use Rattle.plan.specs.Rule7.{fitting};
ghost use Rattle.plan.specs.Tables.{has_mmr};
ghost use Rattle.rules.specs.Rules.{by_table, given_work, refusal};

use filling::table_size;
use plan::Plan;
use refusals::Refusal;
use rule_seven::is_usable;
use rules::lengths::is_wrong_length;
use rules::{Work, refusal_of_pictures};

// How the pieces of a plan map, all together: by polynomials alone, or some by MMR. `plan`'s Method is a piece's.
#[derive(Clone, Copy)]
enum Method {
    Polynomials,
    Mmr,
}

// Rules 7 and 13 by one look at a plan: it is refused where it meets 7. With polynomials alone each component is one
// that luma could be, and so it is asked first. This is not a call of `rule_seven`: in its one caller the components
// are handed on where they lie in the plan, and else they are copied.
fn method_of(plan: Plan) -> Result<Method, Refusal>
    ensures { result ≡ cond (fitting plan) (Ok (cond (has_mmr plan) Method.Mmr Method.Polynomials)) (Err Refusal.Plan) }
{
    let h = plan.header;
    let y = plan.y;
    let luma = is_usable(0, h, y);
    let cb = plan.cb;
    let blue = is_usable(0, h, cb);
    let cr = plan.cr;
    let red = is_usable(0, h, cr);
    if luma & (blue & red) {
        return Ok(Method::Polynomials);
    }
    let any_blue = is_usable(1, h, cb);
    let any_red = is_usable(2, h, cr);
    if luma & (any_blue & any_red) {
        Ok(Method::Mmr)
    } else {
        Err(Refusal::Plan)
    }
}

// Refuses by the first rule met, in this order. The plan is asked once and not read again: handed to one call more it
// would be copied once more.
pub fn refusal_of(plan: Plan, table: &[u16], work: Work<'_>, output: usize) -> Result<(), Refusal>
    ensures { number_in result ≡ refusal (given_work (by_table table.now) plan work.entry) output }
{
    let method = method_of(plan)?;
    let h = plan.header;
    let pictures = is_wrong_length(h, work.base.len(), work.enhancement.len(), output);
    let wrong = pictures | (table.len() != table_size(h));
    if wrong {
        return Err(Refusal::Run);
    }
    match method {
        Method::Mmr => Err(Refusal::Method),
        Method::Polynomials => refusal_of_pictures(h, work, output),
    }
}
