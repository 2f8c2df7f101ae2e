// The composing process over pictures by a table of mapped samples that is lent, whatever it holds.
#![tactic(auto)]

mod parts; // the planes, each by its part of the table

ghost use Rattle.std.specs.Prelude.{◌≡◌, length};
ghost use Rattle.rules.specs.Rules.{given_table};
ghost use Rattle.compose.specs.Composing.{says, answer, output_after};

use compose::marks_seen;
use parts::{enhanced_planes, plain_planes};
use plan::Plan;
use refusals::Refusal;
use rows::Rows;
use rules::{Work, is_used};
use table_rules::refusal_of;

// Composes `count` row pairs from `first` on, or refuses by rule 7, 9, 13, 10 or 11, in this order, and writes
// nothing. Row pairs that the marks say are full are kept where the call makes base only ones; without marks nothing
// is kept. It parts from `compose_row_pairs` in each call that it makes, and what its planes ask for is what
// acceptance gives: a trait that both go through would have to require that of calls from other crates, and no call
// between crates requires anything. What is read of the plan is read before anything is written: it is large, and
// would be copied else.
pub fn compose_by_table(
    plan: Plan,
    table: &[u16],
    first: usize,
    count: usize,
    base: &[u16],
    enhancement: &[u16],
    marks: &[u8],
    output: &mut [u16],
) -> Result<(), Refusal>
    ensures answers { says result ≡ answer (given_table plan table.now first count base.now enhancement.now) (length output.old) }
    ensures writes { output.new ≡ output_after (given_table plan table.now first count base.now enhancement.now) marks.now output.old }
{
    let work = Work {
        first,
        count,
        base,
        enhancement,
    };
    refusal_of(plan, table, work, output.len())?;
    let r = Rows {
        first,
        last: first + count,
    };
    if is_used(plan.header, enhancement.len()) {
        enhanced_planes(
            plan.header,
            plan.y.nlq,
            plan.cb.nlq,
            plan.cr.nlq,
            table,
            r,
            base,
            enhancement,
            output,
        );
        return Ok(());
    }
    let seen = marks_seen(plan.header, marks.len());
    plain_planes(plan.header, table, r, &marks[..seen], base, output);
    Ok(())
}
