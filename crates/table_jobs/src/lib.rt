// Row jobs that look mapped samples up in a table that they are lent: a picture's plain jobs and these may come in any
// order.
#![tactic(auto)]

ghost use Rattle.std.specs.Prelude.{◌≡◌};
ghost use Rattle.rules.specs.Rules.{by_table};
ghost use Rattle.jobs.specs.Jobs.{table_job, says, job_answer, output_after, marks_after};

use jobs::Answer;
use jobs::by::{Composer, job_by};
use plan::Plan;
use refusals::Refusal;
use rules::Work;
use table_compose::compose_by_table;

// The composing process by a table, whatever it holds.
#[derive(Clone, Copy)]
struct ByTable<'a> {
    table: &'a [u16],
}

impl Composer for ByTable<'_> {
    ghost source = { λ lent. by_table lent.table.now };

    fn compose(
        self,
        plan: Plan,
        work: Work<'_>,
        marks: &[u8],
        output: &mut [u16],
    ) -> Result<(), Refusal> {
        compose_by_table(
            plan,
            self.table,
            work.first,
            work.count,
            work.base,
            work.enhancement,
            marks,
            output,
        )
    }
}

// Composes `count` row pairs from `first` on, with the mapped samples that the table has, whatever they are, and marks
// them, full and base only as a plain job does. Refused by rule 7, 8, 9, 13, 10 or 11, in this order, it writes
// nothing.
pub fn compose_table_job(
    plan: Plan,
    table: &[u16],
    open_ticket: u32,
    ticket: u32,
    first: usize,
    count: usize,
    base: &[u16],
    enhancement: &[u16],
    output: &mut [u16],
    marks: &mut [u8],
) -> Answer
    ensures answers { says result ≡ job_answer (table_job plan table.now open_ticket ticket first count base.now enhancement.now) output.old marks.old }
    ensures writes { output.new ≡ output_after (table_job plan table.now open_ticket ticket first count base.now enhancement.now) output.old marks.old }
    ensures marking { marks.new ≡ marks_after (table_job plan table.now open_ticket ticket first count base.now enhancement.now) output.old marks.old }
{
    let work = Work {
        first,
        count,
        base,
        enhancement,
    };
    let by = ByTable { table };
    let done = job_by(by, plan, open_ticket, ticket, work, output, marks);
    Answer::from(done)
}
