// A job, whatever composes its row pairs.
ghost use Rattle.std.specs.Prelude.{◌≡◌, length};
ghost use Rattle.rules.specs.Rules.{Source, given_work};
ghost use Rattle.compose.specs.Composing.{says, answer, output_after};
ghost use Rattle.jobs.specs.Jobs.{job_work, left_says, job_answer, output_after as job_output, marks_after};

use crate::Left;
use crate::early::{is_marked, seven_or};
use compose::makes_full;
use marks::{base_only, mark, waiting};
use plan::Plan;
use refusals::Refusal;
use rules::Work;

// What composes row pairs, or refuses and writes nothing.
pub trait Composer: Copy {
    // Where it has its mapped samples from.
    ghost source: { Self → Source };

    fn compose(
        self,
        plan: Plan,
        work: Work<'_>,
        marks: &[u8],
        output: &mut [u16],
    ) -> Result<(), Refusal>
        ensures answers { says result ≡ answer (given_work (source self) plan work.entry) (length output.old) }
        ensures writes { output.new ≡ output_after (given_work (source self) plan work.entry) marks.now output.old };
}

// Composes the row pairs of its work and marks them: all of them as full where the flag is 1 or an enhancement is
// used, and otherwise as base only those that are not full already. Refused by the first rule met of 7, 8, 9 on the
// marks, and those of composing, it writes nothing.
pub fn job_by<C: Composer>(
    composer: C,
    plan: Plan,
    open_ticket: u32,
    ticket: u32,
    work: Work<'_>,
    output: &mut [u16],
    marks: &mut [u8],
) -> Result<Left, Refusal>
    ensures answers { left_says result ≡ job_answer (job_work (C.source composer) plan open_ticket ticket work.entry) output.old marks.old }
    ensures writes { output.new ≡ job_output (job_work (C.source composer) plan open_ticket ticket work.entry) output.old marks.old }
    ensures marking { marks.new ≡ marks_after (job_work (C.source composer) plan open_ticket ticket work.entry) output.old marks.old }
{
    // Rule 7 comes before 8 and 9. Composing tests it too, so it is tested here only where one of these two is met.
    if ticket != open_ticket {
        return Err(seven_or(plan, Refusal::Ticket, Refusal::Plan));
    }
    if !is_marked(plan, marks.len()) {
        return Err(seven_or(plan, Refusal::Run, Refusal::Plan));
    }
    let full = makes_full(plan.header, work.enhancement.len());
    // Composing tests 7, the other lengths (9), 13 of a table, 10 and 11 in this order, and where it refuses it writes
    // nothing.
    composer.compose(plan, work, marks, output)?;
    let last = work.first + work.count;
    mark(full, work.first, last, marks);
    // A job may come again, so the row pairs left are counted and never worked out from those left before.
    let left = waiting(marks);
    Ok(Left {
        waiting: left,
        base_only: base_only(marks),
    })
}
