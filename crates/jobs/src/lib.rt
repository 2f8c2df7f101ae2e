// A picture is opened, and its row pairs are composed by jobs that may come in any order and any number of times.
#![tactic(auto)]

pub mod by; // a job, whatever composes its row pairs
pub mod early; // the rules before any picture is looked at

ghost use Rattle.std.specs.Prelude.{◌≡◌, length};
ghost use Rattle.rules.specs.Rules.{by_plan};
ghost use Rattle.jobs.specs.Jobs.{job, says, left_says, job_answer, output_after, marks_after, complete, EverySample, opened_says, opening_answer, opening_marks};

use by::{Composer, job_by};
use compose::compose_row_pairs;
use early::refusal_of_opening;
use marks::clear;
use plan::Plan;
use refusals::Refusal;
use rules::Work;

// How many row pairs of a picture still wait, and how many are base only.
#[derive(Clone, Copy)]
pub struct Left {
    pub waiting: usize,
    pub base_only: usize,
}

// A job is done, with the row pairs that still wait and those that are base only, or is refused by a number. It is no
// Result: the house rules ask for this answer, done with the rows left or refused with the number alone.
#[derive(Clone, Copy)]
pub enum Answer {
    Done(usize, usize),
    Refused(u8),
}

impl Answer {
    // The refusal's number, 0 where the job is done.
    pub fn number(self) -> u8
        ensures { result ≡ (says self).number }
    {
        match self {
            Answer::Done(_, _) => 0,
            Answer::Refused(number) => number,
        }
    }

    // Whether the job is done and no row pair waits any more.
    pub fn is_complete(self) -> bool
        ensures { result ≡ complete (says self) }
    {
        match self {
            Answer::Done(rows_left, _) => rows_left == 0,
            Answer::Refused(_) => false,
        }
    }
}

impl From<Result<Left, Refusal>> for Answer {
    ghost from_gives = { λ done answer. says answer ≡ left_says done };

    fn from(done: Result<Left, Refusal>) -> Answer {
        match done {
            Ok(left) => Answer::Done(left.waiting, left.base_only),
            Err(refusal) => Answer::Refused(refusal.number()),
        }
    }
}

// The composing process itself, which works mapped samples out by the plan.
#[derive(Clone, Copy)]
struct ByPlan;

impl Composer for ByPlan {
    ghost source = { λ s. by_plan };

    fn compose(
        self,
        plan: Plan,
        work: Work<'_>,
        marks: &[u8],
        output: &mut [u16],
    ) -> Result<(), Refusal> {
        compose_row_pairs(
            plan,
            work.first,
            work.count,
            work.base,
            work.enhancement,
            marks,
            output,
        )
    }
}

// Opens a picture: every row pair waits, and the ticket is handed back as the opened picture's. Refused by rule 7 or
// 9, in this order, it writes nothing.
pub fn open_picture(plan: Plan, ticket: u32, marks: &mut [u8]) -> Result<u32, Refusal>
    ensures answers { opened_says result ≡ opening_answer plan ticket (length marks.old) }
    ensures marking { marks.new ≡ opening_marks plan marks.old }
{
    refusal_of_opening(plan, marks.len())?;
    clear(marks);
    Ok(ticket)
}

// Composes `count` row pairs from `first` on and marks them: all of them as full where the flag is 1 or an enhancement
// is used, and otherwise as base only those that are not full already. Refused by one of the rules 7 to 11, in this
// order, it writes nothing.
pub fn compose_job(
    plan: Plan,
    open_ticket: u32,
    ticket: u32,
    first: usize,
    count: usize,
    base: &[u16],
    enhancement: &[u16],
    output: &mut [u16],
    marks: &mut [u8],
) -> Answer
    ensures answers { says result ≡ job_answer (job plan open_ticket ticket first count base.now enhancement.now) output.old marks.old }
    ensures writes { output.new ≡ output_after (job plan open_ticket ticket first count base.now enhancement.now) output.old marks.old }
    ensures marking { marks.new ≡ marks_after (job plan open_ticket ticket first count base.now enhancement.now) output.old marks.old }
{
    let work = Work {
        first,
        count,
        base,
        enhancement,
    };
    let done = job_by(ByPlan, plan, open_ticket, ticket, work, output, marks);
    Answer::from(done)
}

// Carries demand 2, so that the gate names it: what a job writes is the composing process of clause 5.4, sample by
// sample.
#[tactic(auto, using(crate::proofs::Samples::every_sample_holds))]
pub fn every_sample()
    ensures { EverySample }
{}
