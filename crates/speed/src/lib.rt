// Row jobs of both kinds, the filling of a table, and the writer, as a C harness calls them, for measuring only: each
// answers a number, which is what C takes. `speed_c` exports them. It is a static library, which no crate can use, and
// so what they promise stands here, where `calls` has it.
#![tactic(auto)]

ghost use Rattle.std.specs.Prelude.{◌≡◌, length};
ghost use Rattle.filling.specs.Filling.{filling_answer, table_after};
ghost use Rattle.jobs.specs.Jobs.{job, table_job, job_answer, output_after, marks_after};
ghost use Rattle.writer.specs.Writing.{answer, written};

use filling::fill_table;
use jobs::compose_job;
use plan::Plan;
use table_jobs::compose_table_job;

// 0 where the job is done, else the refusal's number.
pub fn speed_job(
    plan: Plan,
    open_ticket: u32,
    ticket: u32,
    first: usize,
    count: usize,
    base: &[u16],
    enhancement: &[u16],
    output: &mut [u16],
    marks: &mut [u8],
) -> u8
    ensures answers { result ≡ (job_answer (job plan open_ticket ticket first count base.now enhancement.now) output.old marks.old).number }
    ensures writes { output.new ≡ output_after (job plan open_ticket ticket first count base.now enhancement.now) output.old marks.old }
    ensures marking { marks.new ≡ marks_after (job plan open_ticket ticket first count base.now enhancement.now) output.old marks.old }
{
    compose_job(
        plan,
        open_ticket,
        ticket,
        first,
        count,
        base,
        enhancement,
        output,
        marks,
    )
    .number()
}

// The same of a job that is lent a table.
pub fn speed_table_job(
    plan: Plan,
    table: &[u16],
    open_ticket: u32,
    ticket: u32,
    first: usize,
    count: usize,
    base: &[u16],
    enhancement: &[u16],
    output: &mut [u16],
    marks: &mut [u8],
) -> u8
    ensures answers { result ≡ (job_answer (table_job plan table.now open_ticket ticket first count base.now enhancement.now) output.old marks.old).number }
    ensures writes { output.new ≡ output_after (table_job plan table.now open_ticket ticket first count base.now enhancement.now) output.old marks.old }
    ensures marking { marks.new ≡ marks_after (table_job plan table.now open_ticket ticket first count base.now enhancement.now) output.old marks.old }
{
    compose_table_job(
        plan,
        table,
        open_ticket,
        ticket,
        first,
        count,
        base,
        enhancement,
        output,
        marks,
    )
    .number()
}

// 0 where the table is filled, else the refusal's number.
pub fn speed_fill(plan: Plan, table: &mut [u16]) -> u8
    ensures answers { result ≡ (filling_answer plan (length table.old)).number }
    ensures writes { table.new ≡ table_after plan table.old }
{
    refusals::number(fill_table(plan, table))
}

// 0 where the block is written, else the refusal's number.
pub fn speed_write(plan: Plan, version: u16, out: &mut [u8]) -> u8
    ensures answers { result ≡ (answer plan version (length out.old)).number }
    ensures writes { out.new ≡ written plan version out.old }
{
    refusals::number(writer::write(plan, version, out))
}
