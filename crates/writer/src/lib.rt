// The composing block, written from a plan.
#![tactic(auto)]

mod lengths; // of the sections, and so of the block
mod trailer; // the distances back, and the version

ghost use Rattle.std.specs.Prelude.{◌≡◌, length};
ghost use Rattle.plan.specs.inner.Facts.{Sized};
ghost use Rattle.writer.specs.Writing.{block_length, says, answer, written, Limits};

use header_writer::put_header;
use lengths::section_lengths;
use plan::Plan;
use refusals::Refusal;
use rule_seven::passes;
use section_writer::put_section;
use trailer::put_trailer;

// The length of a plan's block of a version, which a slice must have to be written: 138 to 6,160 in version 1, 174 to
// 6,533 in version 2. It is 0, and no `None`, where rule 7 refuses the plan, or it has no block of this version: a
// caller that lends so many bytes then meets rule 7, and not 12.
pub fn length(plan: Plan, version: u16) -> usize
    ensures value { result ≡ block_length plan version }
    ensures limits { Limits plan version result }
{
    if !passes(plan) {
        return 0;
    }
    match section_lengths(&plan, version) {
        Some(lengths) => lengths.block(),
        None => 0,
    }
}

// Writes the block of a plan in a version from the first byte of a lent slice on, and gives its length. Refused by
// rule 7, for the plan or because it has no block of this version, or by rule 12, for a slice that is shorter than the
// block, in this order, it writes nothing; bytes after the block stay. The plan is handed to rule 7 here, and not lent
// on to be tested: it is large, and out of a loan it would be copied once more.
pub fn write(plan: Plan, version: u16, out: &mut [u8]) -> Result<usize, Refusal>
    ensures answers { says result ≡ answer plan version (length out.old) }
    ensures writes { out.new ≡ written plan version out.old }
    ensures sized { Sized plan }
{
    if !passes(plan) {
        return Err(Refusal::Plan);
    }
    let lengths = section_lengths(&plan, version).ok_or(Refusal::Plan)?;
    let size = lengths.block();
    if out.len() < size {
        return Err(Refusal::Room);
    }
    let d = plan.header.d;
    put_header(out, plan.header);
    put_section(out, 24, version, d, &plan.y);
    put_section(out, 24 + lengths.y, version, d, &plan.cb);
    put_section(out, 24 + lengths.y + lengths.cb, version, d, &plan.cr);
    put_trailer(out, lengths, version);
    Ok(size)
}
