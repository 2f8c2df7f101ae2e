// A table of mapped samples that is lent: what each code of luma, of Cb and of Cr comes to, for jobs that look it up.
#![tactic(auto)]

ghost use Rattle.std.specs.Prelude.{◌≡◌, cond, ◌+◌, ◌-◌, ◌≤◌, length};
ghost use Rattle.runs.specs.Runs.{painted, between};
ghost use Rattle.runs.specs.inner.Loops.{at};
ghost use Rattle.plan.specs.Ranges.{header_fits};
ghost use Rattle.plan.specs.Tables.{table_size};
ghost use Rattle.filling.specs.Filling.{says, filling_answer, table_after};

use mapping::mapped_table;
use plan::ranges::FittingHeader;
use plan::{Header, Plan};
use refusals::Refusal;
use rule_seven::{all_polynomials, passes};

// How many samples the table of a header's plan has, 3 x 2^BL_bit_depth. It is 0, and no `None`, where the header does
// not pass rule 7: a caller that lends so many samples then meets rule 7, and not 9.
pub fn table_size(h: Header) -> usize
    ensures { result ≡ cond (header_fits h) (table_size h) 0 }
{
    match FittingHeader::of(h) {
        Some(h) => 3 << h.bl_depth(),
        None => 0,
    }
}

// One component's part, from `from` on: so many codes of its table.
fn fill_part(mapped: &[u16; 1024], codes: usize, from: usize, table: &mut [u16])
    requires { (codes ≤ 1024) × (from + codes ≤ length table.old) }
    ensures { table.new ≡ painted (between from (from + codes)) (λ i. at mapped.now (i - from)) table.old }
{
    table[from..from + codes].copy_from_slice(&mapped[..codes]);
}

// Fills a table with the mapped samples of a plan: of luma, then of Cb, then of Cr, by their codes. Refused by rule 7,
// 9 or 13, in this order, it writes nothing. A plan that passes rule 7 has a component with no table where rule 13 is
// met.
pub fn fill_table(plan: Plan, table: &mut [u16]) -> Result<(), Refusal>
    ensures answers { says result ≡ filling_answer plan (length table.old) }
    ensures writes { table.new ≡ table_after plan table.old }
{
    if !passes(plan) {
        return Err(Refusal::Plan);
    }
    if table.len() != table_size(plan.header) {
        return Err(Refusal::Run);
    }
    // Asked before any table is made, so that a plan that has none is refused at once.
    if !all_polynomials(plan) {
        return Err(Refusal::Method);
    }
    let luma = mapped_table(plan.header, plan.y).ok_or(Refusal::Method)?;
    let blue = mapped_table(plan.header, plan.cb).ok_or(Refusal::Method)?;
    let red = mapped_table(plan.header, plan.cr).ok_or(Refusal::Method)?;
    let codes = table.len() / 3;
    fill_part(&luma, codes, 0, table);
    fill_part(&blue, codes, codes, table);
    fill_part(&red, codes, 2 * codes, table);
    Ok(())
}
