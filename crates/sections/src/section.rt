// The whole of a section: the number of pivots, the pivots, the pieces and the residual's numbers, and nothing left
// over.
ghost use Rattle.std.specs.Prelude.{◌≡◌, ◌≤◌};
ghost use Rattle.plan.specs.Rule7.{pivot_places};
ghost use Rattle.fields.specs.inner.Readers.{as_read, filled};
ghost use Rattle.sections.specs.Sections.{pivot, nlq, section};

use crate::filling::filled;
use crate::fraction::{below_power, unsigned};
use crate::pieces::held;
use fields::kinds::Kind;
use fields::{Failure, Width, at_most, ended};
use plan::limits::{MOST_N, PIVOTS};
use plan::ranges::FittingHeader;
use plan::{Component, Nlq};
use refusals::Refusal;
use section_fields::asked;

fn pivot(rest: &mut &[u8], h: FittingHeader, k: usize, i: usize) -> Result<u16, Failure>
    ensures { as_read result rest.new.now ≡ pivot h.header k i rest.old.now }
{
    let a = asked(Kind::PredPivotValue, k, i, 0, Width::Two);
    Ok(below_power(rest, a, h.bl_depth())? as u16)
}

fn pivots(
    rest: &mut &[u8],
    h: FittingHeader,
    k: usize,
    count: usize,
) -> Result<[u16; PIVOTS], Failure>
    requires { count ≤ pivot_places }
    ensures { as_read result rest.new.now ≡ filled pivot_places 0 count (pivot h.header k) rest.old.now }
{
    filled(rest, 0, count, |rest, i| pivot(rest, h, k, i))
}

fn nlq(rest: &mut &[u8], h: FittingHeader, k: usize) -> Result<Nlq, Failure>
    ensures { as_read result rest.new.now ≡ nlq h.header k rest.old.now }
{
    let a = asked(Kind::NlqOffset, k, 0, 0, Width::Two);
    let offset = below_power(rest, a, h.el_depth())? as u16;
    let maximum = unsigned(rest, h, k, Kind::HdrInMaxInt)?;
    let slope = unsigned(rest, h, k, Kind::SlopeInt)?;
    let threshold = unsigned(rest, h, k, Kind::ThresholdInt)?;
    Ok(Nlq {
        offset,
        maximum,
        slope,
        threshold,
    })
}

// Section k of a block of a version, which is the whole of what is lent. Version 1 carries no piece n + 1, and piece n
// stands for it. Where a field failed, what is left begins with it.
pub fn read_section(
    rest: &mut &[u8],
    version: u16,
    h: FittingHeader,
    k: usize,
) -> Result<Component, Failure>
    ensures { as_read result rest.new.now ≡ section version h.header k rest.old.now }
{
    let a = asked(Kind::NumPivotsMinus2, k, 0, 0, Width::One);
    let n = at_most(rest, a, u64::from(MOST_N), Refusal::Field)? as u8;
    let preds = pivots(rest, h, k, usize::from(n) + 2)?;
    let pieces = held(rest, version, h, k, n)?;
    let nlq = nlq(rest, h, k)?;
    let over = asked(Kind::LeftOver, k, 0, 0, Width::One);
    ended(rest, over.name, Refusal::Length)?;
    Ok(Component {
        n,
        preds,
        pieces,
        nlq,
    })
}
