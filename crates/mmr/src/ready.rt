// A chroma component made ready, once a call: its pivots, and the kind of each piece. A piece that breaks its ranges is
// broken, so that nothing is asked of the plan.
ghost use Rattle.std.specs.Prelude.{◌≡◌, cond, ◌+◌, ◌<◌, ◌≤◌, ◌^◌, leb, nat_abs};
ghost use Rattle.plan.specs.Ranges.{most_n};
ghost use Rattle.standard.specs.Mapping.{pivot_idx};
ghost use Rattle.plan.specs.Rule7.{is_zero, piece_places, pieces_used};
ghost use Rattle.plan.specs.inner.Facts.{Arrays};
ghost use Rattle.runs.specs.inner.Loops.{at};
ghost use Rattle.steps.specs.inner.Steps.{Rising};
ghost use Rattle.mmr.specs.inner.Apart.{wide_most};
ghost use Rattle.mmr.specs.inner.Steps.{piece_value, row_of, kind_at};
ghost use Rattle.mmr.specs.inner.Given.{SideGiven};
ghost use Rattle.mmr.specs.inner.Ready.{row_within, kind_by, Kinds, Highest};
ghost use Rattle.mmr.specs.inner.Chroma.{ReadySide};

use crate::kind::{Kind, Width};
use crate::step::step_of;
use crate::terms::Terms;
use plan::Component;
use plan::limits::{PIECES, PIVOTS, ROW};
use plan::methods::{MMR, coefficients_used};
use steps::{piece_of, pivots_of};

// The rows stay where they lie, in the component.
#[derive(Clone, Copy)]
pub(crate) struct Ready<'a> {
    pub component: &'a Component,
    pub pivots: [u16; PIVOTS],
    pub kinds: [Kind; PIECES],
}

impl<'a> Ready<'a> {
    pub fn of(d: u8, c: &'a Component) -> Self
        requires few { (d ≤ 32) × (c.now.n ≤ most_n) }
        requires arrays { Arrays c.now }
        ensures { ReadySide d c.now result }
    {
        Ready {
            component: c,
            pivots: pivots_of(c.preds),
            kinds: kinds_of(d, c),
        }
    }

    // The piece of a sample, which is not clamped yet.
    pub fn piece_of(&self, s: u16) -> usize
        ensures piece { Rising (at self.now.pivots) → self.now.component.now.n ≤ most_n → result ≡ pivot_idx (at self.now.pivots) self.now.component.now.n s }
    {
        piece_of(&self.pivots, self.component.n as usize, s)
    }

    // The mapped sample of a piece, at its sample's own term.
    pub fn mapped(&self, d: u8, p: usize, t: u64, ts: &Terms) -> u16
        requires d_bound { (d ≤ 32) × (t ≤ 2 ^ 20) }
        requires side_given { SideGiven d self.now }
        requires p_in_bounds { p < piece_places }
        ensures { result ≡ piece_value ts.now.order d (kind_at self.now p) (row_of self.now p) t ts.now.tt }
    {
        step_of(d, self.kinds[p], &self.component.pieces[p].row, t, ts)
    }
}

// The absolute value up to which one product a term is enough, 2 ^ 38.
const NARROW_MOST: u64 = 274877906944;

fn place_within(most: u64, used: bool, z: i64) -> bool
    ensures { result ≡ cond used (leb (nat_abs z) most) (is_zero z) }
{
    if used {
        z.unsigned_abs() <= most
    } else {
        z == 0
    }
}

// A row of which the first `used` places are used.
fn row_within(most: u64, used: usize, row: &[i64; ROW]) -> bool
    ensures { result ≡ row_within most used row.now }
{
    let mut within = true;
    for (i, z) in row.iter().enumerate() {
        within = within & place_within(most, i < used, *z);
    }
    within
}

// 65,536.0, the absolute value that no coefficient exceeds.
fn wide_most(d: u8) -> u64
    requires { d ≤ 32 }
    ensures { (result ≡ wide_most d) × (result ≤ 2 ^ 48) }
{
    65536u64 << (d as u32)
}

#[tactic(auto, unfolding(crate::specs::inner::Ready::kind_by))]
fn kind_of(d: u8, idc: u8, order: u8, row: &[i64; ROW]) -> Kind
    requires { d ≤ 32 }
    ensures { result ≡ kind_by d idc order row.now }
{
    let used = coefficients_used(idc, order);
    let narrow = row_within(NARROW_MOST, used, row);
    let wide = row_within(wide_most(d), used, row);
    match idc {
        0 if narrow => Kind::Polynomial,
        MMR if narrow => Kind::Mmr(Width::Narrow),
        MMR if wide => Kind::Mmr(Width::Wide),
        _ => Kind::Broken,
    }
}

fn kinds_of(d: u8, c: &Component) -> [Kind; PIECES]
    requires { (d ≤ 32) × (c.now.n ≤ most_n) }
    ensures { Kinds d c.now (pieces_used c.now.n) result }
{
    let used = (c.n as usize) + 2;
    let mut kinds = [Kind::Broken; PIECES];
    for (p, q) in c.pieces[..used].iter().enumerate() {
        kinds[p] = kind_of(d, q.idc, q.order, &q.row);
    }
    kinds
}

// The highest order of a component's MMR pieces, which no term beyond is needed for.
pub(crate) fn highest_order(c: &Component) -> usize
    requires { c.now.n ≤ most_n }
    ensures { Highest c.now (pieces_used c.now.n) result }
{
    let used = (c.n as usize) + 2;
    let mut order: usize = 1;
    for q in &c.pieces[..used] {
        if q.idc == MMR {
            let own = (q.order as usize) + 1;
            order = order.max(own.min(3));
        }
    }
    order
}
