// The MMR mapping of chroma samples (5.4.2.3.3). It is worked out sample by sample, since it goes by three of them: a
// table of codes does not serve it. Cb and Cr are composed together, as their terms are the same.
#![tactic(auto)]

mod both; // both components made ready
mod chroma; // row pairs of both chroma planes
mod columns; // one row of Cb and of Cr samples
mod format; // what the samples of all rows have in common
pub mod inputs; // what row pairs are composed of
mod kind; // how a piece maps a sample
mod luma; // luma down-sampled to a chroma position
mod ready; // a component made ready
pub mod slice; // a slice through the mapping, to be looked at
mod step; // the mapping step of one piece
mod sum; // the sum over a row's terms, in 64 bits
mod terms; // what the coefficients are multiplied by

ghost use Rattle.std.specs.Prelude.{◌≡◌, length};
ghost use Rattle.plan.specs.inner.Facts.{Sized};
ghost use Rattle.mmr.specs.inner.Chroma.{numbers_fit, pairs_fit, runs_fit, chroma_after, PlanReady, FormatFor, ReadySide};

use both::Both;
use chroma::compose_rows;
use format::{Ends, Format};
use inputs::Inputs;
use plan::limits::MOST_N;
use plan::ranges::header_fits;
use plan::{Header, Plan};
use ready::{Ready, highest_order};
use rules::extent_of;

fn numbers_fit(p: &Plan) -> bool
    ensures { result ≡ numbers_fit p.now.header p.now.y.n p.now.cb.n p.now.cr.n }
{
    header_fits(p.header) & (p.y.n <= MOST_N) & (p.cb.n <= MOST_N) & (p.cr.n <= MOST_N)
}

fn pairs_fit(h: Header, first: usize, last: usize) -> bool
    ensures { result ≡ pairs_fit h first last }
{
    (first <= last) & (last <= (h.pairs as usize))
}

fn runs_fit(h: Header, base: usize, enhancement: usize, output: usize) -> bool
    ensures { result ≡ runs_fit h base enhancement output }
{
    let size = extent_of(h).picture_size();
    (base == size) & ((enhancement == size) & (output == size))
}

// What all samples go by: the depths, the pivots' ends of three components, and the highest order of both chroma
// components.
fn format_of(p: &Plan) -> Format
    requires { PlanReady p.now }
    ensures { FormatFor p.now result }
{
    let depth = (p.header.bl as u32) + 8;
    Format {
        depth: depth,
        codes: (1u64 << depth) as u16,
        d: p.header.d,
        order: highest_order(&p.cb).max(highest_order(&p.cr)),
        y: Ends::of(&p.y),
        cb: Ends::of(&p.cb),
        cr: Ends::of(&p.cr),
    }
}

// Both components of a plan that can be computed with, made ready.
fn both_of(p: &Plan) -> Both
    requires ready { PlanReady p.now }
    requires sized { Sized p.now }
    ensures format { FormatFor p.now result.format }
    ensures cb { ReadySide p.now.header.d p.now.cb result.cb }
    ensures cr { ReadySide p.now.header.d p.now.cr result.cr }
{
    Both {
        format: format_of(p),
        cb: Ready::of(p.header.d, &p.cb),
        cr: Ready::of(p.header.d, &p.cr),
    }
}

// Composes the row pairs of Cb and Cr from `first` up to, but not including, `last`: each sample is mapped, a raised
// residual of its enhancement sample is added, and the HDR sample is cut out of the sum. Row pairs that are full by
// the marks are kept. Where the plan's numbers cannot be computed with, or the runs are not whole pictures, nothing is
// written.
pub fn compose_chroma(plan: Plan, first: usize, last: usize, inputs: &Inputs, output: &mut [u16])
    ensures { output.new ≡ chroma_after plan first last inputs.now.cb_raised.now inputs.now.cr_raised.now inputs.now.cut inputs.now.marks.now inputs.now.base.now inputs.now.enhancement.now output.old }
{
    let h = plan.header;
    if !numbers_fit(&plan) {
        return;
    }
    if !pairs_fit(h, first, last) {
        return;
    }
    if !runs_fit(h, inputs.base.len(), inputs.enhancement.len(), output.len()) {
        return;
    }
    let both = both_of(&plan);
    // copied, so that the compiler sees that no store to the output changes it
    let inputs = *inputs;
    compose_rows(&both, &inputs, extent_of(h).planes(), first, last, output);
}
