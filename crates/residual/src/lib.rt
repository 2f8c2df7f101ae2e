// The residual (5.4.3.2) and the reconstruction (5.4.3.3), as tables of what every code, mapped sample and sum comes
// to. Each is zeros where the header or the quantization cannot be computed with.
#![tactic(auto)]

mod depths; // what residuals are computed with
mod growing; // the residuals of the codes on one side of the offset
mod rounding; // the reconstruction of one HDR sample
mod scaling; // the scaled distance of a code from the offset

ghost use Rattle.std.specs.Prelude.{◌≡◌, ◌&&◌, cond, ◌^◌, length};
ghost use Rattle.runs.specs.Runs.{painted};
ghost use Rattle.runs.specs.inner.Loops.{below};
ghost use Rattle.plan.specs.Ranges.{el_depth, hdr_depth, header_fits};
ghost use Rattle.plan.specs.Rule7.{nlq_fits};
ghost use Rattle.residual.specs.inner.Steps.{raised_code};
ghost use Rattle.residual.specs.inner.Tables.{residual_table, residual_pair, no_residual, finished_table, cut_numbers};

use depths::Depths;
use growing::go_on;
use plan::ranges::FittingHeader;
use plan::{Header, Nlq};
use rounding::{finish, power, raise};
use rule_seven::quantizes;
use sums::Cut;

// The raised residual of each code, in a table: of those below the offset, of that at it, and of those above it. Where
// they cannot be computed the table stays as it is.
fn fill_residuals(table: &mut [u32; 1024], h: Header, q: Nlq)
    requires { length table.old ≡ 1024 }
    ensures { table.new ≡ cond (header_fits h && nlq_fits h q) (painted (below (2 ^ el_depth h)) (raised_code (hdr_depth h) (el_depth h) h.d q) table.old) table.old }
{
    if !quantizes(h, q) {
        return;
    }
    let depths = Depths {
        el: (h.el as u32) + 8,
        d: h.d as u32,
        out: (h.hdr as u32) + 8,
    };
    let codes = power(depths.el) as u16;
    let o = q.offset;
    go_on(table, 0, o, depths, q, -1);
    table[o as usize] = raise(depths.out, 0);
    go_on(table, o + 1, codes, depths, q, 1);
}

pub fn residual_table(h: Header, q: Nlq) -> [u32; 1024]
    ensures { result ≡ residual_table h q }
{
    let mut table = [0u32; 1024];
    fill_residuals(&mut table, h, q);
    table
}

// The tables of two quantizations, for whoever composes two planes together. They are made in one call: a table that is
// handed back to more callers is no longer put into the loop of a plane, which costs a job with an enhancement a
// microsecond.
#[derive(Clone, Copy)]
pub struct Pair {
    pub first: [u32; 1024],
    pub second: [u32; 1024],
}

pub fn residual_pair(h: Header, a: Nlq, b: Nlq) -> Pair
    ensures { result ≡ residual_pair h a b }
{
    let mut first = [0u32; 1024];
    fill_residuals(&mut first, h, a);
    let mut second = [0u32; 1024];
    fill_residuals(&mut second, h, b);
    Pair { first, second }
}

// The raised residual of no residual, for every code: where samples are added up whose enhancement says nothing.
pub fn no_residual(h: Header) -> [u32; 1024]
    ensures { result ≡ no_residual h }
{
    match FittingHeader::of(h) {
        Some(h) => [raise(h.hdr_depth(), 0); 1024],
        None => [0; 1024],
    }
}

// The HDR sample of each mapped sample of a run, of at most 1,024, where there is no residual.
pub fn finished_table(h: Header, mapped: &[u16]) -> [u16; 1024]
    ensures { result ≡ finished_table h mapped.now }
{
    let Some(h) = FittingHeader::of(h) else {
        return [0; 1024];
    };
    let out = h.hdr_depth();
    let mut table = [0; 1024];
    for s in 0..mapped.len().min(1024) {
        table[s] = finish(out, mapped[s]);
    }
    table
}

// How an HDR sample is cut out of a sixteenth of a sum: it depends on the depth alone, so that it serves three
// components.
pub fn cut_numbers(h: Header) -> Cut
    ensures { result ≡ cut_numbers h }
{
    let Some(h) = FittingHeader::of(h) else {
        return Cut {
            shift: 0,
            low: 0,
            most: 0,
        };
    };
    let out = h.hdr_depth();
    let codes = power(out) as u16;
    Cut {
        shift: 12 - out,
        low: 2 * codes,
        most: codes - 1,
    }
}
