// A picture of the mappings: an SVG, one panel a component, of what every code comes to. Where a component has an MMR
// piece, its panel is a slice: luma and the other chroma sample are both at the middle code.
//
// A panel is 262,144 by 65,536 units, so that every number in it is whole: a code is 256 units wide, or 1,024 where
// there are 256 codes, and a mapped sample v stands v units above the panel's lower edge.
ghost use Rattle.std.specs.Prelude.{◌≤◌};

use crate::counts::{Pivots, component_of, has_mmr, pieces_of, preds_of};
use crate::markup::{AXES, END, GRID, PANEL, START};
use mapping::mapped_table;
use mmr::slice::slice_table;
use plan::Plan;
use saying::{Plane, say};
use std::fmt;

const PANEL_WIDTH: u32 = 262144;

// The codes' bits. Reading has seen to it that BL_bit_depth_minus8 is 0 or 2.
#[derive(Clone, Copy, Debug, PartialEq, Eq)]
enum Depth {
    Eight,
    Ten,
}

impl Depth {
    fn of(plan: &Plan) -> Depth {
        match plan.header.bl {
            0 => Depth::Eight,
            _ => Depth::Ten,
        }
    }

    fn last_code(self) -> u16
        ensures { result ≤ 1023 }
    {
        match self {
            Depth::Eight => 255,
            Depth::Ten => 1023,
        }
    }

    // Where a code stands, or how wide so many are.
    fn across(self, code: u16) -> u32
        ensures { result ≤ 67107840 }
    {
        let unit = match self {
            Depth::Eight => 1024,
            Depth::Ten => 256,
        };
        unit * u32::from(code)
    }
}

// What each code comes to; past the last code nothing is drawn.
#[derive(Clone, Copy)]
struct Curve<'a> {
    table: &'a [u16; 1024],
    depth: Depth,
}

impl Curve<'_> {
    // The least and the greatest mapped sample.
    fn ends(self) -> (u16, u16) {
        let Curve { table, depth } = self;
        let codes = usize::from(depth.last_code()) + 1;
        let mut least = u16::MAX;
        let mut greatest = 0;
        for sample in table.iter().take(codes) {
            least = least.min(*sample);
            greatest = greatest.max(*sample);
        }
        (least, greatest)
    }
}

// The points of the curve.
impl fmt::Display for Curve<'_> {
    fn fmt<W: fmt::Write>(&self, f: &mut fmt::Formatter<W>) -> fmt::Result {
        for (code, sample) in (0..=self.depth.last_code()).zip(self.table) {
            let x = self.depth.across(code);
            let y = u16::MAX.saturating_sub(*sample);
            write!(f, " {x} {y}")?;
        }
        Ok(())
    }
}

// Its red parts: the codes that are mapped to an end.
#[derive(Clone, Copy)]
struct Cut<'a>(Curve<'a>);

impl fmt::Display for Cut<'_> {
    fn fmt<W: fmt::Write>(&self, f: &mut fmt::Formatter<W>) -> fmt::Result {
        let Curve { table, depth } = self.0;
        let width = depth.across(1);
        for (code, sample) in (0..=depth.last_code()).zip(table) {
            if matches!(*sample, 0 | 65535) {
                let x = depth.across(code);
                let y = u16::MAX.saturating_sub(*sample);
                write!(f, "M{x} {y}h{width}")?;
            }
        }
        Ok(())
    }
}

// A piece, from pivot to pivot, shaded in turn, and a dashed line at its first pivot.
#[derive(Clone, Copy)]
struct Shade {
    piece: usize,
    x: u32,
    width: u32,
}

impl fmt::Display for Shade {
    fn fmt<W: fmt::Write>(&self, f: &mut fmt::Formatter<W>) -> fmt::Result {
        let (x, width) = (self.x, self.width);
        let shade = if self.piece % 2 == 0 { "a" } else { "b" };
        write!(f, "<path class=\"{shade}\" d=\"M{x} 0h{width}")?;
        write!(
            f,
            "v65536h-{width}\"/><path class=\"p\" d=\"M{x} 0v65536\"/>"
        )
    }
}

// The pieces, of which one may stand above the last pivot, and a line at the last pivot. What they leave of the panel
// is outside the pivots. No place comes near to where it wraps.
#[derive(Clone, Copy)]
struct Pieces<'a> {
    preds: &'a [u16],
    count: usize,
    depth: Depth,
}

impl fmt::Display for Pieces<'_> {
    fn fmt<W: fmt::Write>(&self, f: &mut fmt::Formatter<W>) -> fmt::Result {
        let Some((first, others)) = self.preds.split_first() else {
            return Ok(());
        };
        let mut x = self.depth.across(*first);
        for (piece, pred) in others.iter().enumerate() {
            let width = self.depth.across(*pred);
            write!(f, "{}", Shade { piece, x, width })?;
            x = x.wrapping_add(width);
        }
        if others.len() < self.count {
            let above = Shade {
                piece: others.len(),
                x,
                width: PANEL_WIDTH.saturating_sub(x),
            };
            write!(f, "{above}")?;
        }
        write!(f, "<path class=\"p\" d=\"M{x} 0v65536\"/>")
    }
}

// What each code comes to. Of a chroma component without MMR pieces a slice is the mapping itself.
fn table_of(plan: &Plan, plane: Plane) -> [u16; 1024] {
    match plane {
        Plane::Y => mapped_table(plan.header, plan.y).unwrap_or([0; 1024]),
        Plane::Cb => slice_table(*plan, false),
        Plane::Cr => slice_table(*plan, true),
    }
}

// Where the picture is said, and what of.
#[derive(Clone, Copy)]
struct Plot<'a> {
    rt: &'a HostRuntime,
    version: u16,
    plan: &'a Plan,
}

impl Plot<'_> {
    // Says the panel of a component, so far below the picture's upper edge. Where it is a slice, the other chroma
    // component is held at the middle code.
    fn panel(self, top: u16, plane: Plane, other: Plane) {
        let Plot { rt, version, plan } = self;
        let c = component_of(plan, plane);
        let table = table_of(plan, plane);
        let depth = Depth::of(plan);
        let last = depth.last_code();
        let curve = Curve {
            table: &table,
            depth,
        };
        let (least, greatest) = curve.ends();
        let preds = preds_of(c);
        let count = pieces_of(c, version).len();
        let pieces = Pieces {
            preds,
            count,
            depth,
        };
        say!(rt; "<g transform=\"translate(70 {top})\"><text class=\"t\" y=\"-28\">{plane}: pieces {count}");
        say!(rt; ", codes 0 to {last}, mapped samples {least} to {greatest}");
        if has_mmr(c) {
            say!(rt; ", luma and {other} at {}", last / 2 + 1);
        }
        say!(rt; "</text><text y=\"-9\">pivots{}\n{PANEL}", Pivots(preds));
        say!(rt; "{pieces}{GRID}<path class=\"v\" d=\"M{curve}\"/>");
        say!(rt; "<path class=\"x\" d=\"{}\"/>{AXES}{last}</text></g>\n", Cut(curve));
    }
}

// The picture of a plan's block, of this version. Luma has no MMR pieces.
pub(crate) fn plot_block(rt: &HostRuntime, version: u16, plan: &Plan) {
    let plot = Plot { rt, version, plan };
    say!(rt; "{START}");
    plot.panel(58, Plane::Y, Plane::Cr);
    plot.panel(356, Plane::Cb, Plane::Cr);
    plot.panel(654, Plane::Cr, Plane::Cb);
    say!(rt; "{END}");
}
