// Which sample of a refused job is too large.
use crate::bands::Band;
use crate::names::Names;
use crate::schedule::Named;
use files::Word;
use picture::chroma_size;
use plan::Header;
use refusals::Refusal;
use saying::{Plane, Said, advice_of, say, say_refused};

// The samples of a plane that a job names: where they begin and end in the band's run, how wide a row is, how many rows
// of the picture stand before the run's first, and where the plane begins in the run.
#[derive(Clone, Copy)]
struct Part {
    from: usize,
    to: usize,
    width: usize,
    above: usize,
    origin: usize,
}

impl Part {
    // Y has four samples for each of Cb's.
    fn of(plane: Plane, band: Band, named: Named) -> Part {
        let n = chroma_size(band.columns, band.count);
        let before = chroma_size(band.columns, named.first);
        let count = chroma_size(band.columns, named.count);
        let (size, doubled, origin) = match plane {
            Plane::Y => (4, 2, 0),
            Plane::Cb => (1, 1, 4 * n),
            Plane::Cr => (1, 1, 5 * n),
        };
        let from = origin + size * before;
        Part {
            from,
            to: from + size * count,
            width: chroma_size(band.columns, doubled),
            above: chroma_size(band.first, doubled),
            origin,
        }
    }
}

// A sample that is too large, by its row and column in the picture's plane.
#[derive(Clone, Copy)]
struct Large {
    plane: Plane,
    row: usize,
    column: usize,
    sample: u16,
}

// A job that is refused: the row pairs that it names of a band, and the runs that it brings.
#[derive(Clone, Copy)]
pub struct RefusedJob<'a> {
    pub names: Names<'a>,
    pub header: Header,
    pub band: Band,
    pub named: Named,
    pub base: &'a [u16],
    pub enhancement: &'a [u16],
}

impl RefusedJob<'_> {
    // What samples are to be less than.
    fn limit(self) -> u16 {
        match self.header.bl {
            0 => 256,
            _ => 1024,
        }
    }

    // The first sample of a plane that is too large, of those that the job names of a run.
    fn large_in(self, plane: Plane, run: &[u16]) -> Option<Large> {
        let limit = self.limit();
        let part = Part::of(plane, self.band, self.named);
        let named = run.get(part.from..part.to.min(run.len()))?;
        let k = named.iter().position(|sample| limit <= *sample)?;
        let behind = part.from.wrapping_add(k).wrapping_sub(part.origin);
        Some(Large {
            plane,
            row: behind.checked_div(part.width)?.wrapping_add(part.above),
            column: behind.checked_rem(part.width)?,
            sample: *named.get(k)?,
        })
    }

    // The first one of all planes.
    fn first_large(self, run: &[u16]) -> Option<Large> {
        for plane in Plane::ALL {
            if let Some(large) = self.large_in(plane, run) {
                return Some(large);
            }
        }
        None
    }

    // Says the sample that is too large in one file.
    fn say_large(self, word: Word, large: Large) -> Said {
        let Large {
            plane,
            row,
            column,
            sample,
        } = large;
        let rule = Refusal::Sample;
        let picture = self.band.picture;
        say_refused(word, rule);
        say!(word.rt; ": picture {picture}, {plane} row {row} column {column} is {sample}");
        say!(word.rt; ", allowed less than {}; {}\n", self.limit(), advice_of(rule));
        Said
    }

    // Says why. No rule but that of a sample can come of files whose lengths were tested and jobs that name the band's
    // own row pairs.
    pub fn say(self, rule: Refusal) -> Said {
        let Names {
            base,
            enhancement,
            ..
        } = self.names;
        if rule != Refusal::Sample {
            say_refused(base, rule);
            say!(base.rt; "; {}\n", advice_of(rule));
        } else if let Some(large) = self.first_large(self.base) {
            self.say_large(base, large);
        } else if let Some(large) = self.first_large(self.enhancement) {
            self.say_large(enhancement, large);
        }
        Said
    }
}
