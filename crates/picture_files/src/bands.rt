// A picture is composed band by band, each a picture of its own height: a sample depends on its own row pair only. So
// any picture goes through a small memory, and a band is read from and written to its places in the planes of the
// file.
ghost use Rattle.std.specs.Prelude.{◌<◌};

use picture::chroma_size;
use std::fs::File;
use std::io::{Error, ErrorKind, Result};

// The samples of a band at most: eight row pairs of the widest picture.
pub const BAND: usize = 98304;

// Of these a sixth are Cb's.
const CHROMA: u16 = (BAND / 6) as u16;

// How many row pairs of so many columns fit in a band; at least one.
pub fn pairs_in_band(columns: u16) -> u16
    ensures { 0 < result }
{
    CHROMA.checked_div(columns).unwrap_or(1).max(1)
}

// Row pairs of a picture, whose first byte in the file is `start`.
#[derive(Clone, Copy)]
pub struct Band {
    pub picture: usize,
    pub start: usize,
    pub columns: u16,
    pub pairs: u16,
    pub first: u16,
    pub count: u16,
}

// What a band has of a plane: its first byte in the file, and its samples in the band's run.
#[derive(Clone, Copy)]
struct Part {
    place: usize,
    from: usize,
    to: usize,
}

impl Part {
    fn load(self, file: &File, run: &mut [u16]) -> Result<()> {
        match run.get_mut(self.from..self.to) {
            Some(samples) => files::load(file, self.place, samples),
            None => Err(Error::from(ErrorKind::InvalidData)),
        }
    }

    fn store(self, file: &File, run: &[u16]) -> Result<()> {
        match run.get(self.from..self.to) {
            Some(samples) => files::store(file, self.place, samples),
            None => Err(Error::from(ErrorKind::InvalidData)),
        }
    }
}

impl Band {
    // How many samples its run has.
    pub fn samples(self) -> usize {
        6 * chroma_size(self.columns, self.count)
    }

    // The band of a picture that begins elsewhere.
    pub(crate) fn moved(self, start: usize) -> Band {
        Band { start, ..self }
    }

    // What it has of Y, Cb and Cr.
    fn parts(self) -> [Part; 3] {
        let n = chroma_size(self.columns, self.count);
        let plane = chroma_size(self.columns, self.pairs);
        let above = chroma_size(self.columns, self.first);
        [
            Part {
                place: self.start.wrapping_add(8 * above),
                from: 0,
                to: 4 * n,
            },
            Part {
                place: self.start.wrapping_add(8 * plane + 2 * above),
                from: 4 * n,
                to: 5 * n,
            },
            Part {
                place: self.start.wrapping_add(10 * plane + 2 * above),
                from: 5 * n,
                to: 6 * n,
            },
        ]
    }

    // Loads the band from the file; an error where it cannot be read.
    pub fn load(self, file: &File, run: &mut [u16]) -> Result<()> {
        for part in self.parts() {
            part.load(file, run)?;
        }
        Ok(())
    }

    // Stores the band to the file; the error says why a plane of it, the last of those, cannot be written.
    pub fn store(self, file: &File, run: &[u16]) -> Result<()> {
        let mut stored = Ok(());
        for part in self.parts() {
            if let Err(error) = part.store(file, run) {
                stored = Err(error);
            }
        }
        stored
    }
}
