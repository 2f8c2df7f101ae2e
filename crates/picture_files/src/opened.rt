// The open files of one group, and what they hold. What is written goes to a file beside the output, which is then
// moved into place.
use crate::bands::Band;
use crate::names::{Names, Pictures, say_ended, say_task};
use crate::schedule::Way;
use files::Word;
use picture::chroma_size;
use plan::Header;
use saying::{Said, say, say_word};
use std::fs::File;
use std::io::{Error, ErrorKind, Result as IoResult};

// A file to read.
#[derive(Drop)]
enum Source {
    Unused,
    Gone, // meanwhile
    Open(File),
}

impl Source {
    fn open(word: Word) -> Source {
        match word.open() {
            Ok(file) => Source::Open(file),
            Err(_) => Source::Gone,
        }
    }

    // Loads a band, where one is used.
    fn load(&self, band: Band, run: &mut [u16]) -> IoResult<()> {
        match self {
            Source::Unused => Ok(()),
            Source::Gone => Err(Error::from(ErrorKind::NotFound)),
            Source::Open(file) => band.load(file, run),
        }
    }
}

// `pictures` are those of the base, each of `size` bytes.
#[derive(Drop)]
pub struct Files<'a> {
    pub names: Names<'a>,
    pub way: Way,
    pub pictures: usize,
    pub size: usize,
    base: Source,
    enhancement: Source,
    output: File,
}

impl<'a> Files<'a> {
    // Opens the files of pictures with this header, which hold whole pictures, and makes the one beside the output;
    // says why, where that cannot be. An enhancement that is not used is not even opened.
    pub fn open(names: Names<'a>, way: Way, h: Header) -> Result<Self, Said> {
        let size = 12 * chroma_size(h.columns, h.pairs);
        let pictures = names.pictures(size)?;
        let enhanced = names.is_enhanced(h);
        if enhanced {
            names.enhancement_fits()?;
        }
        say_task(names.output.rt, h, pictures, enhanced);
        let created = names.output.create_beside();
        let output = created.map_err(|error| names.say_unwritten(&error))?;
        Ok(Files {
            names,
            way,
            pictures,
            size,
            base: Source::open(names.base),
            enhancement: if enhanced {
                Source::open(names.enhancement)
            } else {
                Source::Unused
            },
            output,
        })
    }

    // Whether an enhancement is used.
    pub fn is_enhanced(&self) -> bool {
        !matches!(self.enhancement, Source::Unused)
    }

    // Loads the band; says why, where it cannot be read.
    pub fn load(&self, band: Band, base: &mut [u16], enhancement: &mut [u16]) -> Result<(), Said> {
        if self.base.load(band, base).is_err() {
            return Err(say_ended(self.names.base));
        }
        if self.enhancement.load(band, enhancement).is_err() {
            return Err(say_ended(self.names.enhancement));
        }
        Ok(())
    }

    // Stores the band; says why, where it cannot be written.
    fn store_there(&self, band: Band, output: &[u16]) -> Result<(), Said> {
        let stored = band.store(&self.output, output);
        stored.map_err(|error| self.names.say_unwritten(&error))
    }

    // Stores a late group's band as it is before the enhancement comes: in the first of the picture's two.
    pub fn store_early(&self, band: Band, output: &[u16]) -> Result<(), Said> {
        self.store_there(band.moved(twice(band.start)), output)
    }

    // Stores the band as it is in the end: of a late group in the second of the picture's two.
    pub fn store(&self, band: Band, output: &[u16]) -> Result<(), Said> {
        let there = match self.way {
            Way::Late => band.moved(twice(band.start).wrapping_add(self.size)),
            _ => band,
        };
        self.store_there(there, output)
    }

    // How many pictures the output has: of a late group each of them twice, without the enhancement and then with it.
    fn pictures_out(&self) -> Pictures {
        match self.way {
            Way::Late => Pictures(twice(self.pictures)),
            _ => Pictures(self.pictures),
        }
    }

    // Closes the files, once all that was written has reached the disk, where it is whole; says why where it has not.
    fn keep(self, composed: Result<(), Said>) -> Result<(), Said> {
        composed?;
        let names = self.names;
        let kept = self.output.sync_data();
        kept.map_err(|error| names.say_unwritten(&error))
    }

    // Closes the files, and moves what was written into place, or removes it where it is not whole.
    pub fn close(self, composed: Result<(), Said>) -> Result<(), Said> {
        let names = self.names;
        let pictures = self.pictures_out();
        let kept = self.keep(composed);
        let closed = kept.and_then(|()| finish(names, pictures));
        if closed.is_err() {
            names.output.remove_beside();
        }
        closed
    }
}

// Twice a place or a number of pictures. No file reaches 2^63 bytes, so what is doubled here never wraps.
fn twice(n: usize) -> usize {
    n.wrapping_mul(2)
}

// The file beside is whole: moves it into place, and says its check sum as it stands.
fn finish(names: Names, pictures: Pictures) -> Result<(), Said> {
    let output = names.output;
    let sum = output.sum_beside();
    let moved = output.move_into_place();
    moved.map_err(|error| names.say_unwritten(&error))?;
    say_word(output);
    say!(output.rt; ": {pictures}, Adler-32 {sum}\n");
    Ok(())
}
