// Where the parts of a block stand: in its bytes, which are the last ones of a file, and in the file.
use crate::say;
use files::Word;
use frame::{Trailer, read_trailer};
use std::fmt;

#[derive(Clone, Copy, Debug, PartialEq, Eq)]
pub enum Plane {
    Y,
    Cb,
    Cr,
}

impl Plane {
    pub const ALL: [Plane; 3] = [Plane::Y, Plane::Cb, Plane::Cr];

    // The plane whose section has this number.
    pub(crate) fn of_section(number: usize) -> Option<Plane> {
        Plane::ALL.get(number).copied()
    }
}

impl fmt::Display for Plane {
    fn fmt<W: fmt::Write>(&self, f: &mut fmt::Formatter<W>) -> fmt::Result {
        f.write_str(match self {
            Plane::Y => "Y",
            Plane::Cb => "Cb",
            Plane::Cr => "Cr",
        })
    }
}

// A part of a block: a section for each plane stands between header and trailer.
#[derive(Clone, Copy, Debug, PartialEq, Eq)]
pub enum Part {
    Header,
    Section(Plane),
    Trailer,
}

impl fmt::Display for Part {
    fn fmt<W: fmt::Write>(&self, f: &mut fmt::Formatter<W>) -> fmt::Result {
        match *self {
            Part::Header => f.write_str("header"),
            Part::Section(plane) => write!(f, "section {}, {plane},", plane as usize),
            Part::Trailer => f.write_str("trailer"),
        }
    }
}

// The last bytes of a file, which may be a block, and how many stand before them there.
#[derive(Clone, Copy)]
pub struct LastBytes<'a> {
    pub bytes: &'a [u8],
    pub before: usize,
}

impl<'a> LastBytes<'a> {
    // Those of the file that the word names.
    pub fn of(word: Word, bytes: &'a [u8]) -> Self {
        LastBytes {
            bytes,
            before: word.file_length().saturating_sub(bytes.len()),
        }
    }

    // The bytes from a place on; none past the end.
    pub(crate) fn rest(self, place: usize) -> &'a [u8] {
        self.bytes.get(place..).unwrap_or(&[])
    }

    // The trailer's first byte.
    pub(crate) fn trailer_at(self) -> usize {
        self.bytes.len().saturating_sub(12)
    }

    pub fn trailer(self) -> Trailer {
        read_trailer(self.rest(self.trailer_at()))
    }

    // Where a part begins.
    pub(crate) fn begin_of(self, part: Part) -> usize {
        let trailer = self.trailer();
        let distance = match part {
            Part::Header => trailer.a,
            Part::Section(Plane::Y) => trailer.d0,
            Part::Section(Plane::Cb) => trailer.d1,
            Part::Section(Plane::Cr) => trailer.d2,
            Part::Trailer => 0,
        };
        self.trailer_at().saturating_sub(usize::from(distance))
    }

    // Where the section of a plane ends, which is where the next part begins.
    pub(crate) fn end_of(self, plane: Plane) -> usize {
        self.begin_of(match plane {
            Plane::Y => Part::Section(Plane::Cb),
            Plane::Cb => Part::Section(Plane::Cr),
            Plane::Cr => Part::Trailer,
        })
    }

    // The block alone, from its header on, of bytes that reading accepts.
    pub fn block(self) -> &'a [u8] {
        self.rest(self.begin_of(Part::Header))
    }

    // A place of the bytes, as one of the file. No file is so long that the sum wraps.
    pub(crate) fn in_file(self, place: usize) -> usize {
        self.before.wrapping_add(place)
    }

    // A line that says where a part stands in the file.
    pub fn say_part(self, rt: &HostRuntime, part: Part) {
        say!(rt; "{part} at byte {}\n", self.in_file(self.begin_of(part)));
    }
}
