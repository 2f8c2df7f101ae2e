// A block that is read, and the line about one that is refused: the rule, where its failure was met, what was found
// there and what is allowed.
use crate::errors::need_readable;
use crate::field::Found;
use crate::header::{Column, place_of};
use crate::parts::{LastBytes, Part, Plane};
use crate::rules::{advice_of, name_of, rule_of, say_refused};
use crate::{Said, say, say_word};
use fields::Name;
use files::Word;
use plan::Plan;
use refusals::Refusal;
use std::fmt;

// A block that is refused: the rule, and the byte and the field where its failure was met. Rules 1 and 2 name no field.
#[derive(Clone, Copy)]
pub struct Refused {
    rule: Refusal,
    place: usize,
    field: Option<Name>,
}

// Reads a block to its plan, as the crate `block` does.
pub fn read_block(bytes: &[u8]) -> Result<Plan, Refused> {
    let reading = block::read(bytes);
    match rule_of(reading.number) {
        None => Ok(reading.plan),
        Some(rule) => Err(Refused {
            rule,
            place: reading.place,
            field: reading.field,
        }),
    }
}

// The plan of the block that a file is, and its last bytes, in this room; says why, where there is none. An empty file
// can be read, and is refused as a block.
pub fn read_file<'r>(word: Word, room: &'r mut [u8]) -> Result<(Plan, &'r [u8]), Said> {
    need_readable(word)?;
    let bytes = word.last_bytes(room);
    match read_block(bytes) {
        Ok(plan) => Ok((plan, bytes)),
        Err(refused) => Err(refused.say(word, bytes)),
    }
}

impl Refused {
    // The first byte of the field that was refused: of a header, all of which is refused at its begin, the column's.
    pub fn first_byte(self) -> usize {
        match (self.rule, self.field) {
            (Refusal::Header, Some(field)) => self.place.wrapping_add(place_of(field.kind)),
            _ => self.place,
        }
    }

    // Says it of the bytes, which are the last ones of the file that the word names; places are said as the file's.
    pub fn say(self, word: Word, bytes: &[u8]) -> Said {
        let last = LastBytes::of(word, bytes);
        say_refused(word, self.rule);
        if self.rule != Refusal::Short {
            say!(word.rt; " at byte {}", last.in_file(self.place));
        }
        let what = What {
            refused: self,
            last,
        };
        say!(word.rt; ": {what}; {}\n", advice_of(self.rule));
        Said
    }

    // Says it of a block that was made of the text which the word names, with a line of the text in place of the byte.
    // Who wrote the text is told, so no advice is given.
    pub fn say_line(self, word: Word, line: usize, bytes: &[u8]) -> Said {
        let what = What {
            refused: self,
            last: LastBytes { bytes, before: 0 },
        };
        let number = self.rule.number();
        let name = name_of(self.rule);
        say_word(word);
        say!(word.rt; ": line {line}: refused {number} ({name}): {what}\n");
        Said
    }
}

// What was found, and what is allowed.
#[derive(Clone, Copy)]
struct What<'a> {
    refused: Refused,
    last: LastBytes<'a>,
}

impl fmt::Display for What<'_> {
    fn fmt<W: fmt::Write>(&self, f: &mut fmt::Formatter<W>) -> fmt::Result {
        let last = self.last;
        let Refused { rule, place, field } = self.refused;
        match (rule, field) {
            (Refusal::Short, _) => Short(last).fmt(f),
            (Refusal::Trailer, _) => Wrong(last).fmt(f),
            (Refusal::Length, Some(field)) => Section {
                number: field.first,
                last,
            }
            .fmt(f),
            (Refusal::Header, Some(field)) => Column {
                kind: field.kind,
                head: last.rest(place),
            }
            .fmt(f),
            (_, Some(field)) => Found {
                field,
                bytes: last.rest(place),
                head: last.block(),
            }
            .fmt(f),
            (_, None) => Ok(()),
        }
    }
}

// Rule 1. It is never met in a file that is longer than what was read of it: a trailer cannot point back so far.
#[derive(Clone, Copy)]
struct Short<'a>(LastBytes<'a>);

impl fmt::Display for Short<'_> {
    fn fmt<W: fmt::Write>(&self, f: &mut fmt::Formatter<W>) -> fmt::Result {
        let length = self.0.bytes.len();
        if length < 12 {
            return write!(f, "{length} bytes, allowed 12 or more");
        }
        let a = self.0.trailer().a;
        write!(f, "A is {a}, allowed at most {}", self.0.trailer_at())
    }
}

// Rule 2.
#[derive(Clone, Copy)]
struct Wrong<'a>(LastBytes<'a>);

impl fmt::Display for Wrong<'_> {
    fn fmt<W: fmt::Write>(&self, f: &mut fmt::Formatter<W>) -> fmt::Result {
        let x = self.0.trailer();
        write!(
            f,
            "A is {}, D0 is {}, D1 is {}, D2 is {}, ",
            x.a, x.d0, x.d1, x.d2
        )?;
        write!(f, "version is {}, zero is {}, ", x.version, x.last)?;
        f.write_str("allowed A = D0 + 24, D0 > D1 > D2 > 0, version 1 or 2, zero 0")
    }
}

// Rule 3, in the section of this number.
#[derive(Clone, Copy)]
struct Section<'a> {
    number: usize,
    last: LastBytes<'a>,
}

impl fmt::Display for Section<'_> {
    fn fmt<W: fmt::Write>(&self, f: &mut fmt::Formatter<W>) -> fmt::Result {
        let Section { number, last } = *self;
        let Some(plane) = Plane::of_section(number) else {
            return Ok(());
        };
        let from = last.in_file(last.begin_of(Part::Section(plane)));
        let to = last.in_file(last.end_of(plane));
        write!(f, "section {number} is bytes {from} up to {to}")
    }
}
