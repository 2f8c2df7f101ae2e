// Why a text is refused (docs/TEXT.md, "What is refused").
use crate::kind::Kind;
use std::fmt;

#[derive(Clone, Copy)]
pub(crate) enum Fault<'t> {
    LineEndExpected,
    TextEndExpected,
    RoomExpected, // for the block
    NameExpected(Kind),
    NumberExpected(Kind),
    BeginsWithZero(Kind),
    DoesNotFit { kind: Kind, number: &'t str },
    CountExpected { kind: Kind, count: u8 },
}

impl fmt::Display for Fault<'_> {
    fn fmt<W: fmt::Write>(&self, f: &mut fmt::Formatter<W>) -> fmt::Result {
        match *self {
            Fault::LineEndExpected => f.write_str("the end of the line is expected"),
            Fault::TextEndExpected => f.write_str("the end of the text is expected"),
            Fault::RoomExpected => f.write_str("more room for the block is expected"),
            Fault::NameExpected(kind) => write!(f, "{} is expected", kind.name()),
            Fault::NumberExpected(kind) => {
                write!(f, "one space and a number of {} are expected", kind.name())
            }
            Fault::BeginsWithZero(kind) => write!(f, "a number of {} begins with 0", kind.name()),
            Fault::DoesNotFit { kind, number } => {
                let (name, least, greatest) = (kind.name(), kind.least(), kind.greatest());
                write!(
                    f,
                    "{number} does not fit {name}, which holds {least} to {greatest}"
                )
            }
            Fault::CountExpected { kind, count } => {
                write!(f, "{} {count} is expected", kind.name())
            }
        }
    }
}

// A text that is refused: its line, and why.
#[derive(Clone, Copy)]
pub struct Refused<'t> {
    line: usize,
    fault: Fault<'t>,
}

impl<'t> Refused<'t> {
    // In this line; that the end of a line is expected is said of the line before.
    pub(crate) fn at(line: usize, fault: Fault<'t>) -> Self {
        let line = match fault {
            Fault::LineEndExpected => line.saturating_sub(1),
            _ => line,
        };
        Refused { line, fault }
    }
}

impl fmt::Display for Refused<'_> {
    fn fmt<W: fmt::Write>(&self, f: &mut fmt::Formatter<W>) -> fmt::Result {
        write!(f, "line {}: {}", self.line, self.fault)
    }
}
