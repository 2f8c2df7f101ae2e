// The text of a block.
use crate::kind::Kind;
use crate::walk::{Turn, Walk};
use std::fmt;
use std::io::Write;

// What stands before the number of a field.
#[derive(Clone, Copy)]
struct Lead(Kind);

impl fmt::Display for Lead {
    fn fmt<W: fmt::Write>(&self, f: &mut fmt::Formatter<W>) -> fmt::Result {
        let kind = self.0;
        if kind == Kind::Version {
            write!(f, "{} ", kind.name())
        } else if kind.begins_line() {
            write!(f, "\n{} ", kind.name())
        } else {
            f.write_str(" ")
        }
    }
}

// The text of a block that reading accepts, whose bytes are the whole of the slice. A block has fewer fields than
// bytes.
#[derive(Clone, Copy)]
struct Text<'a>(&'a [u8]);

impl fmt::Display for Text<'_> {
    fn fmt<W: fmt::Write>(&self, f: &mut fmt::Formatter<W>) -> fmt::Result {
        let mut walk = Walk::start();
        for _ in self.0 {
            let Turn::Field(kind) = walk.turn else {
                break;
            };
            let value = walk.value_in(self.0, kind);
            write!(f, "{}{}", Lead(kind), kind.number_of(value))?;
            walk.advance(kind, value);
        }
        match walk.turn {
            Turn::End => f.write_str("\n"),
            _ => Err(fmt::Error),
        }
    }
}

// Puts the text of a block that reading accepts, whose bytes are the whole of the slice, into the first bytes of the
// room; None where there is no room for it.
pub fn show<'r>(block: &[u8], room: &'r mut [u8]) -> Option<&'r [u8]> {
    let size = room.len();
    let mut rest = &mut room[..];
    write!(rest, "{}", Text(block)).ok()?;
    let end = size.saturating_sub(rest.len());
    room.get(..end)
}
