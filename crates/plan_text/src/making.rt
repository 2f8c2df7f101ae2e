// The bytes of a block, from its text.
use crate::fault::{Fault, Refused};
use crate::kind::Kind;
use crate::number::read_number;
use crate::walk::{Turn, Walk};

// The text after what stands before the number of a field: the end of the line before and its name, where it begins a
// line; one space.
fn after_lead(text: &[u8], kind: Kind) -> Result<&[u8], Fault<'_>> {
    let mut rest = text;
    if kind.begins_line() {
        if kind != Kind::Version {
            rest = rest.strip_prefix(b"\n").ok_or(Fault::LineEndExpected)?;
        }
        let name = kind.name().as_bytes();
        rest = rest.strip_prefix(name).ok_or(Fault::NameExpected(kind))?;
    }
    rest.strip_prefix(b" ").ok_or(Fault::NumberExpected(kind))
}

// What a field's bytes hold, and the text after it.
fn read_field(text: &[u8], kind: Kind, count: u8) -> Result<(u32, &[u8]), Fault<'_>> {
    read_number(after_lead(text, kind)?, kind, count)
}

// Puts bytes into a block where it has room for them. The place at the end says whether there was room for all: so it
// goes by places, and the trailer is put at one.
fn put(block: &mut [u8], at: usize, bytes: &[u8]) {
    if let Some(room) = block.get_mut(at..at.saturating_add(bytes.len())) {
        room.copy_from_slice(bytes);
    }
}

// A field's bytes, and the zeros that go with it.
fn put_field(block: &mut [u8], at: usize, kind: Kind, value: u32) {
    if 0 < kind.span() {
        let skipped = 4 - kind.width();
        put(block, at, &[0u8; 8][..kind.span()]);
        put(block, at, &value.to_be_bytes()[skipped..]);
    }
}

// The trailer, and the block's length. A section that was not begun has one byte, so that the trailer fits. Its first
// four numbers say how far before it header and sections begin.
fn close(block: &mut [u8], last: Walk) -> usize {
    let mut walk = last;
    for _ in last.component..2 {
        walk.begin();
        put(block, walk.at, &[0]);
        walk.at = walk.at.wrapping_add(1);
    }
    let trailer = walk.at % 65536;
    let mut at = trailer;
    for start in walk.starts {
        put(
            block,
            at,
            &(trailer as u16).wrapping_sub(start).to_be_bytes(),
        );
        at = at.wrapping_add(2);
    }
    put(block, at, &walk.version.to_be_bytes());
    put(block, at.wrapping_add(2), &[0, 0]);
    trailer + 12
}

// What is wrong with the text that is left where the walk ended. A walk that was cut leaves it unread.
fn ended(rest: &[u8], turn: Turn) -> Result<(), Fault<'_>> {
    match turn {
        Turn::Cut => Ok(()),
        Turn::Field(kind) => Err(Fault::NameExpected(kind)),
        Turn::End => match rest.strip_prefix(b"\n") {
            None => Err(Fault::LineEndExpected),
            Some(more) if more.is_empty() => Ok(()),
            Some(_) => Err(Fault::TextEndExpected),
        },
    }
}

// Reads a text into a block's bytes, which are the first of the room. A field takes two bytes of the text or more.
pub fn make<'t, 'b>(text: &'t [u8], room: &'b mut [u8]) -> Result<&'b [u8], Refused<'t>> {
    let mut walk = Walk::start();
    let mut rest = text;
    for _ in 0..=text.len() {
        let Turn::Field(kind) = walk.turn else {
            break;
        };
        let field = read_field(rest, kind, walk.count(kind));
        let (value, after) = field.map_err(|fault| Refused::at(walk.line, fault))?;
        put_field(room, walk.at, kind, value);
        walk.advance(kind, value);
        rest = after;
    }
    let line = walk.line;
    ended(rest, walk.turn).map_err(|fault| Refused::at(line, fault))?;
    let length = close(room, walk);
    let block = room.get(..length);
    block.ok_or(Refused::at(line, Fault::RoomExpected))
}
