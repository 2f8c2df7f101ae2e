// Reads composing blocks from standard input, and writes a line for each case: `refused N`, or `plan` and `
// INDEX:VALUE` for each place of the plan that is not 0. A stream that is malformed ends there.
//
// The input: the number of base blocks (1 byte), and for each its length (2 bytes) and its bytes. Then cases to the
// end: the base block's index (1 byte), the part that is read, from and to (2 bytes each), and the number of edits
// (1 byte), each an offset (2 bytes) and the new byte.
#![tactic(auto)]

ghost use Rattle.std.specs.Prelude.{◌≤◌};

use block::Reading;
use std::io::Read;
use std::{fmt, io};
use streams::BLOCK_ROOM;
use streams::places::NotZero;

// A stream has at most so many bytes.
const STREAM_ROOM: usize = 262144;

// What is said of a reading.
#[derive(Clone, Copy)]
struct Said<'a>(&'a Reading);

impl fmt::Display for Said<'_> {
    fn fmt<W: fmt::Write>(&self, f: &mut fmt::Formatter<W>) -> fmt::Result {
        let refusal = self.0.number;
        if refusal != 0 {
            return write!(f, "refused {refusal}");
        }
        write!(f, "plan{}", NotZero(&self.0.plan))
    }
}

fn pair(high: u8, low: u8) -> usize
    ensures { result ≤ 65535 }
{
    usize::from(u16::from_be_bytes([high, low]))
}

// The length of the block that comes first. Bytes that the stream does not have are 0.
fn block_length(stream: &[u8]) -> usize
    ensures { result ≤ 65535 }
{
    match stream {
        [high, low, ..] => pair(*high, *low),
        [high] => pair(*high, 0),
        [] => 0,
    }
}

// The block that comes first, as far as there is room for it. Bytes that the stream does not have are 0.
fn first_block(stream: &[u8]) -> [u8; BLOCK_ROOM] {
    let mut block = [0; BLOCK_ROOM];
    let bytes = stream.get(2..).unwrap_or_default();
    let n = bytes.len().min(block_length(stream)).min(BLOCK_ROOM);
    block[..n].copy_from_slice(&bytes[..n]);
    block
}

// What follows so many blocks, each with its length before it.
fn skip_blocks(stream: &[u8], count: u8) -> &[u8] {
    let mut rest = stream;
    for _ in 0..count {
        rest = rest.get(2 + block_length(rest)..).unwrap_or_default();
    }
    rest
}

// Makes the edits in a block. Those behind its room are left out.
fn edit(block: &mut [u8; BLOCK_ROOM], edits: &[u8]) {
    let (edits, _) = edits.as_chunks::<3>();
    for edit in edits {
        let [high, low, byte] = *edit;
        if let Some(place) = block.get_mut(pair(high, low)) {
            *place = byte;
        }
    }
}

// Answers the first of the cases, where its block has the part that is asked for, and gives what follows the case; none
// where the stream has no whole case more. A reading has some 9,700 bytes, so it is said where it is made: it would be
// copied each time that it is handed on.
fn answer_next<'a>(rt: &HostRuntime, blocks: &[u8], cases: &'a [u8]) -> Option<&'a [u8]> {
    let (head, rest) = cases.split_first_chunk::<6>()?;
    let [base, from_high, from_low, to_high, to_low, count] = *head;
    let (edits, rest) = rest.split_at_checked(3 * usize::from(count))?;
    let mut block = first_block(skip_blocks(blocks, base));
    edit(&mut block, edits);
    if let Some(part) = block.get(pair(from_high, from_low)..pair(to_high, to_low)) {
        let _ = println!(rt; "{}", Said(&block::read(part)));
    }
    Some(rest)
}

fn main(rt: HostRuntime) {
    let mut room = [0; STREAM_ROOM];
    let mut free = room.as_mut_slice();
    let _ = io::copy(&mut rt.stdin().take(STREAM_ROOM as u64), &mut free);
    let length = STREAM_ROOM.saturating_sub(free.len());
    let Some((count, blocks)) = room[..length].split_first() else {
        return;
    };
    let mut cases = skip_blocks(blocks, *count);
    for _ in 0..length {
        let Some(rest) = answer_next(&rt, blocks, cases) else {
            return;
        };
        cases = rest;
    }
}
