// Has the plans of the second program's vectors written (second/README.md has their format): plans as read, with some
// places changed, into slices of every length. One line for each: the answer, `length`, and the check sum of the slice
// and of 16 bytes on each side of it; after a block that was written, the number that reading it gives, the same for
// what was read, and what becomes of the block as text. A stream that is malformed ends there.
#![tactic(auto)]

use plan::Plan;
use refusals::Refusal;
use std::fmt;
use streams::{BLOCK_ROOM, answer_all, next_byte, next_count, next_number, next_plan};

// The longest slice that is lent, the guard on each side of it, and both guards.
const SLICE_ROOM: usize = 6720;

const GUARD: usize = 16;

const GUARDS: usize = 2 * GUARD;

// A text has at most so many bytes.
const TEXT_ROOM: usize = 32768;

// The check sum of Fowler, Noll and Vo (FNV-1a) in 32 bits.
fn check_sum(bytes: &[u8]) -> u32 {
    bytes.iter().fold(2166136261, |sum: u32, byte| {
        (sum ^ u32::from(*byte)).wrapping_mul(16777619)
    })
}

// The answer, what `length` says, and the check sum of the room after the call.
#[derive(Clone, Copy)]
struct Written {
    answer: Result<usize, Refusal>,
    length: usize,
    sum: u32,
}

impl Written {
    // The block that the room has between its guards; none where the plan was refused.
    fn block<'a>(&self, room: &'a [u8]) -> Option<&'a [u8]> {
        room.get(GUARD..)?.get(..self.answer.ok()?)
    }
}

impl fmt::Display for Written {
    fn fmt<W: fmt::Write>(&self, f: &mut fmt::Formatter<W>) -> fmt::Result {
        let Written {
            answer,
            length,
            sum,
        } = *self;
        match answer {
            Ok(bytes) => write!(f, "written {bytes}")?,
            Err(refusal) => write!(f, "refused {}", refusal.number())?,
        }
        write!(f, " {length} {sum}")
    }
}

// Writes a plan between the guards of a room. Before, each byte is one more than that before it, so that a byte that
// is left, and one that is written past the block, show.
fn write(plan: Plan, version: u16, first: u8, room: &mut [u8]) -> Written {
    for (i, byte) in room.iter_mut().enumerate() {
        *byte = first.wrapping_add((i & 0xff) as u8);
    }
    let end = room.len().saturating_sub(GUARD);
    let slice = room.get_mut(GUARD..end).unwrap_or_default();
    Written {
        answer: writer::write(plan, version, slice),
        length: writer::length(plan, version),
        sum: check_sum(room),
    }
}

fn comparison(is_same: bool) -> &'static str {
    if is_same { "same" } else { "other" }
}

// The length and the check sum of a block's text; the text is made a block again, and that is shown again: whether
// block and text are the same as before.
fn say_text(rt: &HostRuntime, block: &[u8]) {
    let mut room = [0; TEXT_ROOM];
    let text = plan_text::show(block, &mut room).unwrap_or_default();
    let mut bytes = [0; BLOCK_ROOM];
    let made = plan_text::make(text, &mut bytes).unwrap_or_default();
    let mut again = [0; TEXT_ROOM];
    let text_again = plan_text::show(made, &mut again).unwrap_or_default();
    let (length, sum) = (text.len(), check_sum(text));
    let blocks = comparison(made == block);
    let texts = comparison(text_again == text);
    let _ = print!(rt; " {length} {sum} {blocks} {texts}");
}

// One line, and none where the room is too small. The room has the slice that is lent between its guards. Where a
// block was written, it is read, what was read is written again, and the block is shown as text.
fn answer_case(rt: &HostRuntime, plan: Plan) {
    let plan = next_plan(rt, plan);
    let version = next_number(rt);
    let size = next_count(rt);
    let first = next_byte(rt);
    let mut room = [0; SLICE_ROOM + GUARDS];
    let Some(room) = room.get_mut(..size + GUARDS) else {
        return;
    };
    let written = write(plan, version, first, room);
    let _ = print!(rt; "{written}");
    if let Some(block) = written.block(room) {
        let reading = block::read(block);
        let number = reading.number;
        let again = write(reading.plan, version, first, room);
        let _ = print!(rt; " {number} {again}");
    }
    if let Some(block) = written.block(room) {
        say_text(rt, block);
    }
    let _ = println!(rt);
}

// The cases of one block.
fn answer_cases(rt: &HostRuntime, plan: Plan) {
    for _ in 0..next_count(rt) {
        answer_case(rt, plan);
    }
}

fn main(rt: HostRuntime) {
    answer_all(&rt, answer_cases);
}
