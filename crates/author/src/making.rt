// A block from a text: the text is made to a block's bytes, these are read like any block's, which tests every range,
// and the plan that reading gives is written.
use crate::room::{BLOCK_ROOM, TEXT_ROOM};
use crate::storing::store_block;
use files::Word;
use plan::Plan;
use plan_text::{line_of, make, version_of};
use saying::{Said, need_readable, read_block, say, say_word};
use writer::write;

// Writes the plan, which reading gave, to a file. No such plan is refused, and no block is longer than the room.
fn write_plan(plan: Plan, version: u16, output: Word) -> Result<(), Said> {
    let mut room = [0u8; BLOCK_ROOM];
    let written = match write(plan, version, &mut room) {
        Ok(n) => room.get(..n),
        Err(_) => None,
    };
    match written {
        Some(block) => store_block(output, block),
        None => {
            say_word(output);
            say!(output.rt; ": the plan cannot be written\n");
            Err(Said)
        }
    }
}

// The bytes that were made of the text.
fn write_bytes(text: Word, bytes: &[u8], output: Word) -> Result<(), Said> {
    let plan = read_block(bytes).map_err(|refused| {
        let line = line_of(bytes, refused.first_byte());
        refused.say_line(text, line, bytes)
    })?;
    write_plan(plan, version_of(bytes), output)
}

// Makes the block of a text; says why, where nothing was written.
pub(crate) fn make_block(text: Word, output: Word) -> Result<(), Said> {
    need_readable(text)?;
    let length = text.file_length();
    if TEXT_ROOM < length {
        say_word(text);
        say!(text.rt; ": {length} bytes, allowed at most {TEXT_ROOM}\n");
        return Err(Said);
    }
    let mut room = [0u8; TEXT_ROOM];
    let mut block = [0u8; BLOCK_ROOM];
    match make(text.last_bytes(&mut room), &mut block) {
        Ok(bytes) => write_bytes(text, bytes, output),
        Err(refused) => {
            say_word(text);
            say!(text.rt; ": {refused}\n");
            Err(Said)
        }
    }
}
