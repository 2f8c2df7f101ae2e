// A text from a block.
use crate::room::TEXT_ROOM;
use files::{BLOCK_ROOM, Word};
use plan_text::show;
use saying::{LastBytes, Said, read_file, say, say_bytes, say_word};

// The text of a block that reading accepts. No text is longer than the room.
fn say_text(word: Word, block: &[u8]) -> Result<(), Said> {
    let mut room = [0u8; TEXT_ROOM];
    match show(block, &mut room) {
        Some(text) => {
            say_bytes(word.rt, text);
            Ok(())
        }
        None => {
            say_word(word);
            say!(word.rt; ": the text cannot be shown\n");
            Err(Said)
        }
    }
}

// Says the text of a block; says why, where there is none.
pub(crate) fn show_block(word: Word) -> Result<(), Said> {
    let mut room = [0u8; BLOCK_ROOM];
    let (_, bytes) = read_file(word, &mut room)?;
    say_text(word, LastBytes { bytes, before: 0 }.block())
}
