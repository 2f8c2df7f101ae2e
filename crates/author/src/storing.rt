// A block to its file: written beside it, and moved into place when it is whole.
use files::Word;
use saying::{Said, say, say_word};
use std::fs::File;
use std::io::{Error, Result as IoResult, Write};

fn say_unwritten(output: Word, error: &Error) -> Said {
    saying::say_unwritten(output, error, "author")
}

// Writes all bytes, and has them reach the disk. The file is closed.
fn keep(mut file: File, block: &[u8]) -> IoResult<()> {
    file.write_all(block)?;
    file.sync_data()
}

// The file beside is whole: moves it into place, and says its check sum as it stands.
fn finish(output: Word, length: usize) -> IoResult<()> {
    let sum = output.sum_beside();
    output.move_into_place()?;
    say_word(output);
    say!(output.rt; ": {length} bytes, Adler-32 {sum}\n");
    Ok(())
}

// Writes the block to a file; says why, where it cannot be written.
pub(crate) fn store_block(output: Word, block: &[u8]) -> Result<(), Said> {
    let created = output.create_beside();
    let file = created.map_err(|error| say_unwritten(output, &error))?;
    let kept = keep(file, block);
    let stored = kept.and_then(|()| finish(output, block.len()));
    stored.map_err(|error| {
        let said = say_unwritten(output, &error);
        output.remove_beside();
        said
    })
}
