// A file is written under its name and `.part`, and moved to its name when it is whole: nobody ever finds half of it
// under its name.
use crate::adler::adler32;
use crate::words::{WORD_ROOM, Word, path_of};
use crate::{length_of, seek};
use std::fs::{File, remove_file, rename};
use std::io::Result;

impl Word<'_> {
    // The name beside it, in this room: it and `.part`. It is empty, and names no file, where there is no such word or
    // no room for it.
    fn name_beside<'b>(self, room: &'b mut [u8]) -> &'b [u8] {
        let ending = b".part";
        let n = self.fill(room);
        if n == 0 || room.len() - n < ending.len() {
            return &room[..0];
        }
        let end = n + ending.len();
        room[n..end].copy_from_slice(ending);
        &room[..end]
    }

    // Makes the file beside, open for writing; an error where it cannot be made, as where it is there.
    pub fn create_beside(self) -> Result<File> {
        let mut room = [0u8; WORD_ROOM];
        let path = path_of(self.name_beside(&mut room))?;
        File::options()
            .write(true)
            .create_new(true)
            .open(self.rt, path)
    }

    // The file beside, open for reading.
    fn open_beside(self) -> Result<File> {
        let mut room = [0u8; WORD_ROOM];
        File::open(self.rt, path_of(self.name_beside(&mut room))?)
    }

    // The check sum of all that stands in the file beside; of nothing where it cannot be opened.
    pub fn sum_beside(self) -> u32 {
        match self.open_beside() {
            Ok(file) => sum_of(&file),
            Err(_) => 1, // Adler-32 of nothing
        }
    }

    // Moves the file beside to the name that the word is; the error says why it could not, EINVAL that something stands
    // there that is no file.
    pub fn move_into_place(self) -> Result<()> {
        let mut from = [0u8; WORD_ROOM];
        let mut to = [0u8; WORD_ROOM];
        let path = path_of(self.bytes(&mut to))?;
        self.can_replace(path)?;
        rename(self.rt, path_of(self.name_beside(&mut from))?, path)
    }

    // Whether what stands under a name may be replaced: nothing, or a regular file, which alone can be cut at its own
    // length. A device would be gone for good, since moving takes its name away. The error says why not.
    fn can_replace(self, path: &str) -> Result<()> {
        match File::options().read(true).write(true).open(self.rt, path) {
            Ok(file) => file.set_len(length_of(&file)?),
            Err(_) => Ok(()),
        }
    }

    // Removes the file beside.
    fn try_remove_beside(self) -> Result<()> {
        let mut room = [0u8; WORD_ROOM];
        remove_file(self.rt, path_of(self.name_beside(&mut room))?)
    }

    // Removes the file beside, where it can.
    pub fn remove_beside(self) {
        let _ = self.try_remove_beside();
    }
}

// The check sum of all that stands in an open file.
fn sum_of(file: &File) -> u32 {
    let length = length_of(file).unwrap_or(0);
    seek(file, 0);
    adler32(file, length)
}
