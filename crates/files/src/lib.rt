// Files that words of the command line name: their lengths, their last bytes, runs of samples at their places, and a
// file written beside and moved into place.
#![tactic(auto)]

mod adler; // the check sum of what stands in a file
mod beside; // a file written under another name until it is whole
mod samples; // runs of samples at their places
mod words; // the words of the command line

ghost use Rattle.std.specs.Prelude.{◌≤◌, length};

pub use samples::{load, store};
use std::fs::File;
use std::io::{Read, Result, Seek, SeekFrom};
use words::path_of;
pub use words::{WORD_ROOM, Word, word_count};

// As far back as a trailer can point, and the trailer.
pub const BLOCK_ROOM: usize = 65547;

// As many bytes as go through memory at once.
pub(crate) const PART: usize = 65536;

// No file reaches so many bytes.
const PAST_ALL: usize = 9223372036854775808;

impl Word<'_> {
    // The file that it names, open for reading, or why it cannot be.
    pub fn open(self) -> Result<File> {
        let mut room = [0u8; WORD_ROOM];
        File::open(self.rt, path_of(self.bytes(&mut room))?)
    }

    // The length of the file that it names, 0 where it has none: a file that cannot be read is told by `is_readable`,
    // and an empty one has no picture and no block either.
    pub fn file_length(self) -> usize {
        match self.open() {
            Ok(file) => length_of(&file).unwrap_or(0) as usize,
            Err(_) => 0,
        }
    }

    // The last bytes of the file that it names, in this room, as many as there is room for; none where it cannot be
    // read or sought in.
    pub fn last_bytes<'b>(self, room: &'b mut [u8]) -> &'b [u8] {
        let n = match self.open() {
            Ok(file) => read_end(&file, room),
            Err(_) => 0,
        };
        &room[..n]
    }

    // Whether the file that it names can be opened, sought in and read.
    pub fn is_readable(self) -> bool {
        match self.open() {
            Ok(file) => has_bytes(&file),
            Err(_) => false,
        }
    }
}

// The file's length; an error where it cannot be sought in, as a pipe. The next read begins at its end.
pub(crate) fn length_of(file: &File) -> Result<u64> {
    let mut sought = file;
    sought.seek(SeekFrom::End(0))
}

// Seeks a place; one that no file reaches at the end, where nothing can be read.
pub(crate) fn seek(file: &File, place: usize) {
    let mut sought = file;
    let _ = sought.seek(if place < PAST_ALL {
        SeekFrom::Start(place as u64)
    } else {
        SeekFrom::End(0)
    });
}

// Fills the room with the bytes that come next in the file, and answers how many they are: fewer than there is room
// for where the file ends or a read fails.
pub(crate) fn read_full(file: &File, bytes: &mut [u8]) -> usize
    ensures { result ≤ length bytes.new }
{
    let mut read = file;
    let mut done: usize = 0;
    // No range counts the reads: only after one is it known how many bytes it brought.
    while done < bytes.len() {
        let n = read.read(&mut bytes[done..]).unwrap_or(0);
        if n == 0 {
            break;
        }
        done += n;
    }
    done
}

// How many bytes the last ones of an open file are, which are put into the first of the room; as many as there is room
// for.
fn read_end(file: &File, room: &mut [u8]) -> usize
    ensures { result ≤ length room.new }
{
    let length = length_of(file).unwrap_or(0) as usize;
    if length == 0 {
        return 0;
    }
    seek(file, length.saturating_sub(room.len()));
    read_full(file, room)
}

// Whether an open file can be sought in and read.
fn has_bytes(file: &File) -> bool {
    let length = length_of(file);
    seek(file, 0);
    let mut read = file;
    length.is_ok() & read.read(&mut [0u8; 1]).is_ok()
}
