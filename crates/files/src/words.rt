// The words of the command line, which are bytes of any kind, and the paths that they are.
ghost use Rattle.std.specs.Prelude.{◌≤◌, length};

use std::env::{Env, FillError};
use std::io::{Error, Result};
use std::str::from_utf8;

// Room for a word. A longer one counts as none.
pub const WORD_ROOM: usize = 65536;

// The system's number for what is wanted as text and is none.
const EILSEQ: i32 = 84;

// A word of the command line: the argument of this number. As a path it names a file.
#[derive(Clone, Copy)]
pub struct Word<'a> {
    pub rt: &'a HostRuntime,
    pub index: usize,
}

impl Word<'_> {
    // How many bytes it has, which are put into the first of the room; 0 where there is no such word, or no room for
    // it: it is then as an empty word, which names no file.
    pub(crate) fn fill(self, room: &mut [u8]) -> usize
        ensures { result ≤ length room.new }
    {
        match self.rt.arg(self.index, room) {
            Ok(n) => n,
            Err(_) => 0,
        }
    }

    // Its bytes, in this room; none where there is no such word, or no room for it.
    pub fn bytes<'b>(self, room: &'b mut [u8]) -> &'b [u8] {
        let n = self.fill(room);
        &room[..n]
    }

    // Whether it is this text.
    pub fn is(self, text: &str) -> bool {
        let mut room = [0u8; WORD_ROOM];
        self.bytes(&mut room) == text.as_bytes()
    }

    // Whether the command line has it. There is no room for it here, which says that it is there.
    fn is_there(self) -> bool {
        !matches!(self.rt.arg(self.index, &mut []), Err(FillError::NotPresent))
    }
}

// How many words the command line has, the program's name among them.
pub fn word_count(rt: &HostRuntime) -> usize {
    for index in 0..usize::MAX {
        if !(Word { rt, index }.is_there()) {
            return index;
        }
    }
    usize::MAX
}

// The path that a word is. std's paths are text, so a word of other bytes names no file here; programs.sh has links for
// such names.
pub(crate) fn path_of(word: &[u8]) -> Result<&str> {
    from_utf8(word).map_err(|_| Error::from_raw_os_error(EILSEQ))
}
