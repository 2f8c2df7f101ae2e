// Why a file cannot be read or written.
use crate::{Said, say, say_word};
use files::Word;
use std::fmt;
use std::io::{Error, Result as IoResult};
use std::os::unix::fs::FileExt;

// An error by the number that the system gives it (errno): std's ErrorKind joins some that are said apart.
#[derive(Clone, Copy)]
struct Cause(i32);

impl Cause {
    const ENOENT: i32 = 2;

    // Stands for an error that has no number: something could not be read or written.
    const EIO: i32 = 5;

    const EACCES: i32 = 13;

    const EEXIST: i32 = 17;

    const ENOTDIR: i32 = 20;

    const EISDIR: i32 = 21;

    const EINVAL: i32 = 22;

    const ENOSPC: i32 = 28;

    const ESPIPE: i32 = 29;

    fn of(error: &Error) -> Self {
        Cause(error.raw_os_error().unwrap_or(Self::EIO))
    }
}

impl fmt::Display for Cause {
    fn fmt<W: fmt::Write>(&self, f: &mut fmt::Formatter<W>) -> fmt::Result {
        match self.0 {
            Self::ENOENT => f.write_str("no such file or folder"),
            Self::EACCES => f.write_str("no permission"),
            Self::ENOTDIR => f.write_str("a folder of its path is a file"),
            Self::EISDIR => f.write_str("it is a folder"),
            Self::ENOSPC => f.write_str("the disk is full"),
            Self::ESPIPE => f.write_str("it is a pipe, and a file is needed"),
            other => write!(f, "error {}", other.unsigned_abs()),
        }
    }
}

// Reads the first byte of the file again. A pipe has none, and is not waited for.
fn read_first(word: Word) -> IoResult<usize> {
    word.open()?.read_at(&mut [0u8; 1], 0)
}

// Why the file cannot be read is found by trying it again; the line says error 0 where nothing
// keeps it from that any more.
pub fn say_unread(word: Word) -> Said {
    let cause = match read_first(word) {
        Ok(_) => Cause(0),
        Err(error) => Cause::of(&error),
    };
    say_word(word);
    say!(word.rt; ": cannot be read: {cause}\n");
    Said
}

// That the file can be read; says why, where it cannot.
pub fn need_readable(word: Word) -> Result<(), Said> {
    if word.is_readable() {
        Ok(())
    } else {
        Err(say_unread(word))
    }
}

// Why the file that the word names cannot be written, by the error of the call that failed; `program` writes it.
pub fn say_unwritten(word: Word, error: &Error, program: &str) -> Said {
    let cause = Cause::of(error);
    say_word(word);
    say!(word.rt; ": cannot be written: ");
    match cause.0 {
        Cause::EEXIST => {
            say_word(word);
            say!(word.rt; ".part is in the way: another {program} writes it, or one was stopped; remove it\n");
        }
        Cause::EINVAL => say!(word.rt; "it is no regular file\n"),
        _ => say!(word.rt; "{cause}\n"),
    }
    Said
}
