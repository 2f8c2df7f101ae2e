// What the programs say on standard output, for people: words and numbers, refusals, and why a file cannot be had.
#![tactic(auto)]

mod errors; // why a file cannot be read or written
mod field; // a field of a section: what was found there, and what is allowed
mod header; // a column of the header, likewise
mod numbers; // numbers with a fraction
mod parts; // where the parts of a block stand in its file
mod reading; // a block that is read, and the line about one that is refused
mod rules; // the rules' names, and what to do about each

pub use errors::{need_readable, say_unread, say_unwritten};
pub use field::MmrIndices;
use files::{WORD_ROOM, Word};
pub use numbers::Fixed;
pub use parts::{LastBytes, Part, Plane};
pub use reading::{Refused, read_block, read_file};
pub use rules::{advice_of, rule_of, say_refused, say_rules};

// Says a format. Where it cannot be written there is nobody to tell.
#[macro_export]
macro_rules! say {
    ($rt:expr; $($arg:tt)+) => {{
        let _ = $rt.print(format_args!($($arg)+));
    }};
}

// What could not be done, and why has been said.
#[derive(Clone, Copy, Debug, PartialEq, Eq)]
pub struct Said;

// Says bytes as they are, which need not be text.
pub fn say_bytes(rt: &HostRuntime, bytes: &[u8]) {
    let _ = rt.write_all(bytes);
}

pub fn say_word(word: Word) {
    let mut room = [0u8; WORD_ROOM];
    say_bytes(word.rt, word.bytes(&mut room));
}
