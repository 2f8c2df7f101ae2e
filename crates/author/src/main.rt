// Makes composing blocks of texts, and shows the texts of blocks (docs/TEXT.md): author TEXT BLOCK ..., where `--text`
// in the place of TEXT has the text of BLOCK said. What is said goes to standard output, and the last line for each two
// words is `written` or `shown`, or the same after `not `; before that stands why. The command ./author starts it.
#![tactic(auto)]

mod making; // a block from a text
mod room; // how long texts and blocks are
mod showing; // a text from a block
mod storing; // a block to its file

use files::{Word, word_count};
use making::make_block;
use saying::{Said, say};
use showing::show_block;

fn say_end(rt: &HostRuntime, done: Result<(), Said>, word: &str) {
    match done {
        Ok(()) => say!(rt; "{word}\n"),
        Err(Said) => say!(rt; "not {word}\n"),
    }
}

// Answers two words.
fn answer(text: Word, block: Word) {
    if text.is("--text") {
        say_end(block.rt, show_block(block), "shown");
    } else {
        say_end(block.rt, make_block(text, block), "written");
    }
}

fn main(rt: HostRuntime) {
    let word = |index| Word { rt: &rt, index };
    let words = word_count(&rt);
    let mut missing = words < 2;
    for i in (1..words).step_by(2) {
        if words - i < 2 {
            missing = true;
        } else {
            answer(word(i), word(i + 1));
        }
    }
    if missing {
        say!(rt; "use: author TEXT BLOCK ... | author --text BLOCK ...\nnot written\n");
    }
}
