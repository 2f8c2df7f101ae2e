// Shows composing blocks: every field, or a picture of the mappings, or why a block is refused.
// inspect [--rules] [--plot] BLOCK...
#![tactic(auto)]

mod counts; // the pivots and pieces in use
mod list; // every field, under its name
mod markup; // the texts of which the picture is made
mod numbers; // numbers with a fraction
mod plot; // the picture of the mappings

use files::{BLOCK_ROOM, Word, word_count};
use list::list_block;
use plot::plot_block;
use saying::{LastBytes, Said, read_file, say, say_rules};

// Shows the block of a file; says why, where there is none.
fn show_file(word: Word, plotted: bool) -> Result<(), Said> {
    let mut room = [0u8; BLOCK_ROOM];
    let (plan, bytes) = read_file(word, &mut room)?;
    let last = LastBytes::of(word, bytes);
    if plotted {
        plot_block(word.rt, last.trailer().version, &plan);
    } else {
        list_block(word, last, &plan);
    }
    Ok(())
}

// Answers a word, which is a block to be plotted where the one before it was --plot; whether it is --plot itself.
fn answer(word: Word, plotted: bool) -> bool {
    if !plotted && word.is("--plot") {
        return true;
    }
    if !plotted && word.is("--rules") {
        say_rules(word.rt);
        say!(word.rt; "shown\n");
        return false;
    }
    match show_file(word, plotted) {
        Ok(()) => say!(word.rt; "shown\n"),
        Err(Said) => say!(word.rt; "not shown\n"),
    }
    false
}

// A block is missing where there is no word at all, or where --plot is the last one.
fn main(rt: HostRuntime) {
    let words = word_count(&rt);
    let mut plotted = false;
    for index in 1..words {
        plotted = answer(Word { rt: &rt, index }, plotted);
    }
    if words < 2 || plotted {
        say!(rt; "use: inspect [--rules] [--plot] BLOCK...\nnot shown\n");
    }
}
