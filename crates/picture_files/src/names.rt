// Four words of the command line, and the files that they name.
use files::Word;
use picture::chroma_size;
use plan::Header;
use refusals::Refusal;
use saying::{Said, advice_of, need_readable, say, say_refused, say_word};
use std::fmt;
use std::io::Error;

#[derive(Clone, Copy)]
pub struct Names<'a> {
    pub block: Word<'a>,
    pub base: Word<'a>,
    pub enhancement: Word<'a>,
    pub output: Word<'a>,
}

impl Names<'_> {
    // How many pictures of so many bytes the base holds; says why, where it cannot be read or holds other pictures.
    pub(crate) fn pictures(self, size: usize) -> Result<usize, Said> {
        need_readable(self.base)?;
        let length = self.base.file_length();
        match exactly(length, size) {
            Some(pictures) => Ok(pictures),
            None => Err(say_run(self.base, length, size, " for each picture")),
        }
    }

    // Whether an enhancement is used: with disable_residual_flag at 1 it is ignored, whatever is named.
    pub(crate) fn is_enhanced(self, h: Header) -> bool {
        h.disabled == 0 && !self.enhancement.is("none")
    }

    // That the enhancement can be read and is as long as the base; says why where not.
    pub(crate) fn enhancement_fits(self) -> Result<(), Said> {
        let length = self.base.file_length();
        need_readable(self.enhancement)?;
        let found = self.enhancement.file_length();
        if found != length {
            return Err(say_run(self.enhancement, found, length, ", as the base has"));
        }
        Ok(())
    }

    // Why the output cannot be written, by the error of the call that failed.
    pub(crate) fn say_unwritten(self, error: &Error) -> Said {
        saying::say_unwritten(self.output, error, "compose")
    }
}

fn say_run(word: Word, found: usize, allowed: usize, for_what: &str) -> Said {
    let rule = Refusal::Run;
    say_refused(word, rule);
    say!(word.rt; ": {found} bytes, allowed {allowed}{for_what}; {}\n", advice_of(rule));
    Said
}

// A file that ended while it was read.
pub(crate) fn say_ended(word: Word) -> Said {
    say_word(word);
    say!(word.rt; ": cannot be read: it ended early\n");
    Said
}

// How often `size` goes into a length; None where it does not do so exactly, or never.
fn exactly(length: usize, size: usize) -> Option<usize> {
    match length.checked_rem(size) {
        Some(0) if 0 < length => length.checked_div(size),
        _ => None,
    }
}

// A number of pictures.
#[derive(Clone, Copy)]
pub(crate) struct Pictures(pub(crate) usize);

impl fmt::Display for Pictures {
    fn fmt<W: fmt::Write>(&self, f: &mut fmt::Formatter<W>) -> fmt::Result {
        match self.0 {
            1 => f.write_str("1 picture"),
            n => write!(f, "{n} pictures"),
        }
    }
}

// What is composed.
pub(crate) fn say_task(rt: &HostRuntime, h: Header, pictures: usize, enhanced: bool) {
    let (w, height) = (chroma_size(2, h.columns), chroma_size(2, h.pairs));
    let (bl, hdr) = (u16::from(h.bl) + 8, u16::from(h.hdr) + 8);
    let how = if enhanced {
        "with enhancement"
    } else if h.disabled == 0 {
        "base only"
    } else {
        "base only, as disable_residual_flag is 1"
    };
    say!(rt; "{} of {w} x {height}, {bl} bit to {hdr} bit, {how}\n", Pictures(pictures));
}
