// Composes pictures from files: compose_file [--standby] [--late] BLOCK BASE ENHANCEMENT OUTPUT ..., where ENHANCEMENT
// may be `none` and `--late` stands before each four words for which the enhancement comes late. Pictures are raw
// planar 4:2:0, two bytes a sample, the low byte first. What is said goes to standard output, and the last line for
// each four words is `written` or `not written`; before `not written` stands why. The command ./compose starts it.
#![tactic(auto)]

mod night; // the jobs of one band
mod pictures; // all bands of all pictures

use files::{BLOCK_ROOM, Word, word_count};
use picture_files::names::Names;
use picture_files::schedule::Way;
use pictures::compose_plan;
use saying::{Said, read_block, say, say_unread};

// Composes what the four words name; says why, where nothing was written.
fn compose_group(names: Names, way: Way) -> Result<(), Said> {
    let mut room = [0u8; BLOCK_ROOM];
    let bytes = names.block.last_bytes(&mut room);
    if bytes.is_empty() && !names.block.is_readable() {
        return Err(say_unread(names.block));
    }
    let reading = read_block(bytes);
    let plan = reading.map_err(|refused| refused.say(names.block, bytes))?;
    compose_plan(names, way, &plan)
}

fn main(rt: HostRuntime) {
    let word = |index| Word { rt: &rt, index };
    let words = word_count(&rt);
    let standby = word(1).is("--standby");
    let mut i = if standby { 2 } else { 1 };
    let mut missing = words <= i;
    // Four words or five are a group, so no range has the first ones.
    while i < words {
        let late = word(i).is("--late");
        let first = if late { i + 1 } else { i };
        if words - first < 4 {
            missing = true;
            break;
        }
        let names = Names {
            block: word(first),
            base: word(first + 1),
            enhancement: word(first + 2),
            output: word(first + 3),
        };
        match compose_group(names, Way::of(standby, late)) {
            Ok(()) => say!(rt; "written\n"),
            Err(Said) => say!(rt; "not written\n"),
        }
        i = first + 4;
    }
    if missing {
        say!(rt; "use: compose_file [--standby] [--late] BLOCK BASE ENHANCEMENT OUTPUT ...\nnot written\n");
    }
}
