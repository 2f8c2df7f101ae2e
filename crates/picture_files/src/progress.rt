// How far the work is, on standard error.
use std::io::IsTerminal;

// Says it where people look on.
pub fn say_progress(rt: &HostRuntime, done: usize, pictures: usize, left: u16) {
    if rt.stderr().is_terminal() {
        let _ = eprint!(rt;
            "\rpictures done: {done} of {pictures}, row pairs left of this one: {left}    "
        );
    }
}

// What comes next begins on an empty line.
pub fn end_progress(rt: &HostRuntime) {
    if rt.stderr().is_terminal() {
        let _ = eprint!(rt; "\r\x1b[K");
    }
}
