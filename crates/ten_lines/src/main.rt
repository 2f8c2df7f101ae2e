// A block's whole life, as README.md shows it: read, open, a job, the job again after a standby, the last job,
// complete.
#![tactic(auto)]

use jobs::{compose_job, open_picture};

fn main() {
    let mut bytes = io::buffer();
    let n = io::read_full(0, &mut bytes);
    let plan = block::read(&bytes[..n]).plan;
    let base = [512u16; 24]; // 4 x 4: 16 samples of luma, 4 of Cb, 4 of Cr
    let mut output = [0u16; 24];
    let mut marks = [9u8; 2]; // one for each row pair
    let _ = open_picture(plan, 7, &mut marks); // 7 is this picture's ticket
    compose_job(plan, 7, 7, 0, 1, &base, &[], &mut output, &mut marks);
    compose_job(plan, 7, 7, 0, 1, &base, &[], &mut output, &mut marks); // sent again: still one row pair is left
    let last = compose_job(plan, 7, 7, 1, 1, &base, &[], &mut output, &mut marks);
    let done = last.is_complete(); // no row pair waits any more
    if done {
        io::write_all(1, b"complete\n");
    }
}
