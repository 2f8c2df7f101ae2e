// Runs the composing vectors of the second program (second/README.md has their format): one line of answer for each
// case on standard input. A stream that is malformed ends there.
#![tactic(auto)]

use compose::{compose_row_pairs, picture_size};
use plan::Plan;
use streams::{Run, Spaced, answer_all, next_count, untouch};

// A run has at most so many samples: those of one row pair, 4,096 columns wide.
const RUN_ROOM: usize = 12288;

// A case whose picture or runs are too long gets no line. What comes after a picture that is too long is not read.
fn answer_case(rt: &HostRuntime, plan: Plan) {
    let mut room = [0; RUN_ROOM];
    let Some(output) = room.get_mut(..picture_size(plan.header)) else {
        return;
    };
    let first = next_count(rt);
    let count = next_count(rt);
    let base = Run::<RUN_ROOM>::next(rt);
    let enhancement = Run::<RUN_ROOM>::next(rt);
    let (Some(base), Some(enhancement)) = (base, enhancement) else {
        return;
    };
    untouch(output, 60000);
    let answer = compose_row_pairs(
        plan,
        first,
        count,
        base.samples(),
        enhancement.samples(),
        &[],
        output,
    );
    let _ = match answer {
        Ok(()) => println!(rt; "{}", Spaced(output)),
        Err(refusal) => println!(rt; "refused {}", refusal.number()),
    };
}

fn main(rt: HostRuntime) {
    answer_all(&rt, answer_case);
}
