// Holds the plans of the second program's vectors against rule 7 (second/README.md has their format): plans as read,
// with some places changed, and one line of answer for each, 0 or 7. A stream that is malformed ends there.
#![tactic(auto)]

use plan::Plan;
use rule_seven::passes;
use streams::{answer_all, next_count, next_plan};

// The cases of one block.
fn answer_cases(rt: &HostRuntime, plan: Plan) {
    for _ in 0..next_count(rt) {
        let number = if passes(next_plan(rt, plan)) { 0 } else { 7 };
        let _ = println!(rt; "{number}");
    }
}

fn main(rt: HostRuntime) {
    answer_all(&rt, answer_cases);
}
