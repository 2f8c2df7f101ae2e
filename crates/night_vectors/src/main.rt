// Runs the nights of the second program (second/README.md has their format): a picture is opened, jobs come in any
// order and again, and what is left in the memory is printed. Both runs that are lent lie between guards, which nobody
// may touch.
#![tactic(auto)]

use jobs::{Answer, compose_job, open_picture};
use plan::Plan;
use streams::nights::{Job, Picture, Progress, Runs, next_choice};
use streams::{answer_all, next_count, next_ticket};

fn open_next(rt: &HostRuntime, plan: Plan, picture: &mut Picture) {
    let ticket = next_ticket(rt);
    let plan = next_choice(rt, plan);
    let (_, marks) = picture.lend();
    let _ = match open_picture(plan, ticket, marks) {
        Ok(ticket) => println!(rt; "open {ticket}"),
        Err(refusal) => println!(rt; "refused {}", refusal.number()),
    };
}

fn send_next(rt: &HostRuntime, plan: Plan, runs: &Runs, picture: &mut Picture) {
    let job = Job::next(rt, plan, runs);
    let (output, marks) = picture.lend();
    let answer = compose_job(
        job.plan,
        job.open_ticket,
        job.ticket,
        job.first,
        job.count,
        job.base,
        job.enhancement,
        output,
        marks,
    );
    let _ = match answer {
        Answer::Done(left, base_only) => println!(rt; "{}", Progress { left, base_only }),
        Answer::Refused(number) => println!(rt; "refused {number}"),
    };
}

// Opens the picture, sends the jobs, and prints what is left. A night whose picture is too long ends there.
fn answer_night(rt: &HostRuntime, plan: Plan) {
    let runs = Runs::next(rt);
    let Some(mut picture) = Picture::next(rt) else {
        return;
    };
    open_next(rt, plan, &mut picture);
    for _ in 0..next_count(rt) {
        send_next(rt, plan, &runs, &mut picture);
    }
    let _ = println!(rt; "{picture}");
    if !picture.is_kept() {
        let _ = println!(rt; "a guard was touched");
    }
}

fn main(rt: HostRuntime) {
    answer_all(&rt, answer_night);
}
