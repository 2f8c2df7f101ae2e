// Runs the cases of the second program about tables (second/README.md has their format): a table that is lent is
// filled, damaged and shown, two pictures are composed by plain jobs and by table jobs in any order, and what is left
// in the memory is printed. All that is lent lies between guards, which nobody may touch.
#![tactic(auto)]

use filling::fill_table;
use jobs::{Answer, compose_job, open_picture};
use plan::Plan;
use streams::guards::{GUARDS, Guarded, SAMPLE};
use streams::nights::{Job, Picture, Progress, Runs, next_choice};
use streams::{
    Spaced, answer_all, next_block, next_byte, next_count, next_number, next_ticket, untouch,
};
use table_jobs::compose_table_job;

// A table has at most 3,080 samples.
const TABLE_ROOM: usize = 3080 + GUARDS;

// What a step does.
#[derive(Clone, Copy)]
enum Step {
    Open,
    Job,
    TableJob,
    Fill,
    Damage,
    Show,
    Block,
}

impl From<u8> for Step {
    fn from(kind: u8) -> Step {
        match kind {
            0 => Step::Open,
            1 => Step::Job,
            2 => Step::TableJob,
            3 => Step::Fill,
            4 => Step::Damage,
            5 => Step::Show,
            _ => Step::Block,
        }
    }
}

// The picture that the stream names next: the first by 0, the second by any other number.
fn next_of<'a>(rt: &HostRuntime, pictures: &'a mut [Picture; 2]) -> &'a mut Picture {
    let place = usize::from(next_byte(rt).min(1));
    &mut pictures[place]
}

// What the steps of a case work on.
#[derive(Clone, Copy)]
struct Case {
    plan: Plan,
    runs: Runs,
    table: Guarded<u16, TABLE_ROOM>,
    pictures: [Picture; 2],
}

impl Case {
    // The case of a plan; none where its table or a picture is too long.
    fn next(rt: &HostRuntime, plan: Plan) -> Option<Case> {
        let runs = Runs::next(rt);
        let table = Guarded::new(SAMPLE, next_count(rt));
        let pictures = (Picture::next(rt), Picture::next(rt));
        let mut table = table?;
        untouch(table.lend(), 50000);
        Some(Case {
            plan,
            runs,
            table,
            pictures: [pictures.0?, pictures.1?],
        })
    }

    fn open(&mut self, rt: &HostRuntime) {
        let picture = next_of(rt, &mut self.pictures);
        let plan = next_choice(rt, self.plan);
        let ticket = next_ticket(rt);
        let (_, marks) = picture.lend();
        let _ = match open_picture(plan, ticket, marks) {
            Ok(ticket) => println!(rt; "open {ticket}"),
            Err(refusal) => println!(rt; "refused {}", refusal.number()),
        };
    }

    fn send_job(&mut self, rt: &HostRuntime) {
        let picture = next_of(rt, &mut self.pictures);
        let job = Job::next(rt, self.plan, &self.runs);
        let (output, marks) = picture.lend();
        let answer = compose_job(
            job.plan,
            job.open_ticket,
            job.ticket,
            job.first,
            job.count,
            job.base,
            job.enhancement,
            output,
            marks,
        );
        let _ = match answer {
            Answer::Done(left, base_only) => println!(rt; "{}", Progress { left, base_only }),
            Answer::Refused(number) => println!(rt; "refused {number}"),
        };
    }

    fn send_table_job(&mut self, rt: &HostRuntime) {
        let picture = next_of(rt, &mut self.pictures);
        let job = Job::next(rt, self.plan, &self.runs);
        let (output, marks) = picture.lend();
        let answer = compose_table_job(
            job.plan,
            self.table.lent(),
            job.open_ticket,
            job.ticket,
            job.first,
            job.count,
            job.base,
            job.enhancement,
            output,
            marks,
        );
        let _ = match answer {
            Answer::Done(left, base_only) => println!(rt; "{}", Progress { left, base_only }),
            Answer::Refused(number) => println!(rt; "refused {number}"),
        };
    }

    fn fill(&mut self, rt: &HostRuntime) {
        let plan = next_choice(rt, self.plan);
        let _ = match fill_table(plan, self.table.lend()) {
            Ok(()) => println!(rt; "filled"),
            Err(refusal) => println!(rt; "refused {}", refusal.number()),
        };
    }

    // One value everywhere in a part of the table. Where the table has no such part, no value follows, and nothing is
    // said.
    fn damage(&mut self, rt: &HostRuntime) {
        let from = next_count(rt);
        let to = next_count(rt);
        if let Some(part) = self.table.lend().get_mut(from..to) {
            part.fill(next_number(rt));
            let _ = println!(rt; "damaged");
        }
    }

    fn show(&self, rt: &HostRuntime) {
        let from = next_count(rt);
        let to = next_count(rt);
        if let Some(part) = self.table.lent().get(from..to) {
            let _ = println!(rt; "{}", Spaced(part));
        }
    }

    // Another plan is the block's from here on.
    fn read_block(&mut self, rt: &HostRuntime) {
        // Said before the block is read, so that one who waits for it may send the block then.
        let _ = println!(rt; "read");
        let length = next_count(rt);
        self.plan = next_block(rt, length).plan;
    }

    fn step(&mut self, rt: &HostRuntime) {
        match Step::from(next_byte(rt)) {
            Step::Open => self.open(rt),
            Step::Job => self.send_job(rt),
            Step::TableJob => self.send_table_job(rt),
            Step::Fill => self.fill(rt),
            Step::Damage => self.damage(rt),
            Step::Show => self.show(rt),
            Step::Block => self.read_block(rt),
        }
    }

    fn is_kept(&self) -> bool {
        self.table.is_kept() && self.pictures.iter().all(|picture| picture.is_kept())
    }
}

fn answer_case(rt: &HostRuntime, plan: Plan) {
    let Some(mut case) = Case::next(rt, plan) else {
        return;
    };
    for _ in 0..next_count(rt) {
        case.step(rt);
    }
    for picture in &case.pictures {
        let _ = println!(rt; "{picture}");
    }
    if !case.is_kept() {
        let _ = println!(rt; "a guard was touched");
    }
}

fn main(rt: HostRuntime) {
    answer_all(&rt, answer_case);
}
