// Pictures that are composed by jobs: the runs and the plan that a job refers to, what it is lent, and what is said of
// it.
use crate::guards::{GUARDS, Guarded, MARK, SAMPLE};
use crate::{Spaced, next_byte, next_count, next_run, next_ticket, untouch};
use plan::Plan;
use std::fmt;
use std::io::Read;

// A run has at most so many samples.
const RUN_ROOM: usize = 96;

const RUNS: usize = 16;

// The runs of a stream, to which jobs refer by their places. One that is too long goes on in the rooms behind its own:
// so the rooms lie in one array, and the lengths apart.
#[derive(Clone, Copy)]
pub struct Runs {
    rooms: [u16; RUNS * RUN_ROOM],
    lengths: [usize; RUNS],
}

impl Runs {
    pub fn next(rt: &HostRuntime) -> Runs {
        let mut rooms = [0; RUNS * RUN_ROOM];
        let mut lengths = [0; RUNS];
        let count = usize::from(next_byte(rt));
        let all = rooms.chunks_mut(RUN_ROOM).zip(&mut lengths);
        for (room, length) in all.take(count) {
            *length = next_run(rt, room);
        }
        Runs { rooms, lengths }
    }

    // The run that the stream refers to next. Where there is none, it has no sample.
    pub fn next_of(&self, rt: &HostRuntime) -> &[u16] {
        let place = usize::from(next_byte(rt));
        self.run(place).unwrap_or_default()
    }

    fn run(&self, place: usize) -> Option<&[u16]> {
        let length = *self.lengths.get(place)?;
        self.rooms.get(RUN_ROOM * place..)?.get(..length)
    }
}

// The plan that is chosen next: the block's, or the plan of zeros where the choice is 1.
pub fn next_choice(rt: &HostRuntime, plan: Plan) -> Plan {
    match next_byte(rt) {
        1 => plan::empty(),
        _ => plan,
    }
}

// A job, with the plan and the runs that it refers to.
#[derive(Clone, Copy)]
pub struct Job<'a> {
    pub plan: Plan,
    pub open_ticket: u32,
    pub ticket: u32,
    pub first: usize,
    pub count: usize,
    pub base: &'a [u16],
    pub enhancement: &'a [u16],
}

impl<'a> Job<'a> {
    pub fn next(rt: &HostRuntime, plan: Plan, runs: &'a Runs) -> Job<'a> {
        Job {
            plan: next_choice(rt, plan),
            open_ticket: next_ticket(rt),
            ticket: next_ticket(rt),
            first: next_count(rt),
            count: next_count(rt),
            base: runs.next_of(rt),
            enhancement: runs.next_of(rt),
        }
    }
}

// Pictures have at most 96 samples and 48 marks.
const SAMPLE_ROOM: usize = 96 + GUARDS;

const MARK_ROOM: usize = 48 + GUARDS;

// What the jobs of a picture are lent: its output run and its marks.
#[derive(Clone, Copy)]
pub struct Picture {
    output: Guarded<u16, SAMPLE_ROOM>,
    marks: Guarded<u8, MARK_ROOM>,
}

impl Picture {
    // The marks as the stream has them, none where they are too many, and an output run that nobody wrote; no picture
    // where that is too long.
    pub fn next(rt: &HostRuntime) -> Option<Picture> {
        let mut marks = match Guarded::new(MARK, next_count(rt)) {
            Some(marks) => marks,
            None => Guarded::new(MARK, 0)?,
        };
        let _ = rt.stdin().read_exact(marks.lend());
        let mut output = Guarded::new(SAMPLE, next_count(rt))?;
        untouch(output.lend(), 60000);
        Some(Picture { output, marks })
    }

    pub fn lend(&mut self) -> (&mut [u16], &mut [u8]) {
        let output = &mut self.output;
        let marks = &mut self.marks;
        (output.lend(), marks.lend())
    }

    pub fn is_kept(&self) -> bool {
        self.output.is_kept() && self.marks.is_kept()
    }
}

impl fmt::Display for Picture {
    fn fmt<W: fmt::Write>(&self, f: &mut fmt::Formatter<W>) -> fmt::Result {
        writeln!(f, "{}", Spaced(self.output.lent()))?;
        write!(f, "{}", Spaced(self.marks.lent()))
    }
}

// How far a picture is: the row pairs that still wait, and those that are base only.
#[derive(Clone, Copy)]
pub struct Progress {
    pub left: usize,
    pub base_only: usize,
}

impl fmt::Display for Progress {
    fn fmt<W: fmt::Write>(&self, f: &mut fmt::Formatter<W>) -> fmt::Result {
        match self.left {
            0 => write!(f, "complete")?,
            left => write!(f, "left {left}")?,
        }
        let base_only = self.base_only;
        write!(f, ", base only {base_only}")
    }
}
