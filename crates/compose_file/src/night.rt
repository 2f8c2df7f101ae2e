// The jobs of one band, which is opened as a picture of its own height. With --standby or --late each of them is said.
use jobs::{Answer, compose_job, open_picture};
use picture_files::RefusedJob;
use picture_files::bands::Band;
use picture_files::opened::Files;
use picture_files::schedule::{Named, Way};
use plan::Plan;
use saying::{Said, rule_of, say};
use std::fmt;

// What the jobs of a band have in common. The plan is that of a picture of the band's height.
#[derive(Clone, Copy)]
pub(crate) struct Task<'a> {
    pub(crate) files: &'a Files<'a>,
    pub(crate) band: Band,
    pub(crate) plan: &'a Plan,
}

// The band's samples, and a mark for each of its row pairs.
#[derive(Drop)]
pub(crate) struct Runs<'r> {
    pub(crate) base: &'r [u16],
    pub(crate) enhancement: &'r [u16],
    pub(crate) output: &'r mut [u16],
    pub(crate) marks: &'r mut [u8],
}

// How far a band is after a job.
#[derive(Clone, Copy, Debug, PartialEq, Eq)]
pub(crate) enum State {
    Unfinished,
    Complete,
}

// A job, whose row pairs count from the band's first, and whether it goes without the enhancement.
#[derive(Clone, Copy)]
struct Job {
    first: u16, // of the band, in the picture
    named: Named,
    bare: bool,
}

impl fmt::Display for Job {
    fn fmt<W: fmt::Write>(&self, f: &mut fmt::Formatter<W>) -> fmt::Result {
        let count = self.named.count;
        let from = u32::from(self.first) + u32::from(self.named.first);
        let how = if self.bare {
            " without enhancement"
        } else {
            ""
        };
        write!(f, "job{how}, {count} row pairs from {from}")
    }
}

// What is said of a job that is done. That nothing is left is for the proved function to say.
fn say_done(rt: &HostRuntime, job: Job, answer: Answer) {
    let Answer::Done(left, base_only) = answer else {
        return;
    };
    if answer.is_complete() {
        say!(rt; "{job}: complete");
    } else {
        say!(rt; "{job}: {left} row pairs left");
    }
    if 0 < base_only {
        say!(rt; ", {base_only} base only");
    }
    say!(rt; "\n");
}

impl Task<'_> {
    fn rt(&self) -> &HostRuntime {
        let files = self.files;
        files.names.output.rt
    }

    // Opens the band, as a picture of its height.
    pub(crate) fn open(&self, marks: &mut [u8]) -> Result<(), Said> {
        match open_picture(*self.plan, 1, marks) {
            Ok(_) => Ok(()),
            Err(_) => {
                say!(self.rt(); "the picture cannot be opened\n");
                Err(Said)
            }
        }
    }

    // Sends one job.
    fn send(&self, job: Job, runs: &mut Runs) -> Result<State, Said> {
        let brought = if job.bare { &[] } else { runs.enhancement };
        let answer = compose_job(
            *self.plan,
            1,
            1,
            usize::from(job.named.first),
            usize::from(job.named.count),
            runs.base,
            brought,
            runs.output,
            runs.marks,
        );
        if let Some(rule) = rule_of(answer.number()) {
            let files = self.files;
            let job = RefusedJob {
                names: files.names,
                header: self.plan.header,
                band: self.band,
                named: job.named,
                base: runs.base,
                enhancement: brought,
            };
            return Err(job.say(rule));
        }
        if self.files.way.is_said() {
            say_done(self.rt(), job, answer);
        }
        Ok(if answer.is_complete() {
            State::Complete
        } else {
            State::Unfinished
        })
    }

    // What is said before job k: the band, whether the enhancement is there, and the standby.
    fn say_before(&self, k: u16) {
        let (rt, way, band) = (self.rt(), self.files.way, self.band);
        if !way.is_said() {
            return;
        }
        if k == 0 {
            let last = band.first.saturating_add(band.count.saturating_sub(1));
            say!(rt; "picture {}, row pairs {} to {last}\n", band.picture, band.first);
        }
        if way == Way::Late && k == 0 {
            say!(rt; "the enhancement is late\n");
        }
        if way == Way::Late && k == way.come_at(band.count) {
            say!(rt; "the enhancement has come\n");
        }
        if k == way.standby_at(band.count) {
            say!(rt; "standby; the jobs in flight are sent again\n");
        }
    }

    // Sends the band's jobs from number `from` up to number `to`.
    pub(crate) fn send_jobs(&self, from: u16, to: u16, runs: &mut Runs) -> Result<State, Said> {
        let (way, band) = (self.files.way, self.band);
        let mut state = State::Unfinished;
        for k in from..to {
            self.say_before(k);
            let job = Job {
                first: band.first,
                named: way.job(band.count, k),
                bare: way.is_bare(band.count, k),
            };
            state = self.send(job, runs)?;
        }
        Ok(state)
    }
}
