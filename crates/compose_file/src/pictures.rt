// All bands of all pictures that the four words name.
use crate::night::{Runs, State, Task};
use picture_files::bands::{BAND, Band, pairs_in_band};
use picture_files::names::Names;
use picture_files::opened::Files;
use picture_files::progress::{end_progress, say_progress};
use picture_files::schedule::Way;
use plan::Plan;
use plan::limits::MOST_PAIRS;
use saying::Said;

const PAIRS: usize = MOST_PAIRS as usize;

// The memory through which the bands go.
#[derive(Drop)]
struct Room {
    base: [u16; BAND],
    enhancement: [u16; BAND],
    output: [u16; BAND],
    marks: [u8; PAIRS],
}

// The plan of a picture that is so many row pairs high.
fn of_height(plan: &Plan, pairs: u16) -> Plan {
    let mut band = *plan;
    band.header.pairs = pairs;
    band
}

impl Task<'_> {
    // Sends the jobs from number `from` up to number `to`, after which the band has to be complete.
    fn complete(&self, from: u16, to: u16, runs: &mut Runs) -> Result<(), Said> {
        match self.send_jobs(from, to, runs)? {
            State::Complete => Ok(()),
            State::Unfinished => Err(Said),
        }
    }

    // Opens the band that is loaded, sends its jobs and stores it. Of a late group the jobs that go before the
    // enhancement comes are sent first, and the band is stored as it then is.
    fn compose_loaded(&self, runs: &mut Runs) -> Result<(), Said> {
        let (way, count) = (self.files.way, self.band.count);
        let come = way.come_at(count);
        self.open(runs.marks)?;
        if way == Way::Late {
            self.complete(0, come, runs)?;
            self.files.store_early(self.band, runs.output)?;
        }
        self.complete(come, way.jobs(count), runs)?;
        self.files.store(self.band, runs.output)
    }

    // Loads the band into the front of the room and composes it; says why, where something is refused or cannot be read
    // or written. Were there ever less room than the band needs, its job would be refused by rule 9.
    fn compose(&self, room: &mut Room) -> Result<(), Said> {
        let n = self.band.samples().min(BAND);
        let enhanced = if self.files.is_enhanced() { n } else { 0 };
        let pairs = usize::from(self.band.count).min(PAIRS);
        let Room {
            base,
            enhancement,
            output,
            marks,
        } = room;
        let (base, enhancement) = (&mut base[..n], &mut enhancement[..enhanced]);
        self.files.load(self.band, base, enhancement)?;
        self.compose_loaded(&mut Runs {
            base,
            enhancement,
            output: &mut output[..n],
            marks: &mut marks[..pairs],
        })
    }
}

// One picture, which begins at a byte of the files.
fn compose_picture(plan: &Plan, files: &Files, picture: usize, start: usize) -> Result<(), Said> {
    let mut room = Room {
        base: [0; BAND],
        enhancement: [0; BAND],
        output: [0; BAND],
        marks: [0; PAIRS],
    };
    let columns = plan.header.columns;
    let pairs = plan.header.pairs;
    let most = pairs_in_band(columns);
    for first in (0..pairs).step_by(usize::from(most)) {
        let left = pairs.saturating_sub(first);
        let count = left.min(most);
        let band = Band {
            picture,
            start,
            columns,
            pairs,
            first,
            count,
        };
        let task = Task {
            files: &*files,
            band,
            plan: &of_height(plan, count),
        };
        task.compose(&mut room)?;
        let rest = left.saturating_sub(count);
        say_progress(files.names.output.rt, picture, files.pictures, rest);
    }
    Ok(())
}

// All pictures.
fn compose_pictures(plan: &Plan, files: &Files) -> Result<(), Said> {
    let mut start: usize = 0;
    for picture in 0..files.pictures {
        compose_picture(plan, files, picture, start)?;
        start = start.wrapping_add(files.size);
    }
    Ok(())
}

// Composes what the four words name, by the plan that the block gave; says why, where nothing was written.
pub(crate) fn compose_plan(names: Names, way: Way, plan: &Plan) -> Result<(), Said> {
    let files = Files::open(names, way, plan.header)?;
    let composed = compose_pictures(plan, &files);
    end_progress(names.output.rt);
    files.close(composed)
}
