// What the vector programs share: the numbers of a stream, its blocks, plans and runs, and the way from case to case.
#![tactic(auto)]

pub mod guards; // what is lent, between guards that nobody may touch
pub mod nights; // pictures that are composed by jobs
pub mod places; // a plan's places by their numbers

ghost use Rattle.std.specs.Prelude.{◌≡◌, ◌<◌, ◌≤◌};
ghost use Rattle.runs.specs.Runs.{painted};
ghost use Rattle.block.specs.Facts.{Sound};
ghost use Rattle.streams.specs.inner.Untouched.{everywhere, untouched};

use block::Reading;
use places::{PLACES, Place};
use plan::Plan;
use std::fmt;
use std::io::Read;

// A block of the vectors has at most so many bytes.
pub const BLOCK_ROOM: usize = 8192;

// A stream has at most so many groups.
const GROUPS: usize = 100000;

// Has group after group answered, each of which begins with a block. A stream ends where it has no whole length of a
// block more.
pub fn answer_all<F: FnMut(&HostRuntime, Plan)>(rt: &HostRuntime, mut answer: F)
    requires { F.IsAlwaysCallable answer }
{
    for _ in 0..GROUPS {
        let Some(length) = first_number(rt) else {
            return;
        };
        answer(rt, next_block(rt, usize::from(length)).plan);
    }
}

// The number of 16 bits that a group begins with; none where the stream ends before it is whole.
fn first_number(rt: &HostRuntime) -> Option<u16> {
    let mut bytes = [0; 2];
    rt.stdin().read_exact(&mut bytes).ok()?;
    Some(u16::from_be_bytes(bytes))
}

// The bytes that come next. Those that the stream does not have are 0.
fn next_bytes<const N: usize>(rt: &HostRuntime) -> [u8; N] {
    let mut bytes = [0; N];
    let _ = rt.stdin().read_exact(&mut bytes);
    bytes
}

// The numbers of a stream stand with the high byte first.
pub fn next_byte(rt: &HostRuntime) -> u8 {
    u8::from_be_bytes(next_bytes(rt))
}

pub fn next_number(rt: &HostRuntime) -> u16 {
    u16::from_be_bytes(next_bytes(rt))
}

pub fn next_ticket(rt: &HostRuntime) -> u32 {
    u32::from_be_bytes(next_bytes(rt))
}

fn next_value(rt: &HostRuntime) -> u64 {
    u64::from_be_bytes(next_bytes(rt))
}

// A number of 16 bits that counts, or says where something begins.
pub fn next_count(rt: &HostRuntime) -> usize
    ensures { result < 65536 }
{
    usize::from(next_number(rt))
}

// A block of so many bytes, read. One that is too long counts as empty, and its bytes are left.
pub fn next_block(rt: &HostRuntime, length: usize) -> Reading
    ensures { Sound result }
{
    let mut room = [0; BLOCK_ROOM];
    let bytes = room.get_mut(..length).unwrap_or_default();
    let _ = rt.stdin().read_exact(bytes);
    block::read(bytes)
}

// The plan with the changes that come next, after their number: each a place and its new value, made in order. A
// number past the last place stands for the last.
pub fn next_plan(rt: &HostRuntime, mut plan: Plan) -> Plan {
    for _ in 0..next_byte(rt) {
        let number = next_count(rt).min(PLACES - 1);
        let value = next_value(rt);
        if let Some(place) = Place::of(&mut plan, number) {
            place.put(value);
        }
    }
    plan
}

// A run of samples with its length before it; answers the length, and leaves out what the run has no room for.
fn next_run(rt: &HostRuntime, run: &mut [u16]) -> usize
    ensures { result < 65536 }
{
    let length = next_count(rt);
    for i in 0..length {
        let sample = next_number(rt);
        if let Some(place) = run.get_mut(i) {
            *place = sample;
        }
    }
    length
}

// A run of at most ROOM samples.
#[derive(Clone, Copy)]
pub struct Run<const ROOM: usize> {
    room: [u16; ROOM],
    length: usize,
    ghost fits: { length ≤ ROOM },
}

impl<const ROOM: usize> Run<ROOM> {
    // A run with its length before it; none where it is longer, but it is passed over.
    pub fn next(rt: &HostRuntime) -> Option<Run<ROOM>> {
        let mut room = [0; ROOM];
        let length = next_run(rt, &mut room);
        if ROOM < length {
            return None;
        }
        Some(Run { room, length })
    }

    pub fn samples(&self) -> &[u16] {
        &self.room[..self.length]
    }
}

// Numbers a run from `first` on, a thousand samples over and over, so that those which nobody wrote show.
pub fn untouch(run: &mut [u16], first: u16)
    ensures { first ≤ 64536 → run.new ≡ painted everywhere (untouched first) run.old }
{
    for (i, sample) in run.iter_mut().enumerate() {
        *sample = first.wrapping_add((i % 1000) as u16);
    }
}

// Values on one line.
#[derive(Clone, Copy)]
pub struct Spaced<'a, T>(pub &'a [T]);

impl<T: fmt::Display> fmt::Display for Spaced<'_, T> {
    fn fmt<W: fmt::Write>(&self, f: &mut fmt::Formatter<W>) -> fmt::Result {
        if let Some((first, rest)) = self.0.split_first() {
            write!(f, "{first}")?;
            for value in rest {
                write!(f, " {value}")?;
            }
        }
        Ok(())
    }
}
