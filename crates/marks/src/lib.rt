// The marks of a picture, a byte for each row pair: 0 waits, 2 is base only, any other value is full.
#![tactic(auto)]

ghost use Rattle.std.specs.Prelude.{◌≡◌, ◌≤◌, length};
ghost use Rattle.runs.specs.Runs.{painted, between, tally};
ghost use Rattle.runs.specs.inner.Loops.{at};
ghost use Rattle.marks.specs.Marks.{waits, base_only, full_at};
ghost use Rattle.marks.specs.inner.Marks.{every_pair, waiting, has, based, marked};

// The caller keeps them as bytes (the C interface), any of which is a mark: so they are numbers, and no enum.
const WAITS: u8 = 0;

const FULL: u8 = 1;

const BASE_ONLY: u8 = 2;

// Whether the mark of row pair k says that it is full; of one without a mark nothing says so.
pub fn is_full(marks: &[u8], k: usize) -> bool
    ensures { result ≡ full_at marks.now k }
{
    match marks.get(k) {
        Some(mark) => (*mark != WAITS) & (*mark != BASE_ONLY),
        None => false,
    }
}

// The mark of a row pair that was composed without an enhancement: a full one stays as it is.
fn based(mark: u8) -> u8
    ensures { result ≡ based mark }
{
    if mark == WAITS { BASE_ONLY } else { mark }
}

fn put_based(from: usize, to: usize, marks: &mut [u8])
    requires from_le_to { from ≤ to }
    requires to_in_bounds { to ≤ length marks.old }
    ensures { marks.new ≡ painted (between from to) (λ k. based (at marks.old k)) marks.old }
{
    for mark in marks[from..to].iter_mut() {
        *mark = based(*mark);
    }
}

// Every row pair waits.
pub fn clear(marks: &mut [u8])
    ensures { marks.new ≡ painted every_pair waiting marks.old }
{
    marks.fill(WAITS);
}

// The row pairs from `from` up to, but not including, `to` are composed: all of them are full, or those that were not
// are base only. Where they do not all have a mark, nothing is written.
pub fn mark(full: bool, from: usize, to: usize, marks: &mut [u8])
    ensures { marks.new ≡ marked full from to marks.old }
{
    if to < from || marks.len() < to {
        return;
    }
    if full {
        marks[from..to].fill(FULL);
        return;
    }
    put_based(from, to, marks);
}

// How many marks have a value. `filter` and `count` of an iterator are not made into vectors: a job of one row pair
// takes 4 % more instructions by them.
fn count(value: u8, marks: &[u8]) -> usize
    ensures { result ≡ tally (has value) marks.now }
{
    let mut many: usize = 0;
    for mark in marks {
        if *mark == value {
            many += 1;
        }
    }
    many
}

// How many row pairs wait.
pub fn waiting(marks: &[u8]) -> usize
    ensures { result ≡ tally waits marks.now }
{
    count(WAITS, marks)
}

// How many row pairs are base only.
pub fn base_only(marks: &[u8]) -> usize
    ensures { result ≡ tally base_only marks.now }
{
    count(BASE_ONLY, marks)
}
