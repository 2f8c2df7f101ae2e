// Loops over whole slices: samples looked up in a table, and the bits of six runs joined. A table has a place for
// every index that a loop can ask for, so that nothing is asked of the samples. Table and base are handed on one by
// one: a struct of these two references would make no line shorter, and each clause longer.
#![tactic(auto)]

pub mod apart; // stretches that stand apart, in step

ghost use Rattle.std.specs.Prelude.{◌≡◌, ◌+◌, ◌*◌, ◌^◌, ◌<◌, ◌≤◌, length};
ghost use Rattle.runs.specs.Runs.{painted, between};
ghost use Rattle.runs.specs.inner.Loops.{below};
ghost use Rattle.spans.specs.inner.Spans.{entry, looked_up, four, put_four, Given, Joins, joined_six};

fn looked_up(table: &[u16; 1024], base: &[u16], i: usize) -> u16
    requires { i < length base.now }
    ensures { result ≡ looked_up table.now base.now i }
{
    let s = base[i];
    let v = table[(s % 1024) as usize];
    v
}

// Of four samples one number, the first one lowest.
fn join(a: u16, b: u16, c: u16, d: u16) -> u64
    ensures { result ≡ a + b * 2 ^ 16 + c * 2 ^ 32 + d * 2 ^ 48 }
{
    (((a as u64) + ((b as u64) << 16)) + ((c as u64) << 32)) + ((d as u64) << 48)
}

// Four samples as one number, the first one lowest: the compiler makes one load of them. Where there are no four, 0: a
// caller that lends four pays for no test.
pub fn four(part: &[u16]) -> u64
    ensures is { result ≡ four part.now }
    ensures gives { 4 ≤ length part.now → Given part.now 0 result }
{
    if part.len() < 4 {
        return 0;
    }
    join(part[0], part[1], part[2], part[3])
}

// Stores a number as four samples, the lowest first: the compiler makes one store of them. Where there are no four
// places, nothing: a caller that lends four pays for no test.
pub fn put_four(x: u64, part: &mut [u16])
    ensures { part.new ≡ put_four x part.old }
{
    if part.len() < 4 {
        return;
    }
    part[0] = (x % 65536) as u16;
    part[1] = ((x >> 16) % 65536) as u16;
    part[2] = ((x >> 32) % 65536) as u16;
    part[3] = ((x >> 48) % 65536) as u16;
}

// What the table has for the sample that is the lowest bits of a number: the remainder makes any sample an index.
fn entry_of(table: &[u16; 1024], w: u64) -> u16
    ensures { result ≡ entry table.now w }
{
    table[(w % 1024) as usize]
}

// What the table has for four samples, as one number.
fn looked_up_four(table: &[u16; 1024], base: &[u16], i: usize) -> u64
    requires { i + 4 ≤ length base.now }
    ensures { Joins (looked_up table.now base.now) i result }
{
    let w = four(&base[i..i + 4]);
    let a = entry_of(table, w);
    let b = entry_of(table, w >> 16);
    let c = entry_of(table, w >> 32);
    let d = entry_of(table, w >> 48);
    join(a, b, c, d)
}

// Eight samples, stored after all their loads.
fn look_up_eight(table: &[u16; 1024], base: &[u16], i: usize, output: &mut [u16])
    requires { (i + 8 ≤ length base.now) × (i + 8 ≤ length output.old) }
    ensures { output.new ≡ painted (between i (i + 8)) (looked_up table.now base.now) output.old }
{
    let j = i + 4;
    let x = looked_up_four(table, base, i);
    let y = looked_up_four(table, base, j);
    put_four(x, &mut output[i..j]);
    put_four(y, &mut output[j..j + 4]);
}

// Writes what the table has for each sample, eight samples a turn: a loop of one sample waits for its own counting.
pub fn look_up(table: &[u16; 1024], base: &[u16], output: &mut [u16])
    ensures { output.new ≡ painted (below (length base.now)) (looked_up table.now base.now) output.old }
{
    let n = base.len().min(output.len());
    let turns = n / 8;
    for t in 0..turns {
        look_up_eight(table, base, 8 * t, output);
    }
    for i in 8 * turns..n {
        output[i] = looked_up(table, base, i);
    }
}

// Every bit that some sample of six runs has: whether one reaches a power of two. Six runs in step are loaded faster
// than the same samples one after the other. Places that one of the runs does not have are left out.
pub fn joined_six(a: &[u16], b: &[u16], c: &[u16], d: &[u16], e: &[u16], f: &[u16]) -> u16
    ensures { result ≡ joined_six a.now b.now c.now d.now e.now f.now }
{
    let first = a.len().min(b.len());
    let second = c.len().min(d.len());
    let third = e.len().min(f.len());
    let n = first.min(second.min(third));
    let mut bits: u16 = 0;
    for i in 0..n {
        bits |= (a[i] | b[i]) | ((c[i] | d[i]) | (e[i] | f[i]));
    }
    bits
}
