// Runs of samples from their places in a file and back: two bytes a sample, the low byte first.
ghost use Rattle.std.specs.Prelude.{◌≤◌, length};

use crate::{PART, read_full, seek};
use std::fs::File;
use std::io::{Error, ErrorKind, Result, Write};

// As many samples as go through memory at once.
const SAMPLES: usize = PART / 2;

// Fills the run with the samples that come next in the file; an error where it has not so many.
fn load_part(file: &File, run: &mut [u16]) -> Result<()>
    requires { length run.old ≤ 32768 }
{
    let mut room = [0u8; PART];
    let bytes = &mut room[..2 * run.len()];
    if read_full(file, bytes) < bytes.len() {
        return Err(Error::from(ErrorKind::UnexpectedEof));
    }
    for (k, sample) in run.iter_mut().enumerate() {
        *sample = u16::from_le_bytes([room[2 * k], room[2 * k + 1]]);
    }
    Ok(())
}

fn store_part(file: &File, run: &[u16]) -> Result<()>
    requires { length run.now ≤ 32768 }
{
    let mut room = [0u8; PART];
    for (k, sample) in run.iter().enumerate() {
        let [low, high] = sample.to_le_bytes();
        room[2 * k] = low;
        room[2 * k + 1] = high;
    }
    let mut written = file;
    written.write_all(&room[..2 * run.len()])
}

// Fills the run with the samples from a byte of the file on; an error where it has not so many.
pub fn load(file: &File, place: usize, run: &mut [u16]) -> Result<()> {
    seek(file, place);
    for part in run.chunks_mut(SAMPLES) {
        load_part(file, part)?;
    }
    Ok(())
}

// Writes the run from a byte of the file on; the error says why it cannot be written.
pub fn store(file: &File, place: usize, run: &[u16]) -> Result<()> {
    seek(file, place);
    for part in run.chunks(SAMPLES) {
        store_part(file, part)?;
    }
    Ok(())
}
