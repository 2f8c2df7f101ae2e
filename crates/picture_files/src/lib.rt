// Pictures in files: the four words that name them, bands of row pairs at their places, the jobs of a band, and what
// is said of files that do not fit.
#![tactic(auto)]

pub mod bands; // bands of a picture, and their places in a file
pub mod names; // four words, and the files that they name
pub mod opened; // the open files of one group
pub mod progress; // how far the work is
mod sample; // which sample of a refused job is too large
pub mod schedule; // which row pairs the jobs of a band name, and which jobs go without the enhancement

pub use sample::RefusedJob;
