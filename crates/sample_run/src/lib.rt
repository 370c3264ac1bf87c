//! The sample: its rows are written as a file in memory, the file is rewritten in groups of 1,000 rows, and the items of the new file are read
//! and counted.
#![tactic(auto)]

mod call;
mod options;
mod read;
mod rewrite;
mod write;

pub use call::{Sampled, sample};
