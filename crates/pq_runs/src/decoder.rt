//! Runs as they stand in the bytes.

ghost use Rattle.std.specs.Prelude.{◌≡◌, ◌<◌, ◌≤◌, ℕ, List, length};
ghost use Rattle.std.specs.Iterator.{at_most};
ghost use Rattle.pq_runs.specs.Decoder.{StepsRun};

use crate::run::{Run, take_run};
use columns_base::{Error, Result, S};

/// The runs as they stand at the front of the bytes, up to the end of the bytes or the first that isn't there.
#[derive(Drop)]
pub struct Decoder<'a> {
    pub values: &'a [u8],
    pub num_bits: u32,
}

impl<'a> Decoder<'a> {
    /// The runs of numbers of `num_bits` bits. Where no run stands, S6 comes once, and nothing behind it.
    pub fn new(values: &'a [u8], num_bits: u32) -> Self
        ensures values { result.values.now ≡ values.now }
        ensures bits { result.num_bits ≡ num_bits }
    {
        Decoder { values, num_bits }
    }
}

impl<'a> Iterator for Decoder<'a> {
    type Item = Result<Run<'a>>;

    ghost next_gives = { StepsRun };

    ghost remaining = { λ d. at_most (length d.values.now) };

    fn next(&mut self) -> Option<Result<Run<'a>>> {
        if self.values.is_empty() {
            return None;
        }
        match take_run(self.values, self.num_bits) {
            None => {
                self.values = &[];
                Some(Err(Error::OutOfSpec(S::S6)))
            }
            Some((run, rest)) => {
                self.values = rest;
                Some(Ok(run))
            }
        }
    }
}
