//! A source in memory that never fails.
ghost use Rattle.std.specs.Prelude.{◌≡◌, ◌≤◌, Some, Ok, OnErr, drop, length, min};
ghost use Rattle.std.specs.Io.{ReadsAtMost};
ghost use Rattle.std.specs.Io.KnownBytes.{ReadConsumes};
ghost use Rattle.pq_io.specs.Causes.{Rose};

use crate::{Failed, Source};

/// Gives the bytes of a vector, and never fails.
#[derive(Drop)]
pub struct PlainSource {
    bytes: Vec<u8>,
    at: usize,
    ghost within: { at ≤ length bytes.items },
}

impl PlainSource {
    ghost use Rattle.pq_io.specs.PlainSources.{plain_left};

    /// A source that still gives all the bytes.
    pub fn new(bytes: Vec<u8>) -> Self
        ensures { plain_left result ≡ bytes.items }
    {
        PlainSource { bytes, at: 0 }
    }
}

impl Source for PlainSource {
    ghost use Rattle.pq_io.specs.PlainSources.{plain_left};

    ghost left = { λ s. Some (drop s.at s.bytes.items) };

    ghost faults = { λ _. 0 };

    /// Gives what is left, or as much of it as the buffer holds.
    fn pull(&mut self, into: &mut [u8]) -> Result<usize, Failed>
        ensures bound { ReadsAtMost result into.new }
        ensures bytes { ReadConsumes (Some (drop self.old.at self.old.bytes.items))
            (Some (drop self.new.at self.new.bytes.items)) result into.new }
        ensures later { 0 ≤ 0 }
        ensures cause { OnErr result (Rose 0 0) }
        ensures gives { result ≡ Ok (min (length into.old) (length (plain_left self.old))) }
    {
        let count = into.len().min(self.bytes.len() - self.at);
        into[..count].copy_from_slice(&self.bytes[self.at..self.at + count]);
        self.at += count;
        Ok(count)
    }
}
