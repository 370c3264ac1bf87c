//! A source in memory that fails at the calls of a list.
ghost use Rattle.std.specs.Prelude.{◌≡◌, ◌≤◌, ◌↔◌, Some, IfOk, IsErr, OnOk, OnErr, drop, length, min};
ghost use Rattle.std.specs.Io.{ReadsAtMost};
ghost use Rattle.std.specs.Io.KnownBytes.{ReadConsumes};
ghost use Rattle.pq_io.specs.Causes.{Rose, raised};

use crate::{Failed, Source};

/// Gives the bytes of a vector, and fails at the calls whose numbers stand in a list.
/// The first call is number 1.
#[derive(Drop)]
pub struct MemorySource {
    bytes: Vec<u8>,
    at: usize,
    failing: Vec<u64>,
    calls: u64,
    faults: u64,
    ghost within: { at ≤ length bytes.items },
}

impl MemorySource {
    ghost use Rattle.pq_io.specs.MemorySources.{memory_left, IsUnused};

    /// A source that still gives all the bytes, and never failed.
    pub fn new(bytes: Vec<u8>, failing: Vec<u64>) -> Self
        ensures left { memory_left result ≡ bytes.items }
        ensures unused { IsUnused result }
        ensures failing { result.failing.items ≡ failing.items }
    {
        MemorySource {
            bytes,
            at: 0,
            failing,
            calls: 0,
            faults: 0,
        }
    }
}

impl Source for MemorySource {
    ghost use Rattle.pq_io.specs.MemorySources.{memory_left, IsToFail, IsCalled};

    ghost left = { λ s. Some (drop s.at s.bytes.items) };

    ghost faults = { λ s. s.faults };

    /// Fails exactly at the calls of the list, and else gives what is left, or as much of it as the buffer holds.
    fn pull(&mut self, into: &mut [u8]) -> Result<usize, Failed>
        ensures bound { ReadsAtMost result into.new }
        ensures bytes { ReadConsumes (Some (drop self.old.at self.old.bytes.items))
            (Some (drop self.new.at self.new.bytes.items)) result into.new }
        ensures later { self.old.faults ≤ self.new.faults }
        ensures cause { OnErr result (Rose self.old.faults self.new.faults) }
        ensures fails { IsErr result ↔ IsToFail self.old }
        ensures gives { IfOk result (λ n. n ≡ min (length into.old) (length (memory_left self.old))) }
        ensures called { IsCalled self.old self.new }
        ensures uncounted { OnOk result (self.new.faults ≡ self.old.faults) }
        ensures counted { OnErr result (self.new.faults ≡ raised self.old.faults) }
    {
        self.calls = self.calls.saturating_add(1);
        if self.failing.contains(&self.calls) {
            self.faults = self.faults.saturating_add(1);
            return Err(Failed);
        }
        let count = into.len().min(self.bytes.len() - self.at);
        into[..count].copy_from_slice(&self.bytes[self.at..self.at + count]);
        self.at += count;
        Ok(count)
    }
}
