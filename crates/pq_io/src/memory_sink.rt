//! A sink in memory that fails at the calls of a list.
ghost use Rattle.std.specs.Prelude.{◌≡◌, ◌<◌, ◌≤◌, ◌↔◌, Some, [], IfOk, IsErrOf, length, min};
ghost use Rattle.std.specs.Io.KnownBytes.{WriteAppends};
ghost use Rattle.pq_io.specs.Causes.{Rose};
ghost use Rattle.pq_io.specs.Ends.{TakesSome};

use crate::{Sink, SinkFault};
use std::alloc::Global;

/// Keeps in memory what it takes, and fails at the calls whose numbers stand in a list.
/// The first call is number 1.
#[derive(Drop)]
pub struct MemorySink {
    bytes: Vec<u8>,
    failing: Vec<u64>,
    limit: usize,
    calls: u64,
    faults: u64,
    wants: u64,
    ghost takes_some: { 0 < limit },
}

impl MemorySink {
    ghost use Rattle.pq_io.specs.MemorySinks.{memory_taken, IsUnused};

    /// A sink that has taken nothing and never failed, and takes whole pieces.
    pub fn new(alloc: Global, failing: Vec<u64>) -> Self
        ensures taken { memory_taken result ≡ [] }
        ensures unused { IsUnused result }
        ensures failing { result.failing.items ≡ failing.items }
        ensures limit { result.limit ≡ usize.MAX }
    {
        MemorySink::with_limit(alloc, failing, usize::MAX)
    }

    /// A sink that has taken nothing and never failed, and takes at most `limit` bytes a call.
    pub fn with_limit(alloc: Global, failing: Vec<u64>, limit: usize) -> Self
        requires { 0 < limit }
        ensures taken { memory_taken result ≡ [] }
        ensures unused { IsUnused result }
        ensures failing { result.failing.items ≡ failing.items }
        ensures limit { result.limit ≡ limit }
    {
        MemorySink {
            bytes: Vec::new(alloc),
            failing,
            limit,
            calls: 0,
            faults: 0,
            wants: 0,
        }
    }

    /// The bytes that it has taken.
    pub fn bytes(&self) -> &[u8]
        ensures { result.now ≡ memory_taken self.now }
    {
        &self.bytes
    }
}

impl Sink for MemorySink {
    ghost use Rattle.pq_io.specs.MemorySinks.{IsToFail, IsCalled, IsCounted};

    ghost taken = { λ s. Some s.bytes.items };

    ghost faults = { λ s. s.faults };

    ghost wants = { λ s. s.wants };

    /// Fails exactly at the calls of the list, and else takes all of the piece, or as much as the limit. `Memory` may come at any other
    /// call.
    fn push(&mut self, piece: &[u8]) -> Result<usize, SinkFault>
        ensures bound { TakesSome result piece.now }
        ensures bytes { WriteAppends (Some self.old.bytes.items) (Some self.new.bytes.items) result piece.now }
        ensures later { self.old.faults ≤ self.new.faults }
        ensures cause { IsErrOf result SinkFault.Failed → Rose self.old.faults self.new.faults }
        ensures wants_later { self.old.wants ≤ self.new.wants }
        ensures wants_cause { IsErrOf result SinkFault.Memory → Rose self.old.wants self.new.wants }
        ensures fails { IsErrOf result SinkFault.Failed ↔ IsToFail self.old }
        ensures takes { IfOk result (λ n. n ≡ min (length piece.now) self.old.limit) }
        ensures called { IsCalled self.old self.new }
        ensures counted { IsCounted self.old self.new result }
    {
        self.calls = self.calls.saturating_add(1);
        if self.failing.contains(&self.calls) {
            self.faults = self.faults.saturating_add(1);
            return Err(SinkFault::Failed);
        }
        let count = piece.len().min(self.limit);
        match self.bytes.extend_from_slice(&piece[..count]) {
            Ok(()) => Ok(count),
            Err(_) => {
                self.wants = self.wants.saturating_add(1);
                Err(SinkFault::Memory)
            }
        }
    }
}
