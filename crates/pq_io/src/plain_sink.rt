//! A sink in memory that never fails.
ghost use Rattle.std.specs.Prelude.{◌≡◌, ◌≤◌, Some, [], IfOk, IsErrOf, length};
ghost use Rattle.std.specs.Io.KnownBytes.{WriteAppends};
ghost use Rattle.pq_io.specs.Causes.{Rose};
ghost use Rattle.pq_io.specs.Ends.{TakesSome};
ghost use Rattle.pq_io.specs.PlainSinks.{WantsAlone};

use crate::{Sink, SinkFault};
use std::alloc::Global;

/// Keeps in memory what it takes. It never fails, and counts how often it wanted memory.
#[derive(Drop)]
pub struct PlainSink {
    bytes: Vec<u8>,
    wants: u64,
}

impl PlainSink {
    ghost use Rattle.pq_io.specs.PlainSinks.{plain_taken};

    /// A sink that has taken nothing.
    pub fn new(alloc: Global) -> Self
        ensures taken { plain_taken result ≡ [] }
        ensures unused { result.wants ≡ 0 }
    {
        PlainSink {
            bytes: Vec::new(alloc),
            wants: 0,
        }
    }

    /// The bytes that it has taken.
    pub fn bytes(&self) -> &[u8]
        ensures { result.now ≡ plain_taken self.now }
    {
        &self.bytes
    }
}

impl Sink for PlainSink {
    ghost taken = { λ s. Some s.bytes.items };

    ghost faults = { λ _. 0 };

    ghost wants = { λ s. s.wants };

    /// Takes the whole piece. Only `Memory` may come in its place.
    fn push(&mut self, piece: &[u8]) -> Result<usize, SinkFault>
        ensures bound { TakesSome result piece.now }
        ensures bytes { WriteAppends (Some self.old.bytes.items) (Some self.new.bytes.items) result piece.now }
        ensures later { 0 ≤ 0 }
        ensures cause { IsErrOf result SinkFault.Failed → Rose 0 0 }
        ensures wants_later { self.old.wants ≤ self.new.wants }
        ensures wants_cause { IsErrOf result SinkFault.Memory → Rose self.old.wants self.new.wants }
        ensures takes { IfOk result (λ n. n ≡ length piece.now) }
        ensures wants { WantsAlone self.old self.new result }
    {
        match self.bytes.extend_from_slice(piece) {
            Ok(()) => Ok(piece.len()),
            Err(_) => {
                self.wants = self.wants.saturating_add(1);
                Err(SinkFault::Memory)
            }
        }
    }
}
