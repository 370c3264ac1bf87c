//! A sink in memory that keeps large pieces as they are.
ghost use Rattle.std.specs.Prelude.{◌≡◌, ◌≤◌, ◌⊎◌, Some, [], IfErr, IfOk, IsErrOf, OnErr, OnOk, length};
ghost use Rattle.std.specs.Io.KnownBytes.{Appends, WriteAppends};
ghost use Rattle.columns_base.specs.declared.error.Error.{Error};
ghost use Rattle.pq_io.specs.Causes.{Rose, raised};
ghost use Rattle.pq_io.specs.Ends.{AppendsFront, TakesSome};

use crate::{Sink, SinkFault, push_all};
use std::alloc::Global;
use std::mem;

/// A vector of at least so many bytes is kept as it is.
const WHOLE: usize = 4096;

/// Keeps in memory what it takes, a large vector that it is handed whole as it is. It never fails, and counts how often it wanted memory.
#[derive(Drop)]
pub struct PieceSink {
    alloc: Global,
    pieces: Vec<Vec<u8>>,
    tail: Vec<u8>,
    wants: u64,
}

impl PieceSink {
    ghost use Rattle.pq_io.specs.PieceSinks.{joined, pieces_taken};

    /// A sink that has taken nothing.
    pub fn new(alloc: Global) -> Self
        ensures taken { pieces_taken result ≡ [] }
        ensures unused { result.wants ≡ 0 }
    {
        PieceSink {
            alloc,
            pieces: Vec::new(alloc),
            tail: Vec::new(alloc),
            wants: 0,
        }
    }

    /// Hands all that it has taken to another sink, piece after piece.
    ///
    /// # Errors
    ///
    /// `WriteFault` and `Memory`, as `push_all` answers them: the other sink has then taken a front part.
    pub fn push_to<K: Sink>(&self, sink: &mut K) -> columns_base::Result<()>
        ensures ok { OnOk result (Appends (K.taken sink.old) (K.taken sink.new) (pieces_taken self.now)) }
        ensures front { AppendsFront (K.taken sink.old) (K.taken sink.new) (pieces_taken self.now) }
        ensures later { K.faults sink.old ≤ K.faults sink.new }
        ensures fault { IsErrOf result Error.WriteFault → Rose (K.faults sink.old) (K.faults sink.new) }
        ensures wants_later { K.wants sink.old ≤ K.wants sink.new }
        ensures memory { IsErrOf result Error.Memory → Rose (K.wants sink.old) (K.wants sink.new) }
        ensures only { IfErr result (λ e. (e ≡ Error.WriteFault) ⊎ (e ≡ Error.Memory)) }
    {
        let mut left = self.pieces.as_slice();
        'pieces: while let [first, rest @ ..] = left {
            push_all(sink, first)?;
            left = rest;
        }
        push_all(sink, &self.tail)?;
        Ok(())
    }

    // Puts what came in small pieces behind those that are kept.
    fn close_tail(&mut self) -> Result<(), SinkFault>
        ensures closed { OnOk result ((joined self.new.pieces.items ≡ pieces_taken self.old)
            × (self.new.tail.items ≡ []) × (self.new.wants ≡ self.old.wants)) }
        ensures same { pieces_taken self.new ≡ pieces_taken self.old }
        ensures later { self.old.wants ≤ self.new.wants }
        ensures err { IfErr result (λ e. (e ≡ SinkFault.Memory) × (self.new.wants ≡ raised self.old.wants)) }
    {
        if self.tail.is_empty() {
            return Ok(());
        }
        let tail = mem::replace(&mut self.tail, Vec::new(self.alloc));
        match self.pieces.push(tail) {
            Ok(()) => Ok(()),
            Err(failed) => {
                self.tail = failed.value;
                self.wants = self.wants.saturating_add(1);
                Err(SinkFault::Memory)
            }
        }
    }
}

impl Sink for PieceSink {
    ghost use Rattle.pq_io.specs.PieceSinks.{pieces_taken};

    ghost taken = { λ s. Some (pieces_taken s) };

    ghost faults = { λ _. 0 };

    ghost wants = { λ s. s.wants };

    /// Takes the whole piece. Only `Memory` may come in its place. Each want of memory counts one, and nothing else does.
    fn push(&mut self, piece: &[u8]) -> Result<usize, SinkFault>
        ensures bound { TakesSome result piece.now }
        ensures bytes { WriteAppends (Some (pieces_taken self.old)) (Some (pieces_taken self.new)) result piece.now }
        ensures later { 0 ≤ 0 }
        ensures cause { IsErrOf result SinkFault.Failed → Rose 0 0 }
        ensures wants_later { self.old.wants ≤ self.new.wants }
        ensures wants_cause { IsErrOf result SinkFault.Memory → Rose self.old.wants self.new.wants }
        ensures takes { IfOk result (λ n. n ≡ length piece.now) }
        ensures uncounted { OnOk result (self.new.wants ≡ self.old.wants) }
        ensures counted { OnErr result (self.new.wants ≡ raised self.old.wants) }
    {
        match self.tail.extend_from_slice(piece) {
            Ok(()) => Ok(piece.len()),
            Err(_) => {
                self.wants = self.wants.saturating_add(1);
                Err(SinkFault::Memory)
            }
        }
    }

    /// Keeps a large vector as it is. Only `Memory` may come in its place, and then it has taken nothing. Each want of memory counts one, and nothing else does.
    fn push_owned(&mut self, bytes: Vec<u8>) -> Result<(), SinkFault>
        ensures all { OnOk result (Appends (Some (pieces_taken self.old)) (Some (pieces_taken self.new)) bytes.items) }
        ensures front { AppendsFront (Some (pieces_taken self.old)) (Some (pieces_taken self.new)) bytes.items }
        ensures later { 0 ≤ 0 }
        ensures cause { IsErrOf result SinkFault.Failed → Rose 0 0 }
        ensures wants_later { self.old.wants ≤ self.new.wants }
        ensures wants_cause { IsErrOf result SinkFault.Memory → Rose self.old.wants self.new.wants }
        ensures uncounted { OnOk result (self.new.wants ≡ self.old.wants) }
        ensures counted { OnErr result (self.new.wants ≡ raised self.old.wants) }
    {
        if bytes.len() < WHOLE {
            return self.push(&bytes).map(drop);
        }
        self.close_tail()?;
        match self.pieces.push(bytes) {
            Ok(()) => Ok(()),
            Err(failed) => {
                drop(failed);
                self.wants = self.wants.saturating_add(1);
                Err(SinkFault::Memory)
            }
        }
    }
}
