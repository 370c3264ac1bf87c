//! A sink of bytes.
ghost use Rattle.std.specs.Prelude.{◌≤◌, List, ℕ, OnOk, IsErrOf};
ghost use Rattle.std.specs.declared.option.Option.{Option};
ghost use Rattle.std.specs.Io.KnownBytes.{Appends, WriteAppends};
ghost use Rattle.pq_io.specs.Causes.{Rose};
ghost use Rattle.pq_io.specs.Ends.{AppendsFront, TakesSome};

use thiserror::Error;

/// Why a sink took nothing.
#[derive(Clone, Copy, Debug, PartialEq, Eq, Error)]
pub enum SinkFault {
    /// A write failed.
    #[error("the sink failed")]
    Failed,
    /// There was no memory for the piece.
    #[error("the sink wants memory")]
    Memory,
}

/// Takes bytes, in the order in which it is handed them.
pub trait Sink {
    /// The bytes that it has taken, where it tells them.
    ghost taken: { Self → Option (List ℕ) };

    /// How often it has failed.
    ghost faults: { Self → ℕ };

    /// How often it wanted memory.
    ghost wants: { Self → ℕ };

    /// Takes the first bytes of the piece, and answers how many: none of an empty piece, else at least one.
    /// After a fault it has taken none. Each fault comes only where its count rose in the call.
    fn push(&mut self, piece: &[u8]) -> Result<usize, SinkFault>
        ensures bound { TakesSome result piece.now }
        ensures bytes { WriteAppends (taken self.old) (taken self.new) result piece.now }
        ensures later { faults self.old ≤ faults self.new }
        ensures cause { IsErrOf result SinkFault.Failed → Rose (faults self.old) (faults self.new) }
        ensures wants_later { wants self.old ≤ wants self.new }
        ensures wants_cause { IsErrOf result SinkFault.Memory → Rose (wants self.old) (wants self.new) };

    /// Takes all the bytes; a sink in memory may keep the vector as it is. After a fault it has taken a front part of them.
    /// Each fault comes only where its count rose in the call.
    fn push_owned(&mut self, bytes: Vec<u8>) -> Result<(), SinkFault>
        ensures all { OnOk result (Appends (taken self.old) (taken self.new) bytes.items) }
        ensures front { AppendsFront (taken self.old) (taken self.new) bytes.items }
        ensures later { faults self.old ≤ faults self.new }
        ensures cause { IsErrOf result SinkFault.Failed → Rose (faults self.old) (faults self.new) }
        ensures wants_later { wants self.old ≤ wants self.new }
        ensures wants_cause { IsErrOf result SinkFault.Memory → Rose (wants self.old) (wants self.new) }
    {
        let mut pushed = 0;
        'pushing: while pushed < bytes.len() {
            pushed += self.push(&bytes[pushed..])?;
        }
        Ok(())
    }
}
