//! A sink over a real stream.
ghost use Rattle.std.specs.Prelude.{◌≡◌, ◌≤◌, Ok, OnOk, OnErr, IfErr, IsErrOf, length};
ghost use Rattle.std.specs.Io.KnownBytes.{WriteAppends};
ghost use Rattle.pq_io.specs.Causes.{Rose, raised};
ghost use Rattle.pq_io.specs.Ends.{TakesSome};

use crate::{Sink, SinkFault};
use std::io::Write;

/// A sink over a writer of std. It tells the bytes that the writer tells: none of standard output and standard error.
/// It counts its faults, a write of 0 bytes among them.
#[derive(Drop)]
pub struct StdSink<W> {
    inner: W,
    faults: u64,
}

impl<W: Write> StdSink<W> {
    /// A sink over the writer, without a fault so far.
    pub fn new(inner: W) -> Self
        ensures { result.faults ≡ 0 }
    {
        StdSink { inner, faults: 0 }
    }
}

impl<W: Write> Sink for StdSink<W> {
    ghost taken = { λ s. W.contents s.inner };

    ghost faults = { λ s. s.faults };

    ghost wants = { λ _. 0 };

    /// Takes what one write takes. Each fault counts one, and nothing else does.
    fn push(&mut self, piece: &[u8]) -> Result<usize, SinkFault>
        ensures bound { TakesSome result piece.now }
        ensures bytes { WriteAppends (W.contents self.old.inner) (W.contents self.new.inner) result piece.now }
        ensures later { self.old.faults ≤ self.new.faults }
        ensures cause { IsErrOf result SinkFault.Failed → Rose self.old.faults self.new.faults }
        ensures wants_later { 0 ≤ 0 }
        ensures wants_cause { IsErrOf result SinkFault.Memory → Rose 0 0 }
        ensures empty { length piece.now ≡ 0 → result ≡ Ok 0 }
        ensures fails { IfErr result (λ e. e ≡ SinkFault.Failed) }
        ensures uncounted { OnOk result (self.new.faults ≡ self.old.faults) }
        ensures counted { OnErr result (self.new.faults ≡ raised self.old.faults) }
    {
        if piece.is_empty() {
            return Ok(0);
        }
        match self.inner.write(piece) {
            Ok(count) if count > 0 => Ok(count),
            _ => {
                self.faults = self.faults.saturating_add(1);
                Err(SinkFault::Failed)
            }
        }
    }
}
