//! Hands whole texts to a sink.
ghost use Rattle.std.specs.Prelude.{◌≡◌, ◌≤◌, ◌⊎◌, OnOk, IfErr, IsErrOf};
ghost use Rattle.std.specs.Io.KnownBytes.{Appends};
ghost use Rattle.columns_base.specs.declared.error.Error.{Error};
ghost use Rattle.pq_io.specs.Causes.{Rose};
ghost use Rattle.pq_io.specs.Ends.{AppendsFront};

use crate::{Sink, SinkFault};
use columns_base::{Error, Result};

/// Pushes all the bytes, in as many calls as the sink asks for. Each call that takes bytes takes at least one.
///
/// `WriteFault` comes only where the sink's count of faults rose in this call, and `Memory` only where its
/// count of wants did. The sink has then taken the bytes up to that place.
pub fn push_all<K: Sink>(sink: &mut K, bytes: &[u8]) -> Result<()>
    ensures ok { OnOk result (Appends (K.taken sink.old) (K.taken sink.new) bytes.now) }
    ensures front { AppendsFront (K.taken sink.old) (K.taken sink.new) bytes.now }
    ensures later { K.faults sink.old ≤ K.faults sink.new }
    ensures fault { IsErrOf result Error.WriteFault → Rose (K.faults sink.old) (K.faults sink.new) }
    ensures wants_later { K.wants sink.old ≤ K.wants sink.new }
    ensures memory { IsErrOf result Error.Memory → Rose (K.wants sink.old) (K.wants sink.new) }
    ensures only { IfErr result (λ e. (e ≡ Error.WriteFault) ⊎ (e ≡ Error.Memory)) }
{
    let mut pushed = 0;
    'pushing: while pushed < bytes.len() {
        match sink.push(&bytes[pushed..]) {
            Ok(count) => pushed += count,
            Err(SinkFault::Failed) => return Err(Error::WriteFault),
            Err(SinkFault::Memory) => return Err(Error::Memory),
        }
    }
    Ok(())
}

/// Hands all the bytes over, as `push_all` does. A sink in memory may keep the vector as it is.
pub fn push_owned<K: Sink>(sink: &mut K, bytes: Vec<u8>) -> Result<()>
    ensures ok { OnOk result (Appends (K.taken sink.old) (K.taken sink.new) bytes.items) }
    ensures front { AppendsFront (K.taken sink.old) (K.taken sink.new) bytes.items }
    ensures later { K.faults sink.old ≤ K.faults sink.new }
    ensures fault { IsErrOf result Error.WriteFault → Rose (K.faults sink.old) (K.faults sink.new) }
    ensures wants_later { K.wants sink.old ≤ K.wants sink.new }
    ensures memory { IsErrOf result Error.Memory → Rose (K.wants sink.old) (K.wants sink.new) }
    ensures only { IfErr result (λ e. (e ≡ Error.WriteFault) ⊎ (e ≡ Error.Memory)) }
{
    match sink.push_owned(bytes) {
        Ok(()) => Ok(()),
        Err(SinkFault::Failed) => Err(Error::WriteFault),
        Err(SinkFault::Memory) => Err(Error::Memory),
    }
}
