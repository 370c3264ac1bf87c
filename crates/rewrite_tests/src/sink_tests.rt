//! Sinks at work: in memory, and over writers that fail.
use columns_base::Error;
use pq_rewrite::{MemorySink, PlainSink, Sink, SinkFault, StdSink, push_all};
use std::alloc::{AllocError, Global};
use std::io::{self, ErrorKind, Write};

/// A writer that writes at most so many bytes a call, and fails at its third call.
#[derive(Drop)]
struct Scanty {
    most: usize,
    calls: u64,
}

impl Write for Scanty {
    fn write(&mut self, piece: &[u8]) -> io::Result<usize> {
        self.calls = self.calls.saturating_add(1);
        if self.calls == 3 {
            return Err(io::Error::from(ErrorKind::BrokenPipe));
        }
        Ok(piece.len().min(self.most))
    }

    fn flush(&mut self) -> io::Result<()> {
        Ok(())
    }
}

fn is_plain(alloc: Global) -> bool {
    let mut sink = PlainSink::new(alloc);
    push_all(&mut sink, b"PAR1") == Ok(())
        && push_all(&mut sink, b"more") == Ok(())
        && sink.bytes() == b"PAR1more".as_slice()
}

/// Whether a sink that takes so many bytes a call takes them all.
fn takes_all(alloc: Global, limit: usize) -> bool {
    if limit == 0 {
        return false;
    }
    let mut sink = MemorySink::with_limit(alloc, Vec::new(alloc), limit);
    push_all(&mut sink, b"PAR1more") == Ok(()) && sink.bytes() == b"PAR1more".as_slice()
}

#[test]
fn whole_texts_are_taken(rt: HostRuntime) {
    assert!(rt; is_plain(rt.alloc()));
    for limit in [1, 3, 9] {
        assert!(rt; takes_all(rt.alloc(), limit));
    }
}

/// Whether the third of the calls fails, with two bytes taken.
fn fails_at_its_third_call(alloc: Global) -> Result<bool, AllocError> {
    let mut sink = MemorySink::with_limit(alloc, Vec::from_slice(alloc, &[3])?, 1);
    Ok(push_all(&mut sink, b"PAR1") == Err(Error::WriteFault) && sink.bytes() == b"PA".as_slice())
}

#[test]
fn calls_fail_where_they_are_to(rt: HostRuntime) -> Result<(), AllocError> {
    assert!(rt; fails_at_its_third_call(rt.alloc())?);
    Ok(())
}

/// Whether the third write fails, so that two pieces of two bytes are taken.
fn scanty_fails() -> bool {
    let mut sink = StdSink::new(Scanty { most: 2, calls: 0 });
    sink.push(b"") == Ok(0)
        && sink.push(b"abc") == Ok(2)
        && push_all(&mut sink, b"cdef") == Err(Error::WriteFault)
}

/// Whether a writer that takes nothing counts as failed.
fn closed_fails() -> bool {
    let mut sink = StdSink::new(Scanty { most: 0, calls: 0 });
    sink.push(b"a") == Err(SinkFault::Failed)
}

#[test]
fn streams_fail(rt: HostRuntime) {
    assert!(rt; scanty_fails());
    assert!(rt; closed_fails());
}
