//! A sink that keeps large pieces as they are.
use columns_base::{Error, Result};
use pq_io::{MemorySink, PieceSink, push_all, push_owned};
use std::alloc::Global;

// So many bytes that are all the same.
fn equal(alloc: Global, count: usize, byte: u8) -> Result<Vec<u8>> {
    let mut bytes = Vec::new(alloc);
    bytes.resize(count, byte)?;
    Ok(bytes)
}

// Two bytes, a large vector, a small one, and a large one again.
fn filled(alloc: Global) -> Result<PieceSink> {
    let mut pieces = PieceSink::new(alloc);
    push_all(&mut pieces, &[1, 2])?;
    push_owned(&mut pieces, equal(alloc, 5000, 3)?)?;
    push_owned(&mut pieces, equal(alloc, 1, 4)?)?;
    push_owned(&mut pieces, equal(alloc, 4096, 5)?)?;
    Ok(pieces)
}

// The first bytes of these.
fn front(alloc: Global, count: usize) -> Result<Vec<u8>> {
    let mut bytes = Vec::from_slice(alloc, &[1, 2])?;
    bytes.resize(5002, 3)?;
    bytes.resize(5003, 4)?;
    bytes.resize(9099, 5)?;
    bytes.truncate(count);
    Ok(bytes)
}

// What a sink that fails at these calls has then taken, and what is answered.
fn hands_over(alloc: Global, failing: &[u64], want: Result<()>, count: usize) -> Result<bool> {
    let mut sink = MemorySink::new(alloc, failing.to_vec(alloc)?);
    let answer = filled(alloc)?.push_to(&mut sink);
    Ok(answer == want && sink.bytes() == front(alloc, count)?.as_slice())
}

#[test]
fn pieces_go_in_order(rt: HostRuntime) -> Result<()> {
    assert!(rt; hands_over(rt.alloc(), &[], Ok(()), 9099)?);
    Ok(())
}

#[test]
fn a_front_part_is_handed_over(rt: HostRuntime) -> Result<()> {
    let rows: [(u64, usize); 4] = [(1, 0), (2, 2), (3, 5002), (4, 5003)];
    for (failing, count) in &rows {
        assert!(rt; hands_over(rt.alloc(), &[*failing], Err(Error::WriteFault), *count)?);
    }
    Ok(())
}
