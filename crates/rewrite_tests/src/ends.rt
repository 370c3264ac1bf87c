//! Runs over ends in memory.
use pq_rewrite::{MemorySink, MemorySource, NoView, run};
use schema_fb::FlatCodec;
use std::alloc::{AllocError, Global};

/// What a run answered, and what sink and notes gained.
#[derive(Drop)]
pub(crate) struct Outcome {
    pub(crate) status: u8,
    pub(crate) gained: Vec<u8>,
    pub(crate) notes: Vec<u8>,
}

/// The call, counted from 1, at which the source, the sink and the notes fail, and how many bytes the sink takes a call.
#[derive(Clone, Copy)]
pub(crate) struct Faults {
    pub(crate) source: u64,
    pub(crate) sink: u64,
    pub(crate) notes: u64,
    pub(crate) limit: usize,
}

/// No call fails, and the sink takes whole pieces.
pub(crate) const NO_FAULTS: Faults = Faults {
    source: 0,
    sink: 0,
    notes: 0,
    limit: usize::MAX,
};

/// Words with which the schema is that of the file's tree.
pub(crate) const BY_TREE: &[&str] = &["--ignore-key"];

/// Words with which it is the one under the key, where that is there: none.
pub(crate) const BY_KEY: &[&str] = &[];

/// The words as a program is given them.
pub(crate) fn words_of(alloc: Global, words: &[&str]) -> Result<Vec<String>, AllocError> {
    let mut out = Vec::new(alloc);
    for word in words {
        out.push(String::from_str(alloc, word)?)?;
    }
    Ok(out)
}

/// A run with these words over such ends.
pub(crate) fn run_with(
    alloc: Global,
    words: &[&str],
    input: &[u8],
    faults: Faults,
) -> Result<Outcome, AllocError> {
    let words = words_of(alloc, words)?;
    let input = Vec::from_slice(alloc, input)?;
    let mut source = MemorySource::new(input, Vec::from_slice(alloc, &[faults.source])?);
    let failing = Vec::from_slice(alloc, &[faults.sink])?;
    let mut sink = MemorySink::with_limit(alloc, failing, faults.limit.max(1));
    let mut notes = MemorySink::new(alloc, Vec::from_slice(alloc, &[faults.notes])?);
    let mut view = NoView;
    let status = run(
        alloc,
        &words,
        &mut source,
        &mut sink,
        &mut notes,
        &FlatCodec,
        &mut view,
    );
    let gained = sink.bytes().to_vec(alloc)?;
    let notes = notes.bytes().to_vec(alloc)?;
    Ok(Outcome {
        status,
        gained,
        notes,
    })
}

/// A run with these words over ends that do not fail.
pub(crate) fn run_on(alloc: Global, words: &[&str], input: &[u8]) -> Result<Outcome, AllocError> {
    run_with(alloc, words, input, NO_FAULTS)
}
