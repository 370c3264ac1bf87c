//! The words that ask for a sample.
use super::ends::{Faults, NO_FAULTS, run_with, words_of};
use super::files::bases::THE_FIRST_FILE;
use columns_array::Chunk;
use pq_rewrite::{PlainSink, PlainSource, RowsView, run};
use schema_fb::FlatCodec;
use std::alloc::{AllocError, Global};

/// How many rows are asked for, and the two lines: a group for each 1,000 rows, the last one begun, and three pages a group; how many items are
/// present, and their sum.
const SAMPLES: &[(&str, &[u8])] = &[
    ("1", b"groups 1, rows 1, pages 3\nitems 0, sum 0\n"),
    ("2", b"groups 1, rows 2, pages 3\nitems 1, sum 1\n"),
    ("10", b"groups 1, rows 10, pages 3\nitems 10, sum 50\n"),
    ("0010", b"groups 1, rows 10, pages 3\nitems 10, sum 50\n"),
];

/// Whether the words make a sample of which these lines tell. Source and sink fail at their first call, so neither is called.
fn is_made(alloc: Global, count: &str, lines: &[u8]) -> Result<bool, AllocError> {
    let faults = Faults {
        source: 1,
        sink: 1,
        ..NO_FAULTS
    };
    let made = run_with(alloc, &["sample", count], THE_FIRST_FILE, faults)?;
    Ok(made.status == 0 && made.gained.is_empty() && made.notes.as_slice() == lines)
}

#[test]
fn samples_are_made(rt: HostRuntime) -> Result<(), AllocError> {
    for (count, lines) in SAMPLES {
        assert!(rt; is_made(rt.alloc(), count, lines)?);
    }
    Ok(())
}

/// Whether there is one chunk of three arrays of so many rows.
fn is_one_chunk(chunks: &[Chunk], rows: usize) -> bool {
    let Some(chunk) = chunks.first() else {
        return false;
    };
    let arrays = chunk.arrays();
    chunks.len() == 1 && arrays.len() == 3 && arrays.iter().all(|array| array.len() == rows)
}

#[test]
fn a_view_is_shown_the_sample(rt: HostRuntime) -> Result<(), AllocError> {
    let alloc = rt.alloc();
    let words = words_of(alloc, &["sample", "10"])?;
    let mut source = PlainSource::new(Vec::new(alloc));
    let mut sink = PlainSink::new(alloc);
    let mut notes = PlainSink::new(alloc);
    let mut view = RowsView::new(alloc);
    let status = run(
        alloc,
        &words,
        &mut source,
        &mut sink,
        &mut notes,
        &FlatCodec,
        &mut view,
    );
    assert!(rt; status == 0 && is_one_chunk(view.pieces(), 10));
    Ok(())
}
