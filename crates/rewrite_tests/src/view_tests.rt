//! A view that keeps the pieces of a rewrite.
use super::ends::words_of;
use super::files::bases::THE_FIRST_FILE;
use columns_array::Chunk;
use pq_rewrite::{PlainSink, PlainSource, RowsView, read_words, rewrite};
use schema_fb::FlatCodec;
use std::alloc::{AllocError, Global};

/// Whether each chunk has one array of so many slots, of which so many are null.
fn are_counted(chunks: &[Chunk], counts: &[(usize, usize)]) -> bool {
    if chunks.len() != counts.len() {
        return false;
    }
    for i in 0..counts.len() {
        let arrays = chunks[i].arrays();
        if arrays.len() != 1 {
            return false;
        }
        if arrays[0].len() != counts[i].0 || arrays[0].null_count() != counts[i].1 {
            return false;
        }
    }
    true
}

/// Whether a rewrite of the first file with these words shows pieces with so many slots and nulls each.
fn are_shown(alloc: Global, words: &[&str], counts: &[(usize, usize)]) -> Result<bool, AllocError> {
    let words = words_of(alloc, words)?;
    let Some(options) = read_words(&words) else {
        return Ok(false);
    };
    let mut source = PlainSource::new(Vec::from_slice(alloc, THE_FIRST_FILE)?);
    let mut sink = PlainSink::new(alloc);
    let mut view = RowsView::new(alloc);
    let made = rewrite(
        alloc,
        &mut source,
        &mut sink,
        &FlatCodec,
        options,
        &mut view,
    );
    Ok(made.is_ok() && are_counted(view.pieces(), counts))
}

#[test]
fn a_view_keeps_each_piece(rt: HostRuntime) -> Result<(), AllocError> {
    assert!(rt; are_shown(rt.alloc(), &["--chunk=3"], &[(3, 1), (1, 0)])?);
    assert!(rt; are_shown(rt.alloc(), &[], &[(4, 1)])?);
    Ok(())
}
