//! Columns of dictionary types, with their entries kept.
use crate::keys::{LISTS, PACKED, PAST, REPEATED, TWO, indices, is_of, keyed};
use crate::pages::{Place, entries};
use columns_base::{Error, PhysicalType, Result, S, V};
use columns_core::DataType;
use dictionary_leaves::DictionaryColumn;
use pq_pages::{Page, VecPages};
use read_state::InitNested;
use std::alloc::Global;

// The column of texts by keys of 8 bits, as many rows in a piece as the size says.
fn column(
    alloc: Global,
    pages: Vec<Result<Page>>,
    parts: &[InitNested],
    size: Option<usize>,
    rows: usize,
) -> Result<DictionaryColumn<VecPages>> {
    DictionaryColumn::try_new(
        alloc,
        VecPages::new(pages),
        keyed(alloc, DataType::Utf8)?,
        PhysicalType::ByteArray,
        parts.to_vec(alloc)?,
        size,
        rows,
    )
}

// The next piece has these keys, 0 in the place of nulls, so many nulls, and both entries.
fn gives(column: &mut DictionaryColumn<VecPages>, want: &[i8], nulls: usize) -> bool {
    match column.next_piece() {
        Some(Ok(piece)) => is_of(&piece.values, want, nulls),
        _ => false,
    }
}

// No piece comes, for this reason.
fn refuses(mut column: DictionaryColumn<VecPages>, want: Error) -> bool {
    match column.next_piece() {
        Some(Err(error)) => error == want,
        _ => false,
    }
}

// Two pages of eight rows, in pieces of six and two; then nothing is left.
fn reads_two_pages(alloc: Global) -> Result<bool> {
    let mut pages = entries(alloc, TWO, 2)?;
    pages.push(indices(alloc, Place::Optional, 5, PACKED))?;
    pages.push(indices(alloc, Place::Optional, 3, REPEATED))?;
    let mut column = column(alloc, pages, &[InitNested::Primitive(true)], Some(6), 8)?;
    Ok(
        gives(&mut column, &[0, 0, 1, 1, 0, 1], 1)
            && gives(&mut column, &[1, 1], 0)
            && column.next_piece().is_none(),
    )
}

// [0, 1], [], [1].
fn reads_lists(alloc: Global) -> Result<bool> {
    let mut pages = entries(alloc, TWO, 2)?;
    pages.push(indices(alloc, Place::Items, 4, LISTS))?;
    let parts = [InitNested::List(false), InitNested::Primitive(false)];
    let mut column = column(alloc, pages, &parts, None, 3)?;
    Ok(gives(&mut column, &[0, 1, 1], 0))
}

// An index past the entries.
fn refuses_other_indices(alloc: Global) -> Result<bool> {
    let mut pages = entries(alloc, TWO, 2)?;
    pages.push(indices(alloc, Place::Optional, 3, PAST))?;
    let column = column(alloc, pages, &[InitNested::Primitive(true)], None, 3)?;
    Ok(refuses(column, Error::OutOfSpec(S::S6)))
}

// Indices before which no entries stand.
fn refuses_no_entries(alloc: Global) -> Result<bool> {
    let mut pages = Vec::new(alloc);
    pages.push(indices(alloc, Place::Optional, 3, REPEATED))?;
    let column = column(alloc, pages, &[InitNested::Primitive(true)], None, 3)?;
    Ok(refuses(column, Error::OutOfSpec(S::S3)))
}

// Keys of 8 bits with a sign number 128 entries.
fn refuses_many_entries(alloc: Global) -> Result<bool> {
    let mut body = Vec::new(alloc);
    body.resize(516, 0)?;
    let pages = entries(alloc, &body, 129)?;
    let column = column(alloc, pages, &[InitNested::Primitive(true)], None, 3)?;
    Ok(refuses(column, Error::Overflow(V::V2)))
}

// A byte that is no UTF-8, which no index names.
fn refuses_no_text(alloc: Global) -> Result<bool> {
    let pages = entries(alloc, &[1, 0, 0, 0, 255], 1)?;
    let column = column(alloc, pages, &[InitNested::Primitive(true)], None, 3)?;
    Ok(refuses(column, Error::OutOfSpec(S::S7)))
}

#[test]
fn two_pages_are_two_pieces(rt: HostRuntime) -> Result<()> {
    assert!(rt; reads_two_pages(rt.alloc())?);
    Ok(())
}

#[test]
fn lists_of_keys_are_read(rt: HostRuntime) -> Result<()> {
    assert!(rt; reads_lists(rt.alloc())?);
    Ok(())
}

#[test]
fn an_index_past_the_entries_is_refused(rt: HostRuntime) -> Result<()> {
    assert!(rt; refuses_other_indices(rt.alloc())?);
    Ok(())
}

#[test]
fn indices_without_entries_are_refused(rt: HostRuntime) -> Result<()> {
    assert!(rt; refuses_no_entries(rt.alloc())?);
    Ok(())
}

#[test]
fn keys_of_a_byte_number_128_entries(rt: HostRuntime) -> Result<()> {
    assert!(rt; refuses_many_entries(rt.alloc())?);
    Ok(())
}

#[test]
fn an_entry_that_is_no_text_is_refused(rt: HostRuntime) -> Result<()> {
    assert!(rt; refuses_no_text(rt.alloc())?);
    Ok(())
}
