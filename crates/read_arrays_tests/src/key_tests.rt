//! The keys of a column of texts by a dictionary.
use crate::keys::indices;
use crate::pages::{Form, Place, entries, page};
use columns_base::{Error, N, PhysicalType, Result, S};
use columns_core::IntegerType;
use dictionary_columns::{KeyPages, Lent, key_page};
use pq_pages::{Page, VecPages};
use read_column::ColumnReader;
use read_state::InitNested;
use read_types::Numbers;
use std::alloc::Global;

// The keys 0, 1, 2 (Parquet format, Encodings, "Plain").
const KEYS: &[u8] = &[0, 0, 0, 0, 1, 0, 0, 0, 2, 0, 0, 0];

// 0, null, 2, 2, 1: definition levels behind their length, and the indices 0, 2, 2, 1, packed in two bits each.
const PACKED: &[u8] = &[2, 0, 0, 0, 3, 0b0001_1101, 2, 3, 0b0110_1000, 0];

// 1, 1, 1: a run of three levels, and one of three indices.
const REPEATED: &[u8] = &[2, 0, 0, 0, 6, 1, 2, 6, 1];

// The index 3, three times.
const PAST: &[u8] = &[2, 0, 0, 0, 6, 1, 2, 6, 3];

// Three indices of no bits, of a column without levels.
const NO_BITS: &[u8] = &[0];

// The texts "a", "", "b" in PLAIN.
const TEXTS: &[u8] = &[2, 0, 0, 0, 6, 1, 1, 0, 0, 0, 97, 0, 0, 0, 0, 1, 0, 0, 0, 98];

// The reader of the keys of so many entries, of so many rows in one piece.
fn reader(
    alloc: Global,
    pages: Vec<Result<Page>>,
    is_required: bool,
    rows: usize,
    few: bool,
) -> Result<ColumnReader<KeyPages<VecPages>, Numbers<u8, i32>>> {
    let mut parts = Vec::new(alloc);
    parts.push(InitNested::Primitive(!is_required))?;
    let source = KeyPages {
        pages: VecPages::new(pages),
        keys: key_page(alloc, IntegerType::UInt8, if few { 1 } else { 3 })?,
        lent: Lent::Ahead,
    };
    ColumnReader::new(
        alloc,
        &Numbers::new(),
        source,
        PhysicalType::Int32,
        parts,
        None,
        rows,
    )
}

// The one piece has these keys, 0 in the place of nulls, and so many nulls.
fn gives(
    mut reader: ColumnReader<KeyPages<VecPages>, Numbers<u8, i32>>,
    want: &[u8],
    nulls: usize,
) -> bool {
    match reader.next_piece(&Numbers::new()) {
        Some(Ok((_, values))) => {
            let (numbers, validity) = values.into_parts();
            match validity.into_bitmap() {
                Ok(mask) => numbers.as_slice() == want && mask.unset_bits() == nulls,
                Err(_) => false,
            }
        }
        _ => false,
    }
}

// No piece comes, for this reason.
fn refuses(mut reader: ColumnReader<KeyPages<VecPages>, Numbers<u8, i32>>, want: Error) -> bool {
    match reader.next_piece(&Numbers::new()) {
        Some(Err(error)) => error == want,
        _ => false,
    }
}

// The bytes of a page of keys.
fn has_body(page: Page, want: &[u8]) -> bool {
    match page {
        Page::Dict(page) => page.buffer.as_slice() == want,
        Page::Data(_) => false,
    }
}

#[test]
fn keys_are_the_numbers_from_0_on(rt: HostRuntime) -> Result<()> {
    let alloc = rt.alloc();
    let wide = &[0, 0, 0, 0, 0, 0, 0, 0, 1, 0, 0, 0, 0, 0, 0, 0];
    assert!(rt; has_body(key_page(alloc, IntegerType::Int16, 3)?, KEYS));
    assert!(rt; has_body(key_page(alloc, IntegerType::UInt64, 2)?, wide));
    Ok(())
}

fn reads_indices(alloc: Global) -> Result<bool> {
    let mut pages = Vec::new(alloc);
    pages.push(indices(alloc, Place::Optional, 5, PACKED))?;
    pages.push(indices(alloc, Place::Optional, 3, REPEATED))?;
    let reader = reader(alloc, pages, false, 8, false)?;
    Ok(gives(reader, &[0, 0, 2, 2, 1, 1, 1, 1], 1))
}

#[test]
fn indices_are_keys(rt: HostRuntime) -> Result<()> {
    assert!(rt; reads_indices(rt.alloc())?);
    Ok(())
}

fn reads_no_bits(alloc: Global) -> Result<bool> {
    let mut pages = Vec::new(alloc);
    pages.push(indices(alloc, Place::Required, 3, NO_BITS))?;
    let reader = reader(alloc, pages, true, 3, true)?;
    Ok(gives(reader, &[0, 0, 0], 0))
}

#[test]
fn one_entry_wants_no_bits(rt: HostRuntime) -> Result<()> {
    assert!(rt; reads_no_bits(rt.alloc())?);
    Ok(())
}

// The keys of three rows of this one page are refused.
fn refuses_page(alloc: Global, page: Result<Page>, want: Error) -> Result<bool> {
    let mut pages = Vec::new(alloc);
    pages.push(page)?;
    let reader = reader(alloc, pages, false, 3, false)?;
    Ok(refuses(reader, want))
}

#[test]
fn an_index_past_the_entries_is_refused(rt: HostRuntime) -> Result<()> {
    let alloc = rt.alloc();
    let page = indices(alloc, Place::Optional, 3, PAST);
    assert!(rt; refuses_page(alloc, page, Error::OutOfSpec(S::S6))?);
    Ok(())
}

#[test]
fn plain_values_are_not_read(rt: HostRuntime) -> Result<()> {
    let alloc = rt.alloc();
    let page = page(
        alloc,
        PhysicalType::ByteArray,
        Place::Optional,
        3,
        Form::Plain,
        TEXTS,
    );
    assert!(rt; refuses_page(alloc, page, Error::NotYetImplemented(N::N4))?);
    Ok(())
}

fn refuses_second(alloc: Global) -> Result<bool> {
    let pages = entries(alloc, KEYS, 3)?;
    let reader = reader(alloc, pages, false, 3, false)?;
    Ok(refuses(reader, Error::OutOfSpec(S::S3)))
}

#[test]
fn a_second_dictionary_is_refused(rt: HostRuntime) -> Result<()> {
    assert!(rt; refuses_second(rt.alloc())?);
    Ok(())
}
