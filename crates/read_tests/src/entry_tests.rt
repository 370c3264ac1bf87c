//! A column of 8-bit numbers by a dictionary.
use crate::pages::{Form, Place, page};
use columns_base::{Error, PhysicalType, Result, S};
use pq_pages::{DictPage, Page, VecPages};
use read_column::ColumnReader;
use read_state::InitNested;
use read_types::Numbers;
use std::alloc::Global;

// 10, 20, 30 (Parquet format, Encodings, "Plain").
const ENTRIES: &[u8] = &[10, 0, 0, 0, 20, 0, 0, 0, 30, 0, 0, 0];

// 10, 20, 300: the last is no number of eight bits.
const OUTSIDE: &[u8] = &[10, 0, 0, 0, 20, 0, 0, 0, 44, 1, 0, 0];

// 10, null, 30, 30, 20: definition levels behind their length, and the indices 0, 2, 2, 1, packed in two bits each.
const PACKED: &[u8] = &[2, 0, 0, 0, 3, 0b0001_1101, 2, 3, 0b0110_1000, 0];

// 20, 20, 20: a run of three levels, and one of three indices.
const REPEATED: &[u8] = &[2, 0, 0, 0, 6, 1, 2, 6, 1];

// 1, 2, 3 in PLAIN.
const PLAIN: &[u8] = &[2, 0, 0, 0, 6, 1, 1, 0, 0, 0, 2, 0, 0, 0, 3, 0, 0, 0];

// The index 3, three times.
const PAST: &[u8] = &[2, 0, 0, 0, 6, 1, 2, 6, 3];

// Three indices of no bits, of a column without levels.
const NO_BITS: &[u8] = &[0];

fn entries(alloc: Global, count: usize, body: &[u8]) -> Result<Page> {
    Ok(Page::Dict(DictPage::new(Vec::from_slice(alloc, body)?, count, false)))
}

// The reader of so many rows, in one piece.
fn reader(
    alloc: Global,
    pages: Vec<Result<Page>>,
    is_required: bool,
    rows: usize,
) -> Result<ColumnReader<VecPages, Numbers<i8, i32>>> {
    let mut parts = Vec::new(alloc);
    parts.push(InitNested::Primitive(!is_required))?;
    ColumnReader::new(
        alloc,
        &Numbers::new(),
        VecPages::new(pages),
        PhysicalType::Int32,
        parts,
        None,
        rows,
    )
}

// The one piece has these numbers, 0 in the place of nulls, and so many nulls.
fn gives(mut reader: ColumnReader<VecPages, Numbers<i8, i32>>, want: &[i8], nulls: usize) -> bool {
    match reader.next_piece(&Numbers::new()) {
        Some(Ok((_, values))) => {
            let (numbers, validity) = values.into_parts();
            match validity.into_bitmap() {
                Ok(mask) => numbers.as_slice() == want && mask.unset_bits() == nulls,
                Err(_) => false,
            }
        }
        _ => false,
    }
}

fn reads_indices(alloc: Global) -> Result<bool> {
    let mut pages = Vec::new(alloc);
    pages.push(entries(alloc, 3, ENTRIES))?;
    pages.push(page(alloc, Place::Optional, 5, Form::Indices, PACKED))?;
    pages.push(page(alloc, Place::Optional, 3, Form::OldIndices, REPEATED))?;
    let reader = reader(alloc, pages, false, 8)?;
    Ok(gives(reader, &[10, 0, 30, 30, 20, 20, 20, 20], 1))
}

fn falls_back(alloc: Global) -> Result<bool> {
    let mut pages = Vec::new(alloc);
    pages.push(entries(alloc, 3, ENTRIES))?;
    pages.push(page(alloc, Place::Optional, 3, Form::Indices, REPEATED))?;
    pages.push(page(alloc, Place::Optional, 3, Form::Plain, PLAIN))?;
    let reader = reader(alloc, pages, false, 6)?;
    Ok(gives(reader, &[20, 20, 20, 1, 2, 3], 0))
}

fn reads_no_bits(alloc: Global) -> Result<bool> {
    let mut pages = Vec::new(alloc);
    pages.push(entries(alloc, 1, ENTRIES))?;
    pages.push(page(alloc, Place::Required, 3, Form::Indices, NO_BITS))?;
    let reader = reader(alloc, pages, true, 3)?;
    Ok(gives(reader, &[10, 10, 10], 0))
}

#[test]
fn entries_stand_for_indices(rt: HostRuntime) -> Result<()> {
    assert!(rt; reads_indices(rt.alloc())?);
    assert!(rt; falls_back(rt.alloc())?);
    assert!(rt; reads_no_bits(rt.alloc())?);
    Ok(())
}

fn refuses(mut reader: ColumnReader<VecPages, Numbers<i8, i32>>, want: Error) -> bool {
    match reader.next_piece(&Numbers::new()) {
        Some(Err(error)) => error == want,
        _ => false,
    }
}

// A dictionary page of so many entries, and a page of three values.
fn refuses_page(
    alloc: Global,
    count: usize,
    body: &[u8],
    values: &[u8],
    want: Error,
) -> Result<bool> {
    let mut pages = Vec::new(alloc);
    pages.push(entries(alloc, count, body))?;
    pages.push(page(alloc, Place::Optional, 3, Form::Indices, values))?;
    let reader = reader(alloc, pages, false, 3)?;
    Ok(refuses(reader, want))
}

fn refuses_none(alloc: Global) -> Result<bool> {
    let mut pages = Vec::new(alloc);
    pages.push(page(alloc, Place::Optional, 3, Form::Indices, REPEATED))?;
    let reader = reader(alloc, pages, false, 3)?;
    Ok(refuses(reader, Error::OutOfSpec(S::S3)))
}

fn refuses_second(alloc: Global) -> Result<bool> {
    let mut pages = Vec::new(alloc);
    pages.push(entries(alloc, 3, ENTRIES))?;
    pages.push(entries(alloc, 3, ENTRIES))?;
    pages.push(page(alloc, Place::Optional, 3, Form::Indices, REPEATED))?;
    let reader = reader(alloc, pages, false, 3)?;
    Ok(refuses(reader, Error::OutOfSpec(S::S3)))
}

#[test]
fn faults_of_dictionaries_are_told(rt: HostRuntime) -> Result<()> {
    let alloc = rt.alloc();
    assert!(rt; refuses_page(alloc, 3, ENTRIES, PAST, Error::OutOfSpec(S::S6))?);
    // a cut body, and an entry that no index names
    assert!(rt; refuses_page(alloc, 3, &ENTRIES[..11], REPEATED, Error::OutOfSpec(S::S6))?);
    assert!(rt; refuses_page(alloc, 3, OUTSIDE, REPEATED, Error::OutOfSpec(S::S7))?);
    assert!(rt; refuses_none(alloc)?);
    assert!(rt; refuses_second(alloc)?);
    Ok(())
}
