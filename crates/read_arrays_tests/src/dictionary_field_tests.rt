//! Fields with dictionary types, from the pages of their columns (Parquet format, "Dictionary Page", Encodings).
use crate::fields::{field, open_one};
use crate::keys::{LISTS, PACKED, REPEATED, TWO, indices, is_of, keyed};
use crate::pages::{Place, entries, leaf};
use assembly::ArrayIter;
use columns_array::ArrayBox;
use columns_base::{Error, N, PhysicalType, Result, V};
use columns_core::{DataType, Field};
use pq_pages::{Page, VecPages};
use pq_tree::Repetition;
use std::alloc::Global;

// A field of the texts by keys.
fn texts(alloc: Global) -> Result<Field> {
    field(alloc, "d", keyed(alloc, DataType::Utf8)?, true)
}

fn list(alloc: Global, item: DataType) -> Result<Field> {
    let item = field(alloc, "d", item, false)?;
    field(alloc, "d", DataType::List(Box::new(alloc, item)?), false)
}

// The arrays of a field of one column.
fn open(
    alloc: Global,
    pages: Vec<Result<Page>>,
    field: Field,
    physical_type: PhysicalType,
    chunk_size: Option<usize>,
    rows: usize,
) -> Result<ArrayIter<VecPages>> {
    let leaf = leaf(alloc, Repetition::Optional, physical_type);
    open_one(alloc, pages, leaf, field, chunk_size, rows)
}

// The next array is such a one.
fn gives(arrays: &mut ArrayIter<VecPages>, keys: &[i8], nulls: usize) -> bool {
    match arrays.next() {
        Some(Ok(array)) => is_of(&array, keys, nulls),
        _ => false,
    }
}

// Two pages of eight rows, in arrays of six and two; each has all entries. Then nothing is left.
fn reads_two_pages(alloc: Global) -> Result<bool> {
    let mut pages = entries(alloc, TWO, 2)?;
    pages.push(indices(alloc, Place::Optional, 5, PACKED))?;
    pages.push(indices(alloc, Place::Optional, 3, REPEATED))?;
    let field = texts(alloc)?;
    let mut arrays = open(alloc, pages, field, PhysicalType::ByteArray, Some(6), 8)?;
    Ok(
        gives(&mut arrays, &[0, 0, 1, 1, 0, 1], 1)
            && gives(&mut arrays, &[1, 1], 0)
            && arrays.next().is_none(),
    )
}

// The next array is of the lists [0, 1], [], [1].
fn gives_lists(arrays: &mut ArrayIter<VecPages>) -> bool {
    match arrays.next() {
        Some(Ok(ArrayBox::List(list))) => {
            list.offsets().buffer() == [0, 2, 2, 3].as_slice()
                && list.null_count() == 0
                && is_of(list.values(), &[0, 1, 1], 0)
        }
        _ => false,
    }
}

fn reads_lists(alloc: Global) -> Result<bool> {
    let mut pages = entries(alloc, TWO, 2)?;
    pages.push(indices(alloc, Place::Items, 4, LISTS))?;
    let field = list(alloc, keyed(alloc, DataType::Utf8)?)?;
    let mut arrays = open(alloc, pages, field, PhysicalType::ByteArray, None, 3)?;
    Ok(gives_lists(&mut arrays) && arrays.next().is_none())
}

// Keys of 8 bits with a sign number 128 entries.
fn refuses_many_entries(alloc: Global) -> Result<bool> {
    let mut body = Vec::new(alloc);
    body.resize(516, 0)?;
    let mut pages = entries(alloc, &body, 129)?;
    pages.push(indices(alloc, Place::Optional, 3, REPEATED))?;
    let field = texts(alloc)?;
    let mut arrays = open(alloc, pages, field, PhysicalType::ByteArray, None, 3)?;
    Ok(match arrays.next() {
        Some(Err(error)) => error == Error::Overflow(V::V2),
        _ => false,
    })
}

// The field is not read under this physical type.
fn is_unread(alloc: Global, field: Field, physical_type: PhysicalType) -> bool {
    match open(alloc, Vec::new(alloc), field, physical_type, None, 0) {
        Ok(_) => false,
        Err(error) => error == Error::NotYetImplemented(N::N5),
    }
}

#[test]
fn dictionaries_are_assembled(rt: HostRuntime) -> Result<()> {
    assert!(rt; reads_two_pages(rt.alloc())?);
    Ok(())
}

#[test]
fn lists_of_dictionaries_are_assembled(rt: HostRuntime) -> Result<()> {
    assert!(rt; reads_lists(rt.alloc())?);
    Ok(())
}

#[test]
fn more_entries_than_keys_are_refused(rt: HostRuntime) -> Result<()> {
    assert!(rt; refuses_many_entries(rt.alloc())?);
    Ok(())
}

// Entries of this type by keys are not read under this physical type.
fn are_unread(alloc: Global, entries: DataType, physical_type: PhysicalType) -> Result<bool> {
    let field = field(alloc, "d", keyed(alloc, entries)?, true)?;
    Ok(is_unread(alloc, field, physical_type))
}

// Nor are lists of wide numbers by keys.
fn lists_are_unread(alloc: Global) -> Result<bool> {
    let numbers = list(alloc, keyed(alloc, DataType::UInt64)?)?;
    Ok(is_unread(alloc, numbers, PhysicalType::Int64))
}

#[test]
fn other_entries_are_not_read(rt: HostRuntime) -> Result<()> {
    let alloc = rt.alloc();
    assert!(rt; are_unread(alloc, DataType::Boolean, PhysicalType::Boolean)?);
    assert!(rt; are_unread(alloc, DataType::Utf8, PhysicalType::Int32)?);
    assert!(rt; lists_are_unread(alloc)?);
    Ok(())
}

#[test]
fn entries_with_parts_are_not_read(rt: HostRuntime) -> Result<()> {
    let alloc = rt.alloc();
    let item = list(alloc, DataType::Int32)?;
    assert!(rt; are_unread(alloc, item.data_type, PhysicalType::Int32)?);
    Ok(())
}
