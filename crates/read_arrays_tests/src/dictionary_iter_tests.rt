//! Three rows in pieces of two, by keys of 32 bits.
use crate::keys::{TWO, has_entries};
use crate::pages::{Form, Place, entries, page};
use columns_array::{ArrayBox, DictionaryArray};
use columns_base::{A, Error, PhysicalType, Result};
use columns_core::{DataType, IntegerType};
use columns_leaf::keys::DictionaryKeys;
use dictionary_iters::{binary, fixed_size_binary, primitive};
use pq_pages::VecPages;
use read_state::{InitNested, NestedState};
use std::alloc::Global;

// The indices 0, 1, 1, packed in a bit each behind their width.
const THREE: &[u8] = &[1, 3, 0b0000_0110];

// "ab" and "cd" in PLAIN, two bytes each.
const CHUNKS: &[u8] = b"abcd";

// 7 and -1 in PLAIN.
const NUMBERS: &[u8] = &[7, 0, 0, 0, 255, 255, 255, 255];

// The dictionary page of two entries, and a page of the indices.
fn pages(alloc: Global, physical_type: PhysicalType, two: &[u8]) -> Result<VecPages> {
    let mut pages = entries(alloc, two, 2)?;
    pages.push(page(
        alloc,
        physical_type,
        Place::Required,
        3,
        Form::Indices,
        THREE,
    ))?;
    Ok(VecPages::new(pages))
}

fn parts(alloc: Global) -> Result<Vec<InitNested>> {
    Ok(Vec::from_slice(alloc, &[InitNested::Primitive(false)])?)
}

fn has_keys(array: &DictionaryArray, want: &[i32]) -> bool {
    match array.keys() {
        DictionaryKeys::Int32(keys) => keys.values() == want && keys.null_count() == 0,
        _ => false,
    }
}

// The entries are the texts, the byte strings of two bytes, or the numbers.
fn are_entries(entries: &ArrayBox) -> bool {
    match entries {
        ArrayBox::FixedSizeBinary(array) => array.len() == 2 && array.values() == CHUNKS,
        ArrayBox::Int32(array) => array.values() == [7, -1].as_slice(),
        _ => has_entries(entries),
    }
}

fn has_both(array: &ArrayBox, keys: &[i32]) -> bool {
    match array {
        ArrayBox::Dictionary(array) => has_keys(array, keys) && are_entries(array.values()),
        _ => false,
    }
}

// A piece with these keys, and both entries.
fn has(item: Option<Result<(NestedState, ArrayBox)>>, keys: &[i32]) -> bool {
    match item {
        Some(Ok((nested, array))) => nested.leaf_len() == keys.len() && has_both(&array, keys),
        _ => false,
    }
}

fn reads_texts(alloc: Global) -> Result<bool> {
    let mut iter = binary::NestedDictIter::<i32, i32, _>::new(
        alloc,
        pages(alloc, PhysicalType::ByteArray, TWO)?,
        parts(alloc)?,
        DataType::Dictionary(IntegerType::Int32, Box::new(alloc, DataType::Utf8)?, false),
        3,
        Some(2),
    )?;
    Ok(
        has(iter.next(), &[0, 1])
            && has(iter.next(), &[1])
            && iter.next().is_none()
            && iter.next().is_none(),
    )
}

fn reads_numbers(alloc: Global) -> Result<bool> {
    let mut iter = primitive::NestedDictIter::<i32, i32, _, i32>::new(
        alloc,
        pages(alloc, PhysicalType::Int32, NUMBERS)?,
        parts(alloc)?,
        DataType::Dictionary(IntegerType::Int32, Box::new(alloc, DataType::Int32)?, false),
        3,
        Some(2),
    )?;
    Ok(has(iter.next(), &[0, 1]) && has(iter.next(), &[1]) && iter.next().is_none())
}

// Byte strings of two bytes, so many rows in a piece.
fn chunks(alloc: Global, size: usize) -> Result<fixed_size_binary::NestedDictIter<i32, VecPages>> {
    fixed_size_binary::NestedDictIter::new(
        alloc,
        pages(alloc, PhysicalType::FixedLenByteArray(2), CHUNKS)?,
        parts(alloc)?,
        DataType::Dictionary(
            IntegerType::Int32,
            Box::new(alloc, DataType::FixedSizeBinary(2))?,
            false,
        ),
        3,
        Some(size),
    )
}

fn reads_chunks(alloc: Global) -> Result<bool> {
    let mut iter = chunks(alloc, 2)?;
    Ok(has(iter.next(), &[0, 1]) && has(iter.next(), &[1]) && iter.next().is_none())
}

// No piece of no rows, here of byte strings of two bytes.
fn refuses_no_rows(alloc: Global) -> bool {
    match chunks(alloc, 0) {
        Ok(_) => false,
        Err(error) => error == Error::InvalidArgumentError(A::A1),
    }
}

#[test]
fn texts_come_by_their_keys(rt: HostRuntime) -> Result<()> {
    assert!(rt; reads_texts(rt.alloc())?);
    Ok(())
}

#[test]
fn numbers_come_by_their_keys(rt: HostRuntime) -> Result<()> {
    assert!(rt; reads_numbers(rt.alloc())?);
    Ok(())
}

#[test]
fn byte_strings_of_one_size_come_by_their_keys(rt: HostRuntime) -> Result<()> {
    assert!(rt; reads_chunks(rt.alloc())?);
    Ok(())
}

#[test]
fn pieces_of_no_rows_are_refused(rt: HostRuntime) -> Result<()> {
    assert!(rt; refuses_no_rows(rt.alloc()));
    Ok(())
}
