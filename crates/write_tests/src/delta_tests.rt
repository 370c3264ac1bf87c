//! Pages of deltas (Parquet format, Encodings, "Delta Encoding" and "Delta-length byte array"), by hand: blocks of 128 in 4 whole miniblocks of the
//! least widths.
use crate::fields;
use crate::one_column::leaf;
use crate::options::V2;
use columns_array::ArrayBox;
use columns_base::{A, Error, N, PhysicalType, Result};
use columns_core::{Bitmap, DataType, OffsetsBuffer};
use columns_leaf::{PrimitiveArray, Utf8Array};
use levels::Nested;
use pq_pages::Page;
use pq_tree::{Encoding, PrimitiveType, Repetition};
use std::alloc::Global;
use write_pages::{PageIter, array_to_pages};

/// A first number 7 and the differences -2, -2, -2, 1, 1, 1, 1, of which the least is -2: 0, 0, 0, 3, 3, 3, 3 in two bits each.
const NUMBERS: &[u8] = &[
    0x80, 1, 4, 8, 0x0e, 3, 2, 0, 0, 0, 0xc0, 0x3f, 0, 0, 0, 0, 0, 0,
];

/// The lengths 5, 5, 6, 6, whose differences are 0, 1, 0 in a bit each, and the texts.
const TEXTS: &[u8] =
    b"\x80\x01\x04\x04\x0a\x00\x01\x00\x00\x00\x02\x00\x00\x00HelloWorldFoobarABCDEF";

/// Definition levels 1, 0, 1, 0, 1, 1 in a packed run, and 10, 20, 30, 40, whose differences are all 10.
const SOME: &[u8] = &[3, 0b11_0101, 0x80, 1, 4, 4, 0x14, 0x14, 0, 0, 0, 0];

fn numbers(alloc: Global) -> Result<ArrayBox> {
    fields::numbers(alloc, &[7, 5, 3, 1, 2, 3, 4, 5], None)
}

// 10, null, 20, null, 30, 40. Beneath the nulls stand other numbers.
fn optional_numbers(alloc: Global) -> Result<ArrayBox> {
    let values = [10, 99, 20, -99, 30, 40].as_slice().to_vec(alloc)?;
    let mask = Bitmap::from_slice(alloc, &THERE)?;
    Ok(ArrayBox::Int64(PrimitiveArray::try_new(alloc, DataType::Int64, values, Some(mask))?))
}

const THERE: [bool; 6] = [true, false, true, false, true, true];

fn texts(alloc: Global) -> Result<ArrayBox> {
    let offsets = OffsetsBuffer::try_from_vec([0, 5, 10, 16, 22].as_slice().to_vec(alloc)?)?;
    let values = b"HelloWorldFoobarABCDEF".as_slice().to_vec(alloc)?;
    Ok(ArrayBox::Utf8(Utf8Array::try_new(alloc, DataType::Utf8, offsets, values, None)?))
}

// The path of a required leaf, or of one with these nulls.
fn flat(alloc: Global, there: &[bool], count: usize) -> Result<Vec<Nested>> {
    let mut path = Vec::new(alloc);
    if there.is_empty() {
        path.push(Nested::Primitive(None, false, count))?;
    } else {
        let mask = Bitmap::from_slice(alloc, there)?;
        path.push(Nested::Primitive(Some(mask), true, count))?;
    }
    Ok(path)
}

fn pages(
    alloc: Global,
    array: &ArrayBox,
    type_: PrimitiveType,
    path: &[Nested],
    encoding: Encoding,
) -> Result<PageIter> {
    // a path of a schema is no deeper
    if path.len() > 128 {
        return Err(Error::InvalidArgumentError(A::A8));
    }
    array_to_pages(alloc, array, type_, path, V2, encoding)
}

// Whether the next page has this encoding and this body.
fn page_is(pages: &mut PageIter, encoding: Encoding, body: &[u8]) -> Result<bool> {
    match pages.next_page() {
        Some(Ok(Page::Data(page))) => Ok(page.encoding() == encoding && page.buffer() == body),
        Some(Err(error)) => Err(error),
        _ => Ok(false),
    }
}

#[test]
fn numbers_are_written(rt: HostRuntime) -> Result<()> {
    let alloc = rt.alloc();
    let encoding = Encoding::DeltaBinaryPacked;
    let type_ = leaf(alloc, Repetition::Required, PhysicalType::Int32)?;
    let path = flat(alloc, &[], 8)?;
    let mut pages = pages(alloc, &numbers(alloc)?, type_, &path, encoding)?;
    assert!(rt; pages.encoding() == encoding);
    assert!(rt; page_is(&mut pages, encoding, NUMBERS)?);
    Ok(())
}

#[test]
fn texts_are_written(rt: HostRuntime) -> Result<()> {
    let alloc = rt.alloc();
    let encoding = Encoding::DeltaLengthByteArray;
    let type_ = leaf(alloc, Repetition::Required, PhysicalType::ByteArray)?;
    let path = flat(alloc, &[], 4)?;
    let mut pages = pages(alloc, &texts(alloc)?, type_, &path, encoding)?;
    assert!(rt; page_is(&mut pages, encoding, TEXTS)?);
    Ok(())
}

#[test]
fn only_numbers_that_are_there_are_written(rt: HostRuntime) -> Result<()> {
    let alloc = rt.alloc();
    let encoding = Encoding::DeltaBinaryPacked;
    let type_ = leaf(alloc, Repetition::Optional, PhysicalType::Int64)?;
    let path = flat(alloc, &THERE, 6)?;
    let mut pages = pages(alloc, &optional_numbers(alloc)?, type_, &path, encoding)?;
    assert!(rt; page_is(&mut pages, encoding, SOME)?);
    Ok(())
}

fn is_refused(alloc: Global, encoding: Encoding) -> Result<bool> {
    let type_ = leaf(alloc, Repetition::Required, PhysicalType::Int32)?;
    let path = flat(alloc, &[], 8)?;
    let refused = pages(alloc, &numbers(alloc)?, type_, &path, encoding);
    Ok(refused.is_err_and(|e| e == Error::NotYetImplemented(N::N4)))
}

#[test]
fn numbers_have_no_other_encoding(rt: HostRuntime) -> Result<()> {
    let alloc = rt.alloc();
    assert!(rt; is_refused(alloc, Encoding::DeltaLengthByteArray)?);
    assert!(rt; is_refused(alloc, Encoding::DeltaByteArray)?);
    assert!(rt; is_refused(alloc, Encoding::RleDictionary)?);
    Ok(())
}

// A struct of one field, of which the second is null.
#[test]
fn what_is_nested_stays_plain(rt: HostRuntime) -> Result<()> {
    let alloc = rt.alloc();
    let array = fields::numbers(alloc, &[1, 2], None)?;
    let mut path = Vec::new(alloc);
    path.push(Nested::Struct(Some(Bitmap::from_slice(alloc, &[true, false])?), true, 2))?;
    path.push(Nested::Primitive(None, false, 2))?;
    let type_ = leaf(alloc, Repetition::Required, PhysicalType::Int32)?;
    let mut pages = pages(alloc, &array, type_, &path, Encoding::DeltaBinaryPacked)?;
    assert!(rt; pages.encoding() == Encoding::Plain);
    assert!(rt; page_is(&mut pages, Encoding::Plain, &[3, 0b01, 1, 0, 0, 0])?);
    Ok(())
}
