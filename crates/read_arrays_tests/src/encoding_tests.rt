//! Arrays of required fields from a page of indices and from pages of deltas (Parquet format, Encodings).
use crate::fields::{field, open_one};
use crate::pages::{Form, Place, entries, leaf, page};
use assembly::ArrayIter;
use columns_array::ArrayBox;
use columns_base::{Error, PhysicalType, Result, S};
use columns_core::DataType;
use pq_pages::{Page, VecPages};
use pq_tree::Repetition;
use std::alloc::Global;

// 7, 5, 3, 1, 2, 3, 4, 5: the first number, and one block with the least delta -2, whose first miniblock has two bits a delta.
const NUMBERS: &[u8] = &[0x80, 1, 4, 8, 0x0E, 3, 2, 0, 0, 0, 0xC0, 0x3F];

// The lengths 5, 5, 6, 6, and the bytes of four texts.
const TEXTS: &[u8] =
    b"\x80\x01\x04\x04\x0A\x00\x01\x00\x00\x00\x02\x00\x00\x00HelloWorldFoobarABCDEF";

// The arrays of a required field of one column.
fn open(
    alloc: Global,
    pages: Vec<Result<Page>>,
    data_type: DataType,
    physical_type: PhysicalType,
    rows: usize,
) -> Result<ArrayIter<VecPages>> {
    let field = field(alloc, "a", data_type, false)?;
    let leaf = leaf(alloc, Repetition::Required, physical_type);
    open_one(alloc, pages, leaf, field, None, rows)
}

// Texts with these offsets and bytes.
fn are_texts(item: Option<Result<ArrayBox>>, offsets: &[i32], content: &[u8]) -> bool {
    match item {
        Some(Ok(ArrayBox::Utf8(array))) => {
            array.offsets().buffer() == offsets && array.values() == content
        }
        _ => false,
    }
}

// The pages, and a last one in this encoding, are one array of texts.
fn gives_texts(
    alloc: Global,
    mut pages: Vec<Result<Page>>,
    last: (u8, Form, &[u8]),
    offsets: &[i32],
    content: &[u8],
) -> Result<bool> {
    let (rows, form, body) = last;
    let bytes = PhysicalType::ByteArray;
    pages.push(page(alloc, bytes, Place::Required, rows, form, body))?;
    let rows = usize::from(rows);
    let mut arrays = open(alloc, pages, DataType::Utf8, bytes, rows)?;
    Ok(are_texts(arrays.next(), offsets, content) && arrays.next().is_none())
}

#[test]
fn the_indices_of_one_entry_want_no_bits(rt: HostRuntime) -> Result<()> {
    let alloc = rt.alloc();
    let pages = entries(alloc, &[1, 0, 0, 0, 97], 1)?;
    assert!(rt;
        gives_texts(
            alloc,
            pages,
            (3, Form::Indices, &[0]),
            &[0, 1, 2, 3],
            b"aaa"
        )?
    );
    Ok(())
}

#[test]
fn lengths_are_deltas(rt: HostRuntime) -> Result<()> {
    let alloc = rt.alloc();
    let last = (4, Form::Lengths, TEXTS);
    let offsets = &[0, 5, 10, 16, 22];
    assert!(rt;
        gives_texts(
            alloc,
            Vec::new(alloc),
            last,
            offsets,
            b"HelloWorldFoobarABCDEF"
        )?
    );
    Ok(())
}

// What comes first of a page of eight numbers in this encoding.
fn read(alloc: Global, form: Form, body: &[u8]) -> Result<Option<Result<ArrayBox>>> {
    let int32 = PhysicalType::Int32;
    let mut pages = Vec::new(alloc);
    pages.push(page(alloc, int32, Place::Required, 8, form, body))?;
    let mut arrays = open(alloc, pages, DataType::Int32, int32, 8)?;
    Ok(arrays.next())
}

fn are_numbers(item: Option<Result<ArrayBox>>, want: &[i32]) -> bool {
    match item {
        Some(Ok(ArrayBox::Int32(array))) => array.values() == want && array.null_count() == 0,
        _ => false,
    }
}

fn is_cut(item: Option<Result<ArrayBox>>) -> bool {
    match item {
        Some(Err(error)) => error == Error::OutOfSpec(S::S6),
        _ => false,
    }
}

#[test]
fn numbers_are_deltas(rt: HostRuntime) -> Result<()> {
    let alloc = rt.alloc();
    let numbers = &[7, 5, 3, 1, 2, 3, 4, 5];
    assert!(rt; are_numbers(read(alloc, Form::Deltas, NUMBERS)?, numbers));
    assert!(rt; is_cut(read(alloc, Form::Deltas, &NUMBERS[..11])?));
    assert!(rt; is_cut(read(alloc, Form::Plain, &[0; 31])?));
    Ok(())
}
