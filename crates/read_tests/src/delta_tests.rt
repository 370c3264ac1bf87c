//! Columns of deltas (Parquet format, Encodings, "Delta Encoding" and "Delta-length byte array").
use crate::pages::{Form, Place, page};
use columns_base::{Error, N, PhysicalType, Result, S};
use pq_pages::VecPages;
use read_column::ColumnReader;
use read_leaf::Text;
use read_state::InitNested;
use read_types::{Numbers, Strings};
use std::alloc::Global;

// 7, 5, 3, 1, 2, 3, 4, 5: the first number, and one block with the least delta -2, whose first miniblock has two bits a delta.
const NUMBERS: &[u8] = &[0x80, 1, 4, 8, 0x0E, 3, 2, 0, 0, 0, 0xC0, 0x3F];

// The levels 1, 0, 1, 1, 0 behind their length, and 7, 5, 3.
const SOME: &[u8] = &[
    2,
    0,
    0,
    0,
    3,
    0b0000_1101,
    0x80,
    1,
    4,
    3,
    0x0E,
    3,
    0,
    0,
    0,
    0,
];

// The same levels, but a number for each of them: 7, 5, 3, 1, -1.
const ONE_EACH: &[u8] = &[
    2,
    0,
    0,
    0,
    3,
    0b0000_1101,
    0x80,
    1,
    4,
    5,
    0x0E,
    3,
    0,
    0,
    0,
    0,
];

// No levels behind their length.
const NO_LEVELS: &[u8] = &[0, 0, 0, 0, 0x80, 1, 4, 3, 0x0E, 3, 0, 0, 0, 0];

// The lengths 5, 5, 6, 6, and the bytes of four texts.
const TEXTS: &[u8] =
    b"\x80\x01\x04\x04\x0A\x00\x01\x00\x00\x00\x02\x00\x00\x00HelloWorldFoobarABCDEF";

// 1, 2, 3, 4 in PLAIN.
const PLAIN: &[u8] = &[1, 0, 0, 0, 2, 0, 0, 0, 3, 0, 0, 0, 4, 0, 0, 0];

fn leaf(alloc: Global, is_required: bool) -> Result<Vec<InitNested>> {
    let mut parts = Vec::new(alloc);
    parts.push(InitNested::Primitive(!is_required))?;
    Ok(parts)
}

// The reader of a required column of 32 bits, of a page of eight numbers and one of four in PLAIN.
fn small_reader(
    alloc: Global,
    form: Form,
    body: &[u8],
) -> Result<ColumnReader<VecPages, Numbers<i32, i32>>> {
    let mut pages = Vec::new(alloc);
    pages.push(page(alloc, Place::Required, 8, form, body))?;
    pages.push(page(alloc, Place::Required, 4, Form::Plain, PLAIN))?;
    let parts = leaf(alloc, true)?;
    ColumnReader::new(
        alloc,
        &Numbers::new(),
        VecPages::new(pages),
        PhysicalType::Int32,
        parts,
        None,
        12,
    )
}

fn gives_small(mut reader: ColumnReader<VecPages, Numbers<i32, i32>>, want: &[i32]) -> bool {
    match reader.next_piece(&Numbers::new()) {
        Some(Ok((_, values))) => values.into_parts().0.as_slice() == want,
        _ => false,
    }
}

fn refuses_small(mut reader: ColumnReader<VecPages, Numbers<i32, i32>>, want: Error) -> bool {
    match reader.next_piece(&Numbers::new()) {
        Some(Err(error)) => error == want,
        _ => false,
    }
}

fn reads_numbers(alloc: Global, want: &[i32]) -> Result<bool> {
    let reader = small_reader(alloc, Form::Deltas, NUMBERS)?;
    Ok(gives_small(reader, want))
}

fn refuses_numbers(alloc: Global, form: Form, body: &[u8], want: Error) -> Result<bool> {
    let reader = small_reader(alloc, form, body)?;
    Ok(refuses_small(reader, want))
}

#[test]
fn required_numbers_are_read(rt: HostRuntime) -> Result<()> {
    let alloc = rt.alloc();
    assert!(rt; reads_numbers(alloc, &[7, 5, 3, 1, 2, 3, 4, 5, 1, 2, 3, 4])?);
    // the last byte is cut, four bytes for each number but one byte, and an encoding of strings
    assert!(rt; refuses_numbers(alloc, Form::Deltas, &NUMBERS[..11], Error::OutOfSpec(S::S6))?);
    assert!(rt; refuses_numbers(alloc, Form::Plain, &[0; 31], Error::OutOfSpec(S::S6))?);
    assert!(rt;
        refuses_numbers(
            alloc,
            Form::Lengths,
            NUMBERS,
            Error::NotYetImplemented(N::N4)
        )?
    );
    Ok(())
}

// The reader of five rows of an optional column of 64 bits.
fn wide_reader(alloc: Global, body: &[u8]) -> Result<ColumnReader<VecPages, Numbers<i64, i64>>> {
    let mut pages = Vec::new(alloc);
    pages.push(page(alloc, Place::Optional, 5, Form::Deltas, body))?;
    let parts = leaf(alloc, false)?;
    ColumnReader::new(
        alloc,
        &Numbers::new(),
        VecPages::new(pages),
        PhysicalType::Int64,
        parts,
        None,
        5,
    )
}

// The one piece has these numbers, 0 in the place of nulls, and so many nulls.
fn gives_wide(
    mut reader: ColumnReader<VecPages, Numbers<i64, i64>>,
    want: &[i64],
    nulls: usize,
) -> bool {
    match reader.next_piece(&Numbers::new()) {
        Some(Ok((_, values))) => {
            let (numbers, validity) = values.into_parts();
            match validity.into_bitmap() {
                Ok(mask) => numbers.as_slice() == want && mask.unset_bits() == nulls,
                Err(_) => false,
            }
        }
        _ => false,
    }
}

fn refuses_wide(mut reader: ColumnReader<VecPages, Numbers<i64, i64>>, want: Error) -> bool {
    match reader.next_piece(&Numbers::new()) {
        Some(Err(error)) => error == want,
        _ => false,
    }
}

fn reads_some(alloc: Global) -> Result<bool> {
    let reader = wide_reader(alloc, SOME)?;
    Ok(gives_wide(reader, &[7, 0, 5, 3, 0], 2))
}

fn refuses_some(alloc: Global, body: &[u8], want: Error) -> Result<bool> {
    let reader = wide_reader(alloc, body)?;
    Ok(refuses_wide(reader, want))
}

#[test]
fn nulls_have_no_delta(rt: HostRuntime) -> Result<()> {
    let alloc = rt.alloc();
    assert!(rt; reads_some(alloc)?);
    // a number for each null too, and levels that cannot be read
    assert!(rt; refuses_some(alloc, ONE_EACH, Error::OutOfSpec(S::S6))?);
    assert!(rt; refuses_some(alloc, NO_LEVELS, Error::OutOfSpec(S::S4))?);
    Ok(())
}

// The reader of a required column of so many texts, in pieces of one.
fn text_reader(
    alloc: Global,
    pairs: u8,
    body: &[u8],
) -> Result<ColumnReader<VecPages, Strings<i32, Text>>> {
    let mut pages = Vec::new(alloc);
    pages.push(page(alloc, Place::Required, pairs, Form::Lengths, body))?;
    let parts = leaf(alloc, true)?;
    ColumnReader::new(
        alloc,
        &Strings::new(),
        VecPages::new(pages),
        PhysicalType::ByteArray,
        parts,
        Some(1),
        4,
    )
}

// The next piece is this text.
fn gives_text(reader: &mut ColumnReader<VecPages, Strings<i32, Text>>, want: &[u8]) -> bool {
    match reader.next_piece(&Strings::new()) {
        Some(Ok((_, values))) => values.into_parts().0.values() == want,
        _ => false,
    }
}

fn refuses_texts(mut reader: ColumnReader<VecPages, Strings<i32, Text>>, want: Error) -> bool {
    match reader.next_piece(&Strings::new()) {
        Some(Err(error)) => error == want,
        _ => false,
    }
}

fn reads_texts(alloc: Global, want: &[&[u8]]) -> Result<bool> {
    let mut reader = text_reader(alloc, 4, TEXTS)?;
    let mut are_read = true;
    for text in want {
        are_read = are_read && gives_text(&mut reader, text);
    }
    Ok(are_read)
}

fn refuses_text_page(alloc: Global, pairs: u8, body: &[u8], want: Error) -> Result<bool> {
    let reader = text_reader(alloc, pairs, body)?;
    Ok(refuses_texts(reader, want))
}

#[test]
fn texts_are_read(rt: HostRuntime) -> Result<()> {
    let alloc = rt.alloc();
    assert!(rt; reads_texts(alloc, &[b"Hello", b"World", b"Foobar", b"ABCDEF"])?);
    // the last text is cut, and another number of lengths
    assert!(rt; refuses_text_page(alloc, 4, &TEXTS[..35], Error::OutOfSpec(S::S6))?);
    assert!(rt; refuses_text_page(alloc, 5, TEXTS, Error::OutOfSpec(S::S6))?);
    Ok(())
}

// The column of the numbers of lists: a page of deltas is refused before its levels are read.
fn refuses_list(alloc: Global) -> Result<bool> {
    let mut pages = Vec::new(alloc);
    pages.push(page(alloc, Place::Required, 8, Form::Deltas, NUMBERS))?;
    let mut parts = Vec::new(alloc);
    parts.push(InitNested::List(false))?;
    parts.push(InitNested::Primitive(false))?;
    let reader = ColumnReader::new(
        alloc,
        &Numbers::new(),
        VecPages::new(pages),
        PhysicalType::Int32,
        parts,
        None,
        8,
    )?;
    Ok(refuses_small(reader, Error::NotYetImplemented(N::N4)))
}

#[test]
fn deltas_beneath_a_list_are_not_read(rt: HostRuntime) -> Result<()> {
    assert!(rt; refuses_list(rt.alloc())?);
    Ok(())
}
