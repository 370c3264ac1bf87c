//! A nullable list of nullable numbers, in pages of its own.
use crate::pages::{Form, Place, descriptor, encoding, page};
use columns_base::{Error, N, PhysicalType, Result, S};
use pq_pages::{DataPage, Page, VecPages};
use pq_tree::{DataPageHeader, DataPageHeaderV2};
use read_column::ColumnReader;
use read_state::InitNested;
use read_types::Numbers;
use std::alloc::Global;

// The rows [1, null], null, [], [2]: repetition levels, definition levels and values (Parquet format, "Data Pages" and "Nested Encoding").
const BODY: &[u8] = &[
    2,
    0,
    0,
    0,
    3,
    0b0000_0010,
    3,
    0,
    0,
    0,
    3,
    75,
    3,
    1,
    0,
    0,
    0,
    2,
    0,
    0,
    0,
];

// The same levels, but the first pair repeats.
const GOES_ON: &[u8] = &[
    2,
    0,
    0,
    0,
    3,
    0b0000_0011,
    3,
    0,
    0,
    0,
    3,
    75,
    3,
    1,
    0,
    0,
    0,
    2,
    0,
    0,
    0,
];

// One value is cut.
const CUT: &[u8] = &[
    2,
    0,
    0,
    0,
    3,
    0b0000_0010,
    3,
    0,
    0,
    0,
    3,
    75,
    3,
    1,
    0,
    0,
    0,
    2,
    0,
    0,
];

// The same rows in version 2: the sections of levels stand without their lengths.
const BODY_2: &[u8] = &[3, 0b0000_0010, 3, 75, 3, 1, 0, 0, 0, 2, 0, 0, 0];

const GOES_ON_2: &[u8] = &[3, 0b0000_0011, 3, 75, 3, 1, 0, 0, 0, 2, 0, 0, 0];

// A page of version 2 of five pairs, whose header states so many rows, and whose values stand so.
fn page_2(alloc: Global, form: Form, num_rows: i32, body: &[u8]) -> Result<Page> {
    let header = DataPageHeaderV2 {
        num_values: 5,
        num_nulls: None,
        num_rows,
        encoding: encoding(form),
        definition_levels_byte_length: 3,
        repetition_levels_byte_length: 2,
        is_compressed: None,
        statistics: None,
    };
    let body = Vec::from_slice(alloc, body)?;
    let descriptor = descriptor(alloc, Place::List);
    Ok(Page::Data(DataPage::new(DataPageHeader::V2(header), body, descriptor, None)))
}

// The reader of a page of version 1 in PLAIN and of this one behind it, of so many rows, in pieces of three.
fn reader_of(
    alloc: Global,
    first: &[u8],
    second: Result<Page>,
    rows: usize,
) -> Result<ColumnReader<VecPages, Numbers<i32, i32>>> {
    let mut pages = Vec::new(alloc);
    pages.push(page(alloc, Place::List, 5, Form::Plain, first))?;
    pages.push(second)?;
    let mut parts = Vec::new(alloc);
    parts.push(InitNested::List(true))?;
    parts.push(InitNested::Primitive(true))?;
    ColumnReader::new(
        alloc,
        &Numbers::new(),
        VecPages::new(pages),
        PhysicalType::Int32,
        parts,
        Some(3),
        rows,
    )
}

// The reader of a page of version 1 and one of version 2, of eight rows.
fn reader_2(
    alloc: Global,
    form: Form,
    num_rows: i32,
    body: &[u8],
) -> Result<ColumnReader<VecPages, Numbers<i32, i32>>> {
    reader_of(alloc, BODY, page_2(alloc, form, num_rows, body), 8)
}

// The reader of two pages of version 1, of so many rows.
fn reader(
    alloc: Global,
    form: Form,
    first: &[u8],
    second: &[u8],
    rows: usize,
) -> Result<ColumnReader<VecPages, Numbers<i32, i32>>> {
    reader_of(
        alloc,
        first,
        page(alloc, Place::List, 5, form, second),
        rows,
    )
}

// The next piece's leaf has so many slots.
fn gives(reader: &mut ColumnReader<VecPages, Numbers<i32, i32>>, slots: usize) -> bool {
    match reader.next_piece(&Numbers::new()) {
        Some(Ok((nested, values))) => nested.leaf_len() == slots && values.len() == slots,
        _ => false,
    }
}

// Nothing more comes.
fn ends(reader: &mut ColumnReader<VecPages, Numbers<i32, i32>>) -> bool {
    match reader.next_piece(&Numbers::new()) {
        None => true,
        Some(_) => false,
    }
}

fn reads_pieces(alloc: Global) -> Result<bool> {
    let mut reader = reader(alloc, Form::Plain, BODY, BODY, 8)?;
    // [1, null], null, []; [2], [1, null], null; [], [2]
    Ok(gives(&mut reader, 2) && gives(&mut reader, 3) && gives(&mut reader, 1) && ends(&mut reader))
}

fn reads_version_2(alloc: Global) -> Result<bool> {
    let mut reader = reader_2(alloc, Form::Plain, 4, BODY_2)?;
    Ok(gives(&mut reader, 2) && gives(&mut reader, 3) && gives(&mut reader, 1) && ends(&mut reader))
}

#[test]
fn pieces_go_over_pages(rt: HostRuntime) -> Result<()> {
    assert!(rt; reads_pieces(rt.alloc())?);
    assert!(rt; reads_version_2(rt.alloc())?);
    Ok(())
}

// The first error, behind the pieces.
fn refuses(reader: &mut ColumnReader<VecPages, Numbers<i32, i32>>, want: Error) -> bool {
    for _ in 0..4 {
        match reader.next_piece(&Numbers::new()) {
            Some(Ok(_)) => {}
            Some(Err(error)) => return error == want,
            None => return false,
        }
    }
    false
}

fn refuses_pages(
    alloc: Global,
    form: Form,
    first: &[u8],
    second: &[u8],
    rows: usize,
    want: Error,
) -> Result<bool> {
    let mut reader = reader(alloc, form, first, second, rows)?;
    Ok(refuses(&mut reader, want))
}

#[test]
fn faults_are_told(rt: HostRuntime) -> Result<()> {
    let alloc = rt.alloc();
    // the group says one row more, or one less
    assert!(rt; refuses_pages(alloc, Form::Plain, BODY, BODY, 9, Error::OutOfSpec(S::S9))?);
    assert!(rt; refuses_pages(alloc, Form::Plain, BODY, BODY, 7, Error::OutOfSpec(S::S9))?);
    assert!(rt;
        refuses_pages(
            alloc,
            Form::Plain,
            GOES_ON,
            BODY,
            8,
            Error::OutOfSpec(S::S5)
        )?
    );
    assert!(rt;
        refuses_pages(
            alloc,
            Form::Plain,
            BODY,
            GOES_ON,
            8,
            Error::NotYetImplemented(N::N8)
        )?
    );
    assert!(rt; refuses_pages(alloc, Form::Plain, BODY, CUT, 8, Error::OutOfSpec(S::S6))?);
    assert!(rt;
        refuses_pages(
            alloc,
            Form::Deltas,
            BODY,
            BODY,
            8,
            Error::NotYetImplemented(N::N4)
        )?
    );
    Ok(())
}

fn refuses_version_2(
    alloc: Global,
    form: Form,
    num_rows: i32,
    body: &[u8],
    want: Error,
) -> Result<bool> {
    let mut reader = reader_2(alloc, form, num_rows, body)?;
    Ok(refuses(&mut reader, want))
}

#[test]
fn faults_of_version_2_are_told(rt: HostRuntime) -> Result<()> {
    let alloc = rt.alloc();
    // the header says one row more, one less, or less than none
    assert!(rt; refuses_version_2(alloc, Form::Plain, 5, BODY_2, Error::OutOfSpec(S::S9))?);
    assert!(rt; refuses_version_2(alloc, Form::Plain, 3, BODY_2, Error::OutOfSpec(S::S9))?);
    assert!(rt; refuses_version_2(alloc, Form::Plain, -4, BODY_2, Error::OutOfSpec(S::S9))?);
    // also behind the column's first page
    assert!(rt; refuses_version_2(alloc, Form::Plain, 3, GOES_ON_2, Error::OutOfSpec(S::S5))?);
    // a section of levels outside of the body
    assert!(rt; refuses_version_2(alloc, Form::Plain, 4, &BODY_2[..4], Error::OutOfSpec(S::S4))?);
    assert!(rt;
        refuses_version_2(
            alloc,
            Form::Deltas,
            4,
            BODY_2,
            Error::NotYetImplemented(N::N4)
        )?
    );
    Ok(())
}
