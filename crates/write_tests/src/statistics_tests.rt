//! Statistics of pages and of columns (Parquet format, parquet.thrift: `Statistics`), by hand.
use crate::fields::numbers_in;
use crate::one_column::{are_stated, optional, pages_by};
use crate::options::STATED;
use columns_array::ArrayBox;
use columns_base::{PhysicalType, Result};
use columns_core::{Bitmap, DataType, OffsetsBuffer};
use columns_leaf::{PrimitiveArray, Utf8Array};
use levels::Nested;
use pq_pages::Page;
use pq_tree::{DataPageHeader, Repetition};
use std::alloc::Global;
use write_pages::{PageIter, WriteOptions};

fn unsigned(alloc: Global, values: &[u32]) -> Result<ArrayBox> {
    let values = values.to_vec(alloc)?;
    Ok(ArrayBox::UInt32(PrimitiveArray::try_new(alloc, DataType::UInt32, values, None)?))
}

// The texts ab and a, with a null between them that has the bytes of x.
fn texts(alloc: Global) -> Result<ArrayBox> {
    let offsets = OffsetsBuffer::try_from_vec([0, 2, 3, 4].as_slice().to_vec(alloc)?)?;
    let values = b"abxa".as_slice().to_vec(alloc)?;
    let mask = Bitmap::from_slice(alloc, &[true, false, true])?;
    Ok(ArrayBox::Utf8(Utf8Array::try_new(alloc, DataType::Utf8, offsets, values, Some(mask))?))
}

// The pages of an optional leaf.
fn pages(
    alloc: Global,
    array: &ArrayBox,
    physical_type: PhysicalType,
    path: &[Nested],
    limit: Option<usize>,
) -> Result<PageIter> {
    let options = WriteOptions {
        data_pagesize_limit: limit,
        ..STATED
    };
    pages_by(
        alloc,
        array,
        Repetition::Optional,
        physical_type,
        path,
        options,
    )
}

// The path of a leaf without nulls in a struct with these.
fn in_struct(alloc: Global, there: &[bool]) -> Result<Vec<Nested>> {
    let mask = Bitmap::from_slice(alloc, there)?;
    let mut path = Vec::new(alloc);
    path.push(Nested::Struct(Some(mask), true, there.len()))?;
    path.push(Nested::Primitive(None, true, there.len()))?;
    Ok(path)
}

// The same of the next page.
fn page_states(pages: &mut PageIter, nulls: i64, least: &[u8], greatest: &[u8]) -> Result<bool> {
    match pages.next_page() {
        Some(Ok(Page::Data(page))) => match page.header() {
            DataPageHeader::V1(header) => Ok(are_stated(
                &header.statistics,
                nulls,
                least,
                greatest,
            )),
            DataPageHeader::V2(header) => Ok(are_stated(
                &header.statistics,
                nulls,
                least,
                greatest,
            )),
        },
        Some(Err(error)) => Err(error),
        _ => Ok(false),
    }
}

// Whether the only page and the column state the same.
fn both_state(mut pages: PageIter, nulls: i64, least: &[u8], greatest: &[u8]) -> Result<bool> {
    let column = are_stated(pages.statistics(), nulls, least, greatest);
    Ok(column && page_states(&mut pages, nulls, least, greatest)? && pages.next_page().is_none())
}

#[test]
fn texts_are_stated(rt: HostRuntime) -> Result<()> {
    let alloc = rt.alloc();
    let path = optional(alloc, &[true, false, true])?;
    let pages = pages(alloc, &texts(alloc)?, PhysicalType::ByteArray, &path, None)?;
    assert!(rt; both_state(pages, 1, b"a", b"ab")?);
    Ok(())
}

#[test]
fn numbers_without_a_sign_are_stated(rt: HostRuntime) -> Result<()> {
    let alloc = rt.alloc();
    let path = optional(alloc, &[true, true])?;
    let array = unsigned(alloc, &[1, 4_294_967_295])?;
    let pages = pages(alloc, &array, PhysicalType::Int32, &path, None)?;
    assert!(rt; both_state(pages, 0, b"\x01\x00\x00\x00", b"\xff\xff\xff\xff")?);
    Ok(())
}

#[test]
fn nulls_alone_have_no_bounds(rt: HostRuntime) -> Result<()> {
    let alloc = rt.alloc();
    let path = optional(alloc, &[false, false])?;
    let pages = pages(
        alloc,
        &numbers_in(alloc, &[7, 8], &[false, false])?,
        PhysicalType::Int32,
        &path,
        None,
    )?;
    assert!(rt; both_state(pages, 2, b"", b"")?);
    Ok(())
}

#[test]
fn values_beneath_null_structs_do_not_count(rt: HostRuntime) -> Result<()> {
    let alloc = rt.alloc();
    let path = in_struct(alloc, &[true, false, true])?;
    let pages = pages(
        alloc,
        &numbers_in(alloc, &[7, -9, 5], &[true, true, true])?,
        PhysicalType::Int32,
        &path,
        None,
    )?;
    assert!(rt; both_state(pages, 1, b"\x05\x00\x00\x00", b"\x07\x00\x00\x00")?);
    Ok(())
}

#[test]
fn each_page_and_the_column_state_their_own(rt: HostRuntime) -> Result<()> {
    let alloc = rt.alloc();
    let path = optional(alloc, &[true, true])?;
    let array = numbers_in(alloc, &[3, -1], &[true, true])?;
    let mut pages = pages(alloc, &array, PhysicalType::Int32, &path, Some(4))?;
    assert!(rt;
        are_stated(
            pages.statistics(),
            0,
            b"\xff\xff\xff\xff",
            b"\x03\x00\x00\x00"
        )
    );
    assert!(rt; page_states(&mut pages, 0, b"\x03\x00\x00\x00", b"\x03\x00\x00\x00")?);
    assert!(rt; page_states(&mut pages, 0, b"\xff\xff\xff\xff", b"\xff\xff\xff\xff")?);
    Ok(())
}
