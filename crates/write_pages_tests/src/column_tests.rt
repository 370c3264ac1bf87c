//! The pages of a column by the row rule, and what lies beneath a null list (Parquet format, "Data Pages", "Nested Encoding").
use crate::shapes::{options, required};
use columns_array::ArrayBox;
use columns_base::{A, Error, PhysicalType, Result};
use columns_core::{Bitmap, DataType, OffsetsBuffer};
use columns_leaf::PrimitiveArray;
use levels::{ListNested, Nested};
use pq_pages::Page;
use pq_tree::{Encoding, Version};
use std::alloc::Global;
use write_pages::{PageIter, WriteOptions, array_to_pages};

fn numbers(alloc: Global, values: &[i32]) -> Result<ArrayBox> {
    let values = values.to_vec(alloc)?;
    Ok(ArrayBox::Int32(PrimitiveArray::try_new(alloc, DataType::Int32, values, None)?))
}

// Whether the pages have so many pairs each.
fn have_pairs(mut pages: PageIter, wanted: &[usize]) -> Result<bool> {
    for pairs in wanted {
        match pages.next_page() {
            Some(Ok(Page::Data(page))) => {
                if page.num_values() != *pairs {
                    return Ok(false);
                }
            }
            Some(Err(error)) => return Err(error),
            _ => return Ok(false),
        }
    }
    Ok(pages.next_page().is_none())
}

// Ten numbers of four bytes: a page has as many rows as 5 goes into the limit, but one at least.
#[test]
fn pages_are_cut_by_the_row_rule(rt: HostRuntime) -> Result<()> {
    let alloc = rt.alloc();
    let array = numbers(alloc, &[0, 1, 2, 3, 4, 5, 6, 7, 8, 9])?;
    let path = [Nested::Primitive(None, false, 10)];
    let cases: [(usize, &[usize]); 6] = [
        (12, &[2, 2, 2, 2, 2]),
        (9, &[1, 1, 1, 1, 1, 1, 1, 1, 1, 1]),
        (0, &[1, 1, 1, 1, 1, 1, 1, 1, 1, 1]),
        (24, &[4, 4, 2]),
        (49, &[9, 1]),
        (50, &[10]),
    ];
    for (limit, pairs) in cases {
        let options = WriteOptions {
            data_pagesize_limit: Some(limit),
            ..options(Version::V1)
        };
        let type_ = required(alloc, PhysicalType::Int32)?;
        let pages = array_to_pages(alloc, &array, type_, &path, options, Encoding::Plain)?;
        assert!(rt; have_pairs(pages, pairs)?);
    }
    Ok(())
}

// The path of the lists [7, 8] and null, beneath which 9 and 10 lie.
fn lists(alloc: Global) -> Result<Vec<Nested>> {
    let offsets = OffsetsBuffer::<i32>::try_from_vec([0, 2, 4].as_slice().to_vec(alloc)?)?;
    let mask = Bitmap::from_slice(alloc, &[true, false])?;
    let mut path = Vec::new(alloc);
    path.push(Nested::List(ListNested::new(offsets, Some(mask), true)))?;
    path.push(Nested::Primitive(None, false, 4))?;
    Ok(path)
}

// Whether the only page has this body.
fn has_body(mut pages: PageIter, body: &[u8]) -> Result<bool> {
    match pages.next_page() {
        Some(Ok(Page::Data(page))) => Ok(page.buffer() == body && pages.next_page().is_none()),
        Some(Err(error)) => Err(error),
        _ => Ok(false),
    }
}

// Repetition 0, 1, 0, definition 2, 2, 0, and two values.
#[test]
fn what_lies_beneath_a_null_list_is_left_out(rt: HostRuntime) -> Result<()> {
    let alloc = rt.alloc();
    let array = numbers(alloc, &[7, 8, 9, 10])?;
    let path = lists(alloc)?;
    // a path of a schema is no deeper
    if path.len() > 128 {
        return Err(Error::InvalidArgumentError(A::A8));
    }
    let type_ = required(alloc, PhysicalType::Int32)?;
    let options = options(Version::V2);
    let pages = array_to_pages(alloc, &array, type_, &path, options, Encoding::Plain)?;
    assert!(rt;
        has_body(
            pages,
            b"\x03\x02\x03\x0a\x00\x07\x00\x00\x00\x08\x00\x00\x00"
        )?
    );
    Ok(())
}
