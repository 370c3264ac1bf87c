//! The arrays of a field from the pages of its columns: a nullable list of nullable numbers in two pages of two rows each.
use crate::fields::{item, open, optional};
use crate::pages::{Form, Place, leaf, page};
use assembly::ArrayIter;
use columns_array::{ArrayBox, ListArray};
use columns_base::{A, Error, N, PhysicalType, Result};
use columns_core::{DataType, Field};
use pq_pages::VecPages;
use pq_tree::{PrimitiveType, Repetition};
use std::alloc::Global;

// The rows [1, 2] and null: repetition 0, 1, 0 and definition 3, 3, 0.
const FIRST: &[u8] = &[
    2, 0, 0, 0, 3, 0b010, 3, 0, 0, 0, 3, 0b00_1111, 0, 1, 0, 0, 0, 2, 0, 0, 0,
];

// The rows [] and [null]: repetition 0, 0 and definition 1, 2.
const SECOND: &[u8] = &[2, 0, 0, 0, 4, 0, 3, 0, 0, 0, 3, 0b1001, 0];

fn lists(alloc: Global) -> Result<Field> {
    optional(alloc, "a", DataType::List(item(alloc, DataType::Int32)?))
}

pub fn column(alloc: Global) -> Result<VecPages> {
    let int32 = PhysicalType::Int32;
    let mut pages = Vec::new(alloc);
    pages.push(page(alloc, int32, Place::List, 3, Form::Plain, FIRST))?;
    pages.push(page(alloc, int32, Place::List, 2, Form::Plain, SECOND))?;
    Ok(VecPages::new(pages))
}

// The arrays of a field, of so many such columns and so many types of leaves.
fn open_columns(
    alloc: Global,
    field: Field,
    columns: usize,
    types: usize,
    chunk_size: Option<usize>,
) -> Result<ArrayIter<VecPages>> {
    let mut sources = Vec::new(alloc);
    for _ in 0..columns {
        sources.push(column(alloc)?)?;
    }
    let mut leaves: Vec<PrimitiveType> = Vec::new(alloc);
    for _ in 0..types {
        leaves.push(leaf(alloc, Repetition::Optional, PhysicalType::Int32))?;
    }
    open(alloc, sources, leaves, field, chunk_size, 4)
}

// The arrays have so many rows each, and then come no more.
fn has_rows(alloc: Global, chunk_size: Option<usize>, want: &[usize]) -> Result<bool> {
    let mut arrays = open_columns(alloc, lists(alloc)?, 1, 1, chunk_size)?;
    for rows in want {
        match arrays.next() {
            Some(Ok(array)) => {
                if array.len() != *rows {
                    return Ok(false);
                }
            }
            _ => return Ok(false),
        }
    }
    Ok(arrays.next().is_none())
}

#[test]
fn arrays_go_over_pages(rt: HostRuntime) -> Result<()> {
    let rows: [(Option<usize>, &[usize]); 6] = [
        (Some(1), &[1, 1, 1, 1]),
        (Some(2), &[2, 2]),
        (Some(3), &[3, 1]),
        (Some(4), &[4]),
        (Some(9), &[4]),
        (None, &[4]),
    ];
    for (chunk_size, want) in &rows {
        assert!(rt; has_rows(rt.alloc(), *chunk_size, want)?);
    }
    Ok(())
}

// These offsets, so many null lists, and these items, of which so many are null.
fn is_list(list: &ListArray, offsets: &[i32], nulls: usize, items: &[i32], missing: usize) -> bool {
    match list.values() {
        ArrayBox::Int32(numbers) => {
            list.offsets().buffer() == offsets
                && list.null_count() == nulls
                && numbers.values() == items
                && numbers.null_count() == missing
        }
        _ => false,
    }
}

fn has_lists(
    array: Option<Result<ArrayBox>>,
    offsets: &[i32],
    nulls: usize,
    items: &[i32],
    missing: usize,
) -> bool {
    match array {
        Some(Ok(ArrayBox::List(list))) => is_list(&list, offsets, nulls, items, missing),
        _ => false,
    }
}

fn reads_both(alloc: Global) -> Result<bool> {
    let mut arrays = open_columns(alloc, lists(alloc)?, 1, 1, Some(3))?;
    Ok(
        has_lists(arrays.next(), &[0, 2, 2, 2], 1, &[1, 2], 0)
            && has_lists(arrays.next(), &[0, 1], 0, &[0], 1)
            && arrays.next().is_none(),
    )
}

#[test]
fn lists_are_assembled(rt: HostRuntime) -> Result<()> {
    assert!(rt; reads_both(rt.alloc())?);
    Ok(())
}

// The field of so many columns and types is refused for this reason.
fn refuses(
    alloc: Global,
    field: Field,
    columns: usize,
    types: usize,
    chunk_size: Option<usize>,
    want: Error,
) -> bool {
    match open_columns(alloc, field, columns, types, chunk_size) {
        Ok(_) => false,
        Err(error) => error == want,
    }
}

#[test]
fn what_is_no_field_of_columns_is_refused(rt: HostRuntime) -> Result<()> {
    let alloc = rt.alloc();
    let misfit = Error::InvalidArgumentError(A::A8);
    for (columns, types) in &[(2, 2), (2, 1), (1, 2), (1, 0), (0, 1), (0, 0)] {
        assert!(rt; refuses(alloc, lists(alloc)?, *columns, *types, None, misfit));
    }
    let empty = optional(alloc, "s", DataType::Struct(Vec::new(alloc)))?;
    assert!(rt; refuses(alloc, empty, 0, 0, None, misfit));
    let no_rows = Error::InvalidArgumentError(A::A1);
    assert!(rt; refuses(alloc, lists(alloc)?, 1, 1, Some(0), no_rows));
    let unserved = Error::NotYetImplemented(N::N5);
    let pairs = DataType::FixedSizeList(item(alloc, DataType::Int32)?, 2);
    assert!(rt; refuses(alloc, optional(alloc, "f", pairs)?, 1, 1, None, unserved));
    let texts = optional(alloc, "t", DataType::Utf8)?;
    assert!(rt; refuses(alloc, texts, 1, 1, None, unserved));
    Ok(())
}
