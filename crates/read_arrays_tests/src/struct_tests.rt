//! Structs of iterators, and fields beneath parts, from the pages of their columns (Parquet format, "Nested Encoding"; Dremel paper, section 4.3).
use crate::field_tests::column;
use crate::fields::{item, optional};
use crate::pages::{Place, leaf, pages};
use columns_array::{ArrayBox, StructArray};
use columns_base::{A, Error, N, PhysicalType, Result, S};
use columns_core::{DataType, Field};
use pq_pages::VecPages;
use pq_tree::{PrimitiveType, Repetition};
use read_nested::create_list;
use read_state::{InitNested, NestedState};
use std::alloc::Global;
use struct_iters::{NestedArrayIter, StructIterator, columns_to_iter_recursive};

/// A nullable number in a nullable struct: 1, beneath a null struct, and null.
pub const LEFT: &[u8] = &[3, 0, 0, 0, 3, 0b01_0010, 0, 1, 0, 0, 0];

/// The same of 4, beneath a null struct, and 5.
pub const RIGHT: &[u8] = &[3, 0, 0, 0, 3, 0b10_0010, 0, 4, 0, 0, 0, 5, 0, 0, 0];

// Null, 6, and beneath a null struct.
const OTHER: &[u8] = &[3, 0, 0, 0, 3, 0b00_1001, 0, 6, 0, 0, 0];

// 1, and beneath a null struct.
const SHORT: &[u8] = &[3, 0, 0, 0, 3, 0b0010, 0, 1, 0, 0, 0];

/// The arrays of a field of one column beneath a part, by these types of leaves.
pub fn open_typed(
    alloc: Global,
    pages: VecPages,
    types: Vec<PrimitiveType>,
    field: Field,
    part: InitNested,
    rows: usize,
    chunk_size: Option<usize>,
) -> Result<NestedArrayIter<VecPages>> {
    if !field.nests_within(128) {
        return Err(Error::NotYetImplemented(N::N7));
    }
    let columns = Vec::from_array(alloc, [pages])?;
    let init = Vec::from_array(alloc, [part])?;
    columns_to_iter_recursive(alloc, columns, types, field, init, rows, chunk_size)
}

// The arrays of a field of one column beneath a part.
fn open(
    alloc: Global,
    pages: VecPages,
    field: Field,
    part: InitNested,
    rows: usize,
    chunk_size: Option<usize>,
) -> Result<NestedArrayIter<VecPages>> {
    let leaf = leaf(alloc, Repetition::Optional, PhysicalType::Int32);
    let types = Vec::from_array(alloc, [leaf])?;
    open_typed(alloc, pages, types, field, part, rows, chunk_size)
}

/// The child of a nullable struct, from one page.
pub fn child(
    alloc: Global,
    rows: u8,
    body: &[u8],
    chunk_size: Option<usize>,
) -> Result<NestedArrayIter<VecPages>> {
    let field = optional(alloc, "n", DataType::Int32)?;
    let pages = pages(alloc, PhysicalType::Int32, Place::Struct, rows, body, 1)?;
    let count = usize::from(rows);
    open(
        alloc,
        pages,
        field,
        InitNested::Struct(true),
        count,
        chunk_size,
    )
}

// The struct of two such children, and so many fields.
fn pair(
    alloc: Global,
    left: NestedArrayIter<VecPages>,
    right: NestedArrayIter<VecPages>,
    fields: usize,
) -> Result<StructIterator<VecPages>> {
    let mut iters = Vec::new(alloc);
    iters.push(left)?;
    iters.push(right)?;
    let mut all = Vec::new(alloc);
    for _ in 0..fields {
        all.push(optional(alloc, "n", DataType::Int32)?)?;
    }
    StructIterator::new(alloc, iters, all)
}

fn has_numbers(child: &ArrayBox, want: &[i32], nulls: usize) -> bool {
    match child {
        ArrayBox::Int32(numbers) => numbers.values() == want && numbers.null_count() == nulls,
        _ => false,
    }
}

fn has_both(array: &StructArray, left: &[i32], right: &[i32]) -> bool {
    match array.values() {
        [first, second] => has_numbers(first, left, 2) && has_numbers(second, right, 1),
        _ => false,
    }
}

// The array has these numbers and one null struct.
fn is_struct(array: &ArrayBox, left: &[i32], right: &[i32]) -> bool {
    match array {
        ArrayBox::Struct(array) => array.null_count() == 1 && has_both(array, left, right),
        _ => false,
    }
}

// No part is left, and the array is such a one.
fn is_pair(item: Option<Result<(NestedState, ArrayBox)>>, left: &[i32], right: &[i32]) -> bool {
    match item {
        Some(Ok((mut parts, array))) => parts.pop().is_none() && is_struct(&array, left, right),
        _ => false,
    }
}

fn reads_pair(alloc: Global) -> Result<bool> {
    let left = child(alloc, 3, LEFT, None)?;
    let right = child(alloc, 3, RIGHT, None)?;
    let mut structs = pair(alloc, left, right, 2)?;
    let is_read = is_pair(structs.next(), &[1, 0, 0], &[4, 0, 5]);
    Ok(is_read && structs.next().is_none())
}

#[test]
fn structs_are_joined(rt: HostRuntime) -> Result<()> {
    assert!(rt; reads_pair(rt.alloc())?);
    Ok(())
}

// So many rows come before S10, and nothing behind it.
fn parts_after(mut structs: StructIterator<VecPages>, rows: usize) -> bool {
    for _ in 0..rows {
        match structs.next() {
            Some(Ok(_)) => {}
            _ => return false,
        }
    }
    match structs.next() {
        Some(Err(error)) => error == Error::OutOfSpec(S::S10) && structs.next().is_none(),
        _ => false,
    }
}

#[test]
fn children_that_disagree_are_refused(rt: HostRuntime) -> Result<()> {
    let alloc = rt.alloc();
    let left = child(alloc, 3, LEFT, None)?;
    let right = child(alloc, 3, OTHER, None)?;
    assert!(rt; parts_after(pair(alloc, left, right, 2)?, 0));
    let left = child(alloc, 3, LEFT, Some(1))?;
    let right = child(alloc, 2, SHORT, Some(1))?;
    assert!(rt; parts_after(pair(alloc, left, right, 2)?, 2));
    Ok(())
}

fn misfits(structs: Result<StructIterator<VecPages>>) -> bool {
    match structs {
        Ok(_) => false,
        Err(error) => error == Error::InvalidArgumentError(A::A8),
    }
}

#[test]
fn other_numbers_of_fields_are_refused(rt: HostRuntime) -> Result<()> {
    let alloc = rt.alloc();
    let left = child(alloc, 3, LEFT, None)?;
    let right = child(alloc, 3, RIGHT, None)?;
    assert!(rt; misfits(pair(alloc, left, right, 1)));
    assert!(rt; misfits(StructIterator::new(alloc, Vec::new(alloc), Vec::new(alloc))));
    Ok(())
}

// The lists [1, 2], null and [].
fn is_list(array: &ArrayBox) -> bool {
    match array {
        ArrayBox::List(array) => {
            array.offsets().buffer() == [0, 2, 2, 2].as_slice()
                && array.null_count() == 1
                && has_numbers(array.values(), &[1, 2], 0)
        }
        _ => false,
    }
}

// The items of a list and its part make the list's array.
fn reads_list(alloc: Global) -> Result<bool> {
    let field = optional(alloc, "item", DataType::Int32)?;
    let list = DataType::List(item(alloc, DataType::Int32)?);
    let mut items = open(
        alloc,
        column(alloc)?,
        field,
        InitNested::List(true),
        4,
        Some(3),
    )?;
    match items.next() {
        Some(Ok((mut parts, items))) => {
            let array = create_list(alloc, list, &mut parts, items)?;
            Ok(is_list(&array))
        }
        _ => Ok(false),
    }
}

#[test]
fn items_of_a_list_come_with_its_part(rt: HostRuntime) -> Result<()> {
    assert!(rt; reads_list(rt.alloc())?);
    Ok(())
}
