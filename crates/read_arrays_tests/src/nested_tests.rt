//! The rows [1, null], null, [], [2] of each type, by level pairs in a page of version 1.
ghost use Rattle.std.specs.Prelude.{◌≡◌, true, IfOk};
ghost use Rattle.read_leaves.specs.Leaf.{ends_optional};

use crate::pages::{Place, pages};
use columns_array::ArrayBox;
use columns_base::{A, Error, PhysicalType, Result};
use columns_core::DataType;
use leaf_iters::{binary, boolean, null, primitive};
use read_state::{InitNested, NestedState};
use std::alloc::Global;

// Repetition levels, definition levels, and as values true and false.
const TRUTHS: &[u8] = &[2, 0, 0, 0, 3, 2, 3, 0, 0, 0, 3, 75, 3, 1];

const NUMBERS: &[u8] = &[
    2, 0, 0, 0, 3, 2, 3, 0, 0, 0, 3, 75, 3, 1, 0, 0, 0, 2, 0, 0, 0,
];

const STRINGS: &[u8] = &[
    2, 0, 0, 0, 3, 2, 3, 0, 0, 0, 3, 75, 3, 1, 0, 0, 0, 97, 1, 0, 0, 0, 98,
];

// The rows [null, null], null, [], [null].
const NULLS: &[u8] = &[2, 0, 0, 0, 3, 2, 3, 0, 0, 0, 3, 10, 2];

fn parts(alloc: Global) -> Result<Vec<InitNested>>
    ensures { IfOk result (λ parts. ends_optional parts.items ≡ true) }
{
    Ok(Vec::from_slice(
        alloc,
        &[InitNested::List(true), InitNested::Primitive(true)],
    )?)
}

// A state and an array of so many slots.
fn has(item: Option<Result<(NestedState, ArrayBox)>>, slots: usize) -> bool {
    match item {
        Some(Ok((nested, array))) => nested.leaf_len() == slots && array.len() == slots,
        _ => false,
    }
}

fn reads_truths(alloc: Global) -> Result<bool> {
    let pages = pages(alloc, PhysicalType::Boolean, Place::List, 5, TRUTHS, 2)?;
    let mut iter = boolean::NestedIter::new(alloc, pages, parts(alloc)?, 8, Some(3))?;
    Ok(has(iter.next(), 2) && has(iter.next(), 3) && has(iter.next(), 1) && iter.next().is_none())
}

fn reads_numbers(alloc: Global) -> Result<bool> {
    let pages = pages(alloc, PhysicalType::Int32, Place::List, 5, NUMBERS, 2)?;
    let mut iter = primitive::NestedIter::<i32, _, i32>::new(
        alloc,
        pages,
        parts(alloc)?,
        DataType::Int32,
        8,
        None,
    )?;
    Ok(has(iter.next(), 6) && iter.next().is_none())
}

fn reads_strings(alloc: Global) -> Result<bool> {
    let pages = pages(alloc, PhysicalType::ByteArray, Place::List, 5, STRINGS, 1)?;
    let mut iter = binary::NestedIter::<i32, _>::new(
        alloc,
        pages,
        parts(alloc)?,
        DataType::Utf8,
        4,
        None,
    )?;
    Ok(has(iter.next(), 3) && iter.next().is_none())
}

fn reads_nulls(alloc: Global) -> Result<bool> {
    let pages = pages(alloc, PhysicalType::Int32, Place::List, 5, NULLS, 1)?;
    let mut iter = null::NestedIter::new(alloc, pages, parts(alloc)?, DataType::Null, 4, None)?;
    Ok(has(iter.next(), 3) && iter.next().is_none())
}

// The pages have a row more than the column.
fn ends_behind_an_error(alloc: Global) -> Result<bool> {
    let pages = pages(alloc, PhysicalType::Boolean, Place::List, 5, TRUTHS, 1)?;
    let mut iter = boolean::NestedIter::new(alloc, pages, parts(alloc)?, 3, None)?;
    let is_refused = match iter.next() {
        Some(Err(_)) => true,
        _ => false,
    };
    Ok(is_refused && iter.next().is_none())
}

fn refuses_empty_pieces(alloc: Global) -> Result<bool> {
    let pages = pages(alloc, PhysicalType::Boolean, Place::List, 5, TRUTHS, 1)?;
    Ok(
        match boolean::NestedIter::new(alloc, pages, parts(alloc)?, 4, Some(0)) {
            Ok(_) => false,
            Err(error) => error == Error::InvalidArgumentError(A::A1),
        },
    )
}

#[test]
fn pieces_of_each_type_are_read(rt: HostRuntime) -> Result<()> {
    assert!(rt; reads_truths(rt.alloc())?);
    assert!(rt; reads_numbers(rt.alloc())?);
    assert!(rt; reads_strings(rt.alloc())?);
    assert!(rt; reads_nulls(rt.alloc())?);
    Ok(())
}

#[test]
fn errors_come_once(rt: HostRuntime) -> Result<()> {
    assert!(rt; ends_behind_an_error(rt.alloc())?);
    assert!(rt; refuses_empty_pieces(rt.alloc())?);
    Ok(())
}
