//! Paths from tables, and whether a path is that of a table.
use columns_core::{Bitmap, Offset, OffsetsBuffer};
use levels::{ListNested, Nested, is_same_nested};
use std::alloc::Global;
use std::test::Fail;

/// A part by whether it is optional, its mask (no bits are none), and its length or its offsets.
#[derive(Clone, Copy)]
pub enum Part {
    Leaf(bool, &'static [bool], usize),
    List(bool, &'static [bool], &'static [i32]),
    LargeList(bool, &'static [bool], &'static [i64]),
    Struct(bool, &'static [bool], usize),
}

pub fn mask(alloc: Global, bits: &[bool]) -> Result<Option<Bitmap>, Fail> {
    if bits.is_empty() {
        return Ok(None);
    }
    Ok(Some(Bitmap::from_slice(alloc, bits)?))
}

fn leaf(alloc: Global, is_optional: bool, bits: &[bool], len: usize) -> Result<Nested, Fail> {
    Ok(Nested::Primitive(mask(alloc, bits)?, is_optional, len))
}

fn structs(alloc: Global, is_optional: bool, bits: &[bool], len: usize) -> Result<Nested, Fail> {
    Ok(Nested::Struct(mask(alloc, bits)?, is_optional, len))
}

fn lists<O: Offset>(
    alloc: Global,
    is_optional: bool,
    bits: &[bool],
    offsets: &[O],
) -> Result<ListNested<O>, Fail> {
    let offsets = OffsetsBuffer::try_from_vec(offsets.to_vec(alloc)?)?;
    Ok(ListNested::new(offsets, mask(alloc, bits)?, is_optional))
}

fn small(alloc: Global, is_optional: bool, bits: &[bool], offsets: &[i32]) -> Result<Nested, Fail> {
    Ok(Nested::List(lists(alloc, is_optional, bits, offsets)?))
}

fn large(alloc: Global, is_optional: bool, bits: &[bool], offsets: &[i64]) -> Result<Nested, Fail> {
    Ok(Nested::LargeList(lists(alloc, is_optional, bits, offsets)?))
}

fn nested(alloc: Global, part: &Part) -> Result<Nested, Fail> {
    match part {
        Part::Leaf(is_optional, bits, len) => leaf(alloc, *is_optional, bits, *len),
        Part::Struct(is_optional, bits, len) => structs(alloc, *is_optional, bits, *len),
        Part::List(is_optional, bits, offsets) => small(alloc, *is_optional, bits, offsets),
        Part::LargeList(is_optional, bits, offsets) => large(alloc, *is_optional, bits, offsets),
    }
}

pub fn build(alloc: Global, parts: &[Part]) -> Result<Vec<Nested>, Fail> {
    let mut path = Vec::new(alloc);
    for part in parts {
        path.push(nested(alloc, part)?)?;
    }
    Ok(path)
}

fn is_part(found: &Nested, alloc: Global, part: &Part) -> Result<bool, Fail> {
    Ok(is_same_nested(found, &nested(alloc, part)?))
}

/// Whether the path has these parts.
pub fn is_path(found: &[Nested], alloc: Global, parts: &[Part]) -> Result<bool, Fail> {
    if found.len() != parts.len() {
        return Ok(false);
    }
    for i in 0..parts.len() {
        if !is_part(&found[i], alloc, &parts[i])? {
            return Ok(false);
        }
    }
    Ok(true)
}
