//! The pages of one column, and whether they and the column state what is wanted.
use crate::options::STATED;
use columns_array::ArrayBox;
use columns_base::{A, Error, PhysicalType, Result};
use columns_core::Bitmap;
use levels::Nested;
use pq_pages::Page;
use pq_tree::{Encoding, FieldInfo, PrimitiveType, Repetition, Statistics};
use std::alloc::Global;
use write_pages::{PageIter, WriteOptions, array_to_pages};

/// A leaf of this physical type.
pub fn leaf(
    alloc: Global,
    repetition: Repetition,
    physical_type: PhysicalType,
) -> Result<PrimitiveType> {
    Ok(PrimitiveType {
        field_info: FieldInfo {
            name: String::from_str(alloc, "x")?,
            repetition,
            id: None,
        },
        logical_type: None,
        converted_type: None,
        physical_type,
    })
}

/// The path of an optional leaf with these nulls.
pub fn optional(alloc: Global, there: &[bool]) -> Result<Vec<Nested>> {
    let mask = Bitmap::from_slice(alloc, there)?;
    let mut path = Vec::new(alloc);
    path.push(Nested::Primitive(Some(mask), true, there.len()))?;
    Ok(path)
}

/// The plain pages of a column by these options.
pub fn pages_by(
    alloc: Global,
    array: &ArrayBox,
    repetition: Repetition,
    physical_type: PhysicalType,
    path: &[Nested],
    options: WriteOptions,
) -> Result<PageIter> {
    // a path of a schema is no deeper
    if path.len() > 128 {
        return Err(Error::InvalidArgumentError(A::A8));
    }
    let type_ = leaf(alloc, repetition, physical_type)?;
    array_to_pages(alloc, array, type_, path, options, Encoding::Plain)
}

/// The plain pages of a column.
pub fn pages(
    alloc: Global,
    array: &ArrayBox,
    repetition: Repetition,
    physical_type: PhysicalType,
    path: &[Nested],
) -> Result<PageIter> {
    pages_by(alloc, array, repetition, physical_type, path, STATED)
}

fn is_text(text: &Option<Vec<u8>>, wanted: &[u8]) -> bool {
    match text {
        Some(text) => !wanted.is_empty() && text.as_slice() == wanted,
        None => wanted.is_empty(),
    }
}

/// Whether so many nulls are stated, and these bounds; no bounds where these are empty.
pub fn are_stated(stated: &Option<Statistics>, nulls: i64, least: &[u8], greatest: &[u8]) -> bool {
    match stated {
        Some(stated) => {
            stated.null_count == Some(nulls)
                && is_text(&stated.min_value, least)
                && is_text(&stated.max_value, greatest)
        }
        None => false,
    }
}

/// Whether the only page has this body, and the column these statistics.
pub fn are(
    mut pages: PageIter,
    body: &[u8],
    nulls: i64,
    least: &[u8],
    greatest: &[u8],
) -> Result<bool> {
    let column = are_stated(pages.statistics(), nulls, least, greatest);
    match pages.next_page() {
        Some(Ok(Page::Data(page))) => {
            Ok(column && page.buffer() == body && pages.next_page().is_none())
        }
        Some(Err(error)) => Err(error),
        _ => Ok(false),
    }
}
