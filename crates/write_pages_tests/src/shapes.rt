//! Three slots of a leaf, the second of them null, flat, in a list and in a struct: the bytes of their pages, worked by hand (Parquet format, "Data Pages",
//! "Nested Encoding"; Encodings, "Run Length Encoding / Bit-Packing Hybrid").
ghost use Rattle.std.specs.Prelude.{◌≡◌, ◌≤◌, length, IfOk};

use columns_array::ArrayBox;
use columns_base::{A, Error, PhysicalType, Result};
use columns_core::{Bitmap, OffsetsBuffer};
use levels::{ListNested, Nested};
use pq_pages::{DataPage, Page};
use pq_tree::{
    CompressionOptions, DataPageHeader, Encoding, FieldInfo, PrimitiveType, Repetition, Statistics,
    Version,
};
use std::alloc::Global;
use write_pages::{PageIter, WriteOptions, array_to_pages};

/// Which slots of the leaf are there.
pub const THERE: [bool; 3] = [true, false, true];

/// The plain bytes of the values, and the texts of the least and the greatest; none of a type without an order.
#[derive(Clone, Copy)]
pub struct Wanted<'a> {
    pub plain: &'a [u8],
    pub least: &'a [u8],
    pub greatest: &'a [u8],
}

/// The shape of the column.
#[derive(Clone, Copy)]
pub enum Shape {
    /// `[a, null, b]` of an optional leaf.
    Flat,
    /// The lists `[a, null]`, `[]`, null and `[b]` of optional items.
    List,
    /// Three optional structs of an optional leaf.
    Struct,
}

// The level sections of version 2, repetition levels first: levels 1, 0, 1; pairs (0,3) (1,2) (0,1) (0,0) (0,3); levels 2, 1, 2.
fn levels(shape: Shape) -> (&'static [u8], &'static [u8]) {
    match shape {
        Shape::Flat => (b"", b"\x03\x05"),
        Shape::List => (b"\x03\x02", b"\x03\x1b\x03"),
        Shape::Struct => (b"", b"\x03\x26\x00"),
    }
}

// How many pairs have no value.
fn nulls(shape: Shape) -> i64 {
    match shape {
        Shape::Flat | Shape::Struct => 1,
        Shape::List => 3,
    }
}

// The parts of the shape.
fn parts(alloc: Global, shape: Shape) -> Result<Vec<Nested>> {
    let mut path = Vec::new(alloc);
    match shape {
        Shape::Flat => {}
        Shape::List => {
            let offsets = [0, 2, 2, 2, 3].as_slice().to_vec(alloc)?;
            let mask = Bitmap::from_slice(alloc, &[true, true, false, true])?;
            let offsets = OffsetsBuffer::<i32>::try_from_vec(offsets)?;
            path.push(Nested::List(ListNested::new(offsets, Some(mask), true)))?;
        }
        Shape::Struct => path.push(Nested::Struct(None, true, 3))?,
    }
    let mask = Bitmap::from_slice(alloc, &THERE)?;
    path.push(Nested::Primitive(Some(mask), true, 3))?;
    Ok(path)
}

/// The path of a column of the shape.
pub fn path(alloc: Global, shape: Shape) -> Result<Vec<Nested>>
    ensures { IfOk result (λ path. length path.items ≤ 128) }
{
    let path = parts(alloc, shape)?;
    // a path of a schema is no deeper
    if path.len() > 128 {
        return Err(Error::InvalidArgumentError(A::A8));
    }
    Ok(path)
}

/// A leaf of this physical type.
pub fn leaf(
    alloc: Global,
    repetition: Repetition,
    physical_type: PhysicalType,
) -> Result<PrimitiveType>
    ensures { IfOk result (λ type_. type_.physical_type ≡ physical_type) }
{
    Ok(PrimitiveType {
        field_info: FieldInfo {
            name: String::from_str(alloc, "x")?,
            repetition,
            id: None,
        },
        logical_type: None,
        converted_type: None,
        physical_type,
    })
}

/// An optional one.
pub fn optional(alloc: Global, physical_type: PhysicalType) -> Result<PrimitiveType>
    ensures { IfOk result (λ type_. type_.physical_type ≡ physical_type) }
{
    leaf(alloc, Repetition::Optional, physical_type)
}

/// A required one.
pub fn required(alloc: Global, physical_type: PhysicalType) -> Result<PrimitiveType>
    ensures { IfOk result (λ type_. type_.physical_type ≡ physical_type) }
{
    leaf(alloc, Repetition::Required, physical_type)
}

/// Pages with statistics.
pub fn options(version: Version) -> WriteOptions {
    WriteOptions {
        write_statistics: true,
        version,
        compression: CompressionOptions::Uncompressed,
        data_pagesize_limit: None,
    }
}

// The pages of the column of the shape.
fn pages(
    alloc: Global,
    array: &ArrayBox,
    physical_type: PhysicalType,
    shape: Shape,
    version: Version,
    encoding: Encoding,
) -> Result<PageIter> {
    let path = path(alloc, shape)?;
    let type_ = optional(alloc, physical_type)?;
    array_to_pages(alloc, array, type_, &path, options(version), encoding)
}

/// The pages of the dictionary's column of the shape.
pub fn pages_along(
    alloc: Global,
    array: &ArrayBox,
    physical_type: PhysicalType,
    shape: Shape,
    version: Version,
) -> Result<PageIter> {
    pages(
        alloc,
        array,
        physical_type,
        shape,
        version,
        Encoding::RleDictionary,
    )
}

// In version 1 each section of levels stands behind its length, in four bytes.
fn push_section(body: &mut Vec<u8>, section: &[u8], version: Version) -> Result<()> {
    if section.is_empty() {
        return Ok(());
    }
    if version == Version::V1 {
        body.extend_from_slice(&[(section.len() % 256) as u8, 0, 0, 0])?;
    }
    body.extend_from_slice(section)?;
    Ok(())
}

// The body of a page of the shape, with these plain bytes of its values.
fn body(alloc: Global, plain: &[u8], shape: Shape, version: Version) -> Result<Vec<u8>> {
    let (repetition, definition) = levels(shape);
    let mut body = Vec::new(alloc);
    push_section(&mut body, repetition, version)?;
    push_section(&mut body, definition, version)?;
    body.extend_from_slice(plain)?;
    Ok(body)
}

fn is_text(text: &Option<Vec<u8>>, wanted: &[u8]) -> bool {
    match text {
        Some(text) => !wanted.is_empty() && text.as_slice() == wanted,
        None => wanted.is_empty(),
    }
}

fn are_stated(stated: &Option<Statistics>, nulls: i64, wanted: Wanted<'_>) -> bool {
    match stated {
        Some(stated) => {
            stated.null_count == Some(nulls)
                && is_text(&stated.min_value, wanted.least)
                && is_text(&stated.max_value, wanted.greatest)
        }
        None => false,
    }
}

// Whether the header states so many nulls, and the least and the greatest value.
fn states(header: &DataPageHeader, nulls: i64, wanted: Wanted<'_>) -> bool {
    match header {
        DataPageHeader::V1(header) => are_stated(&header.statistics, nulls, wanted),
        DataPageHeader::V2(header) => are_stated(&header.statistics, nulls, wanted),
    }
}

/// Whether the page has the wanted bytes behind the levels of the shape, and states what is wanted and so many nulls.
pub fn states_so(
    alloc: Global,
    page: &DataPage,
    nulls: i64,
    wanted: Wanted<'_>,
    shape: Shape,
    version: Version,
) -> Result<bool> {
    let body = body(alloc, wanted.plain, shape, version)?;
    Ok(page.buffer() == body.as_slice() && states(page.header(), nulls, wanted))
}

/// Whether the page has the wanted bytes behind the levels of the shape, and states what is wanted and as many nulls as the shape has.
pub fn is_page(
    alloc: Global,
    page: &DataPage,
    wanted: Wanted<'_>,
    shape: Shape,
    version: Version,
) -> Result<bool> {
    states_so(alloc, page, nulls(shape), wanted, shape, version)
}

/// Whether the next page is the last one, has the wanted bytes behind its levels, and it and the column state what is wanted.
pub fn ends_so(
    alloc: Global,
    pages: &mut PageIter,
    wanted: Wanted<'_>,
    shape: Shape,
    version: Version,
) -> Result<bool> {
    let column = are_stated(pages.statistics(), nulls(shape), wanted);
    match pages.next_page() {
        Some(Ok(Page::Data(page))) => Ok(
            column && pages.next_page().is_none() && is_page(alloc, &page, wanted, shape, version)?,
        ),
        Some(Err(error)) => Err(error),
        _ => Ok(false),
    }
}

// Whether the column of the shape is one page of the wanted bytes, and both state what is wanted.
fn is_written_so(
    alloc: Global,
    array: &ArrayBox,
    physical_type: PhysicalType,
    wanted: Wanted<'_>,
    shape: Shape,
    version: Version,
) -> Result<bool> {
    let mut pages = pages(alloc, array, physical_type, shape, version, Encoding::Plain)?;
    ends_so(alloc, &mut pages, wanted, shape, version)
}

/// Whether the flat column is written as wanted in both versions.
pub fn is_written_flat(
    alloc: Global,
    array: &ArrayBox,
    physical_type: PhysicalType,
    wanted: Wanted<'_>,
) -> Result<bool> {
    Ok(
        is_written_so(
            alloc,
            array,
            physical_type,
            wanted,
            Shape::Flat,
            Version::V1,
        )? && is_written_so(
            alloc,
            array,
            physical_type,
            wanted,
            Shape::Flat,
            Version::V2,
        )?,
    )
}

/// Whether the column of each shape is written as wanted in both versions.
pub fn is_written(
    alloc: Global,
    array: &ArrayBox,
    physical_type: PhysicalType,
    wanted: Wanted<'_>,
) -> Result<bool> {
    for shape in [Shape::List, Shape::Struct] {
        for version in [Version::V1, Version::V2] {
            if !is_written_so(alloc, array, physical_type, wanted, shape, version)? {
                return Ok(false);
            }
        }
    }
    is_written_flat(alloc, array, physical_type, wanted)
}

/// Whether a column of the shape is refused for its type.
pub fn is_unserved(
    alloc: Global,
    array: &ArrayBox,
    physical_type: PhysicalType,
    shape: Shape,
) -> bool {
    matches!(
        pages(
            alloc,
            array,
            physical_type,
            shape,
            Version::V1,
            Encoding::Plain
        ),
        Err(Error::NotYetImplemented(columns_base::N::N5))
    )
}
