//! Pages of columns, one by one.
ghost use Rattle.pq_pages.specs.DataPages.{IsEncodingNumber};
ghost use Rattle.pq_pages.specs.Outcomes.{HasLevels};

use columns_base::{PhysicalType, Result};
use pq_pages::{DataPage, DictPage, Page, VecPages};
use pq_tree::{DataPageHeader, DataPageHeaderV1, Descriptor, FieldInfo, PrimitiveType, Repetition};
use std::alloc::Global;

/// Where the column's leaf stands.
#[derive(Clone, Copy)]
pub enum Place {
    /// A required leaf, whose greatest levels are 0.
    Required,
    /// An optional one.
    Optional,
    /// The required items of a required list.
    Items,
    /// The optional items of an optional list.
    List,
    /// An optional leaf in an optional struct.
    Struct,
}

/// A leaf's node.
pub fn leaf(alloc: Global, repetition: Repetition, physical_type: PhysicalType) -> PrimitiveType {
    PrimitiveType {
        field_info: FieldInfo {
            name: String::new(alloc),
            repetition,
            id: None,
        },
        logical_type: None,
        converted_type: None,
        physical_type,
    }
}

// The column of a leaf at this place.
fn descriptor(alloc: Global, physical_type: PhysicalType, place: Place) -> Descriptor
    ensures { HasLevels result }
{
    Descriptor {
        primitive_type: leaf(alloc, Repetition::Optional, physical_type),
        max_def_level: match place {
            Place::Required => 0,
            Place::Optional | Place::Items => 1,
            Place::Struct => 2,
            Place::List => 3,
        },
        max_rep_level: match place {
            Place::Required | Place::Optional | Place::Struct => 0,
            Place::Items | Place::List => 1,
        },
    }
}

/// How the values of a page stand.
#[derive(Clone, Copy)]
pub enum Form {
    Plain,
    Deltas,
    /// Byte strings behind their lengths by deltas.
    Lengths,
    Indices,
}

// The number of the encoding.
fn encoding(form: Form) -> i32
    ensures { IsEncodingNumber result }
{
    match form {
        Form::Plain => 0,
        Form::Deltas => 5,
        Form::Lengths => 6,
        Form::Indices => 8,
    }
}

/// A page of version 1 of so many pairs, whose values stand so.
pub fn data_page(
    alloc: Global,
    physical_type: PhysicalType,
    place: Place,
    num_values: u8,
    form: Form,
    body: &[u8],
) -> Result<DataPage> {
    let header = DataPageHeaderV1 {
        num_values: i32::from(num_values),
        encoding: encoding(form),
        definition_level_encoding: Some(3),
        repetition_level_encoding: Some(3),
        statistics: None,
    };
    let body = Vec::from_slice(alloc, body)?;
    let descriptor = descriptor(alloc, physical_type, place);
    Ok(DataPage::new(DataPageHeader::V1(header), body, descriptor, None))
}

/// The same as one of a column's pages.
pub fn page(
    alloc: Global,
    physical_type: PhysicalType,
    place: Place,
    num_values: u8,
    form: Form,
    body: &[u8],
) -> Result<Page> {
    let page = data_page(alloc, physical_type, place, num_values, form, body)?;
    Ok(Page::Data(page))
}

/// A source of as many such pages in PLAIN.
pub fn pages(
    alloc: Global,
    physical_type: PhysicalType,
    place: Place,
    num_values: u8,
    body: &[u8],
    count: usize,
) -> Result<VecPages> {
    let mut pages = Vec::new(alloc);
    for _ in 0..count {
        pages.push(page(alloc, physical_type, place, num_values, Form::Plain, body))?;
    }
    Ok(VecPages::new(pages))
}

/// A dictionary page of so many entries, and nothing behind it yet.
pub fn entries(alloc: Global, body: &[u8], count: usize) -> Result<Vec<Result<Page>>> {
    let mut pages = Vec::new(alloc);
    pages.push(Ok(Page::Dict(DictPage::new(Vec::from_slice(alloc, body)?, count, false))))?;
    Ok(pages)
}
