//! Pages of columns, one by one.
ghost use Rattle.pq_pages.specs.DataPages.{IsEncodingNumber};
ghost use Rattle.pq_pages.specs.Outcomes.{HasLevels};

use columns_base::{PhysicalType, Result};
use pq_pages::{DataPage, Page};
use pq_tree::{DataPageHeader, DataPageHeaderV1, Descriptor, FieldInfo, PrimitiveType, Repetition};
use std::alloc::Global;

/// Where the column's leaf stands.
#[derive(Clone, Copy)]
pub enum Place {
    /// A required leaf, whose greatest levels are 0.
    Required,
    /// An optional one.
    Optional,
    /// The optional items of an optional list.
    List,
}

/// The column of a leaf at this place.
pub fn descriptor(alloc: Global, place: Place) -> Descriptor
    ensures { HasLevels result }
{
    Descriptor {
        primitive_type: PrimitiveType {
            field_info: FieldInfo {
                name: String::new(alloc),
                repetition: Repetition::Optional,
                id: None,
            },
            logical_type: None,
            converted_type: None,
            physical_type: PhysicalType::Int32,
        },
        max_def_level: match place {
            Place::Required => 0,
            Place::Optional => 1,
            Place::List => 3,
        },
        max_rep_level: match place {
            Place::Required | Place::Optional => 0,
            Place::List => 1,
        },
    }
}

/// How the values of a page stand.
#[derive(Clone, Copy)]
pub enum Form {
    Plain,
    Deltas,
    /// Byte strings behind their lengths by deltas.
    Lengths,
    /// Indices under the older number.
    OldIndices,
    Indices,
}

/// The number of the encoding.
pub fn encoding(form: Form) -> i32
    ensures { IsEncodingNumber result }
{
    match form {
        Form::Plain => 0,
        Form::OldIndices => 2,
        Form::Deltas => 5,
        Form::Lengths => 6,
        Form::Indices => 8,
    }
}

/// A page of version 1 of so many pairs, whose values stand so.
pub fn page(alloc: Global, place: Place, num_values: u8, form: Form, body: &[u8]) -> Result<Page> {
    let header = DataPageHeaderV1 {
        num_values: i32::from(num_values),
        encoding: encoding(form),
        definition_level_encoding: Some(3),
        repetition_level_encoding: Some(3),
        statistics: None,
    };
    let body = Vec::from_slice(alloc, body)?;
    let descriptor = descriptor(alloc, place);
    Ok(Page::Data(DataPage::new(DataPageHeader::V1(header), body, descriptor, None)))
}
