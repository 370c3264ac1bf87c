//! Which schemas a message expresses.

ghost use Rattle.std.specs.Prelude.{◌≡◌};
ghost use Rattle.columns_core.specs.View.{type_view, field_view, fields_view, schema_view};
ghost use Rattle.schema_fb.specs.Tables.{is_small, is_type, is_field, are_fields, is_expressible};

use crate::entries::holds_key;
use columns_core::{DataType, Field, Schema};

/// A size in a message is a signed number of 32 bits.
const MAX_SIZE: usize = 2_147_483_647;

fn is_small(size: usize) -> bool
    ensures { result ≡ is_small size }
{
    size <= MAX_SIZE
}

/// Whether a message expresses the schema.
pub fn is_expressible(schema: &Schema) -> bool
    ensures { result ≡ is_expressible (schema_view schema.now) }
{
    are_fields(&schema.fields)
}

/// Whether a type can stand where an extension and a dictionary may stand or may not.
#[cycle(expressible)]
fn is_type(data_type: &DataType, may_extend: bool, may_index: bool) -> bool
    ensures { result ≡ is_type (type_view data_type.now) may_extend may_index }
{
    match data_type {
        DataType::FixedSizeBinary(size) => is_small(*size),
        DataType::List(item) => is_field(item),
        DataType::FixedSizeList(item, size) => is_field(item) && is_small(*size),
        DataType::LargeList(item) => is_field(item),
        DataType::Struct(fields) => are_fields(fields),
        DataType::Union(fields, _, _) => are_fields(fields),
        DataType::Map(entry, _) => is_field(entry),
        DataType::Dictionary(_, value, _) => may_index && is_type(value, false, false),
        DataType::Decimal(precision, scale) => is_small(*precision) && is_small(*scale),
        DataType::Decimal256(precision, scale) => is_small(*precision) && is_small(*scale),
        DataType::Extension(_, inner, _) => may_extend && is_type(inner, false, may_index),
        _ => true,
    }
}

#[cycle(expressible)]
fn is_field(field: &Field) -> bool
    ensures { result ≡ is_field (field_view field.now) }
{
    !holds_key(&field.metadata) && is_type(&field.data_type, true, true)
}

#[cycle(expressible)]
fn are_fields(fields: &Vec<Field>) -> bool
    ensures { result ≡ are_fields (fields_view fields.now.items) }
{
    for field in fields {
        if !is_field(field) {
            return false;
        }
    }
    true
}
