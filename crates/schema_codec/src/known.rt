//! What holds of every schema in memory.

ghost use Rattle.std.specs.Prelude.{◌≡◌, ◌≤◌, IsUtf8, IfSome, option_map, string_bytes};
ghost use Rattle.columns_core.specs.Measures.{nesting, field_nesting, fields_nesting};
ghost use Rattle.columns_core.specs.View.{type_view, field_view, fields_view, schema_view};
ghost use Rattle.schema_codec.specs.Ranges.{IsMetadata, AreIds, HasRanges, FieldHasRanges, FieldsHaveRanges, IsSchema};

use columns_core::{DataType, Field, Metadata, Schema};

#[tactic(auto, using(crate::proofs::InRange::optional_text))]
fn know_optional_text(text: &Option<String>)
    ensures { IfSome (option_map string_bytes text.now) IsUtf8 }
{
    let _text = text;
}

fn know_numbers(numbers: &[i32])
    ensures { AreIds numbers.now }
{
    for number in numbers {
        let _number = *number;
    }
}

fn know_ids(ids: &Option<Vec<i32>>)
    ensures { IfSome (option_map (λ v. v.items) ids.now) AreIds }
{
    if let Some(ids) = ids {
        know_numbers(ids);
    }
}

fn know_metadata(metadata: &Metadata)
    ensures { IsMetadata metadata.now }
{
    metadata.know();
    let _entries = metadata.iter();
}

#[cycle(know)]
fn know_type(data_type: &DataType)
    requires { nesting (type_view data_type.now) ≤ 128 }
    ensures { HasRanges (type_view data_type.now) }
{
    match data_type {
        DataType::Timestamp(_, zone) => know_optional_text(zone),
        DataType::List(item) => know_field(item),
        DataType::FixedSizeList(item, size) => {
            let _size = *size;
            know_field(item);
        }
        DataType::LargeList(item) => know_field(item),
        DataType::Struct(fields) => know_fields(fields),
        DataType::Union(fields, ids, _) => {
            know_fields(fields);
            know_ids(ids);
        }
        DataType::Map(entry, _) => know_field(entry),
        DataType::Dictionary(_, value, _) => know_type(value),
        DataType::Extension(name, inner, metadata) => {
            let _name = name.as_str();
            know_type(inner);
            know_optional_text(metadata);
        }
        DataType::FixedSizeBinary(size) => {
            let _size = *size;
        }
        DataType::Decimal(precision, scale) => {
            let _numbers = (*precision, *scale);
        }
        DataType::Decimal256(precision, scale) => {
            let _numbers = (*precision, *scale);
        }
        _ => {}
    }
}

#[cycle(know)]
fn know_field(field: &Field)
    requires { field_nesting (field_view field.now) ≤ 128 }
    ensures { FieldHasRanges (field_view field.now) }
{
    let _name = field.name.as_str();
    know_type(&field.data_type);
    know_metadata(&field.metadata);
}

#[cycle(know)]
fn know_fields(fields: &Vec<Field>)
    requires { fields_nesting (fields_view fields.now.items) ≤ 128 }
    ensures { FieldsHaveRanges (fields_view fields.now.items) }
{
    for field in fields {
        know_field(field);
    }
}

/// Callers learn what holds of every schema in memory and its tree does not tell: its sizes are below 2^64, the ids of its
/// unions have 32 bits, its texts are UTF-8, and the keys of its metadata ascend. Its types nest to at most 128.
pub fn know_schema(schema: &Schema)
    requires { fields_nesting (schema_view schema.now).fields ≤ 128 }
    ensures { IsSchema (schema_view schema.now) }
{
    know_fields(&schema.fields);
    know_metadata(&schema.metadata);
}
