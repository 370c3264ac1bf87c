//! Writing a schema.

ghost use Rattle.std.specs.Prelude.{◌≡◌, ◌++◌, ◌∷◌, [], OnOk, option_map, string_bytes, ℤ, List};
ghost use Rattle.columns_core.specs.View.{type_view, field_view, fields_view, schema_view};
ghost use Rattle.schema_codec.specs.Tags.{tag_number, unit_number, interval_number};
ghost use Rattle.schema_codec.specs.Spelling.{count_bytes, size_bytes, truth_bytes, text_bytes, optional_text_bytes, ids_bytes, type_bytes, field_bytes, fields_bytes, count, plain_bytes};

use crate::meta::push_metadata;
use crate::tag::{number_of_interval_unit, number_of_key_type, number_of_unit};
use columns_core::{DataType, Field, IntervalUnit, Schema, TimeUnit};
use std::alloc::AllocError;

#[tactic(auto, unfolding(crate::specs::Spelling::count_bytes))]
pub fn push_count(out: &mut Vec<u8>, count: usize) -> Result<(), AllocError>
    ensures { OnOk result (out.new.items ≡ out.old.items ++ count_bytes count) }
{
    let low = (count % (1 << 32)) as u32;
    out.extend_from_slice(&low.to_le_bytes())
}

#[tactic(auto, unfolding(crate::specs::Spelling::size_bytes))]
fn push_size(out: &mut Vec<u8>, size: usize) -> Result<(), AllocError>
    ensures { OnOk result (out.new.items ≡ out.old.items ++ size_bytes size) }
{
    out.extend_from_slice(&size.to_le_bytes())
}

fn push_truth(out: &mut Vec<u8>, truth: bool) -> Result<(), AllocError>
    ensures { OnOk result (out.new.items ≡ out.old.items ++ truth_bytes truth) }
{
    out.push(if truth { 1 } else { 0 })?;
    Ok(())
}

pub fn push_text(out: &mut Vec<u8>, text: &str) -> Result<(), AllocError>
    ensures { OnOk result (out.new.items ≡ out.old.items ++ text_bytes text.now) }
{
    push_count(out, text.len())?;
    out.extend_from_slice(text.as_bytes())
}

fn push_optional_text(out: &mut Vec<u8>, text: &Option<String>) -> Result<(), AllocError>
    ensures { OnOk result (out.new.items ≡ out.old.items ++ optional_text_bytes (option_map string_bytes text.now)) }
{
    match text {
        None => {
            out.push(0)?;
            Ok(())
        }
        Some(text) => {
            out.push(1)?;
            push_text(out, text.as_str())
        }
    }
}

fn push_ids(out: &mut Vec<u8>, ids: &Option<Vec<i32>>) -> Result<(), AllocError>
    ensures { OnOk result (out.new.items ≡ out.old.items ++ ids_bytes (option_map (λ v. v.items) ids.now)) }
{
    let Some(ids) = ids else {
        out.push(0)?;
        return Ok(());
    };
    out.push(1)?;
    push_count(out, ids.len())?;
    for id in ids {
        push_count(out, id.cast_unsigned() as usize)?;
    }
    Ok(())
}

/// The number of a type in front of its parts.
fn tag(data_type: &DataType) -> u8
    ensures { result ≡ tag_number (type_view data_type.now) }
{
    match data_type {
        DataType::Null => 0,
        DataType::Boolean => 1,
        DataType::Int8 => 2,
        DataType::Int16 => 3,
        DataType::Int32 => 4,
        DataType::Int64 => 5,
        DataType::UInt8 => 6,
        DataType::UInt16 => 7,
        DataType::UInt32 => 8,
        DataType::UInt64 => 9,
        DataType::Float16 => 10,
        DataType::Float32 => 11,
        DataType::Float64 => 12,
        DataType::Timestamp(..) => 13,
        DataType::Date32 => 14,
        DataType::Date64 => 15,
        DataType::Time32(_) => 16,
        DataType::Time64(_) => 17,
        DataType::Duration(_) => 18,
        DataType::Interval(_) => 19,
        DataType::Binary => 20,
        DataType::FixedSizeBinary(_) => 21,
        DataType::LargeBinary => 22,
        DataType::Utf8 => 23,
        DataType::LargeUtf8 => 24,
        DataType::List(_) => 25,
        DataType::FixedSizeList(..) => 26,
        DataType::LargeList(_) => 27,
        DataType::Struct(_) => 28,
        DataType::Union(..) => 29,
        DataType::Map(..) => 30,
        DataType::Dictionary(..) => 31,
        DataType::Decimal(..) => 32,
        DataType::Decimal256(..) => 33,
        DataType::Extension(..) => 34,
    }
}

fn push_unit(out: &mut Vec<u8>, unit: TimeUnit) -> Result<(), AllocError>
    ensures { OnOk result (out.new.items ≡ out.old.items ++ unit_number unit ∷ []) }
{
    out.push(number_of_unit(unit))?;
    Ok(())
}

fn push_interval_unit(out: &mut Vec<u8>, unit: IntervalUnit) -> Result<(), AllocError>
    ensures { OnOk result (out.new.items ≡ out.old.items ++ interval_number unit ∷ []) }
{
    out.push(number_of_interval_unit(unit))?;
    Ok(())
}

fn push_sizes(out: &mut Vec<u8>, first: usize, second: usize) -> Result<(), AllocError>
    ensures { OnOk result (out.new.items ≡ out.old.items ++ (size_bytes first ++ size_bytes second)) }
{
    push_size(out, first)?;
    push_size(out, second)
}

fn push_timestamp(
    out: &mut Vec<u8>,
    unit: TimeUnit,
    zone: &Option<String>,
) -> Result<(), AllocError>
    ensures { OnOk result (out.new.items ≡ out.old.items ++ unit_number unit
        ∷ optional_text_bytes (option_map string_bytes zone.now)) }
{
    push_unit(out, unit)?;
    push_optional_text(out, zone)
}

/// A type: its tag and its parts.
#[cycle(write)]
fn push_type(out: &mut Vec<u8>, data_type: &DataType) -> Result<(), AllocError>
    ensures { OnOk result (out.new.items ≡ out.old.items ++ type_bytes (type_view data_type.now)) }
{
    out.push(tag(data_type))?;
    match data_type {
        DataType::Timestamp(unit, zone) => push_timestamp(out, *unit, zone),
        DataType::Time32(unit) => push_unit(out, *unit),
        DataType::Time64(unit) => push_unit(out, *unit),
        DataType::Duration(unit) => push_unit(out, *unit),
        DataType::Interval(unit) => push_interval_unit(out, *unit),
        DataType::FixedSizeBinary(size) => push_size(out, *size),
        DataType::List(item) => push_field(out, item),
        DataType::FixedSizeList(item, size) => {
            push_field(out, item)?;
            push_size(out, *size)
        }
        DataType::LargeList(item) => push_field(out, item),
        DataType::Struct(fields) => push_fields(out, fields),
        DataType::Union(fields, ids, is_sparse) => {
            push_fields(out, fields)?;
            push_ids(out, ids)?;
            push_truth(out, *is_sparse)
        }
        DataType::Map(entry, is_sorted) => {
            push_field(out, entry)?;
            push_truth(out, *is_sorted)
        }
        DataType::Dictionary(key, value, is_sorted) => {
            out.push(number_of_key_type(*key))?;
            push_type(out, value)?;
            push_truth(out, *is_sorted)
        }
        DataType::Decimal(precision, scale) => push_sizes(out, *precision, *scale),
        DataType::Decimal256(precision, scale) => push_sizes(out, *precision, *scale),
        DataType::Extension(name, inner, metadata) => {
            push_text(out, name.as_str())?;
            push_type(out, inner)?;
            push_optional_text(out, metadata)
        }
        _ => Ok(()),
    }
}

#[cycle(write)]
fn push_field(out: &mut Vec<u8>, field: &Field) -> Result<(), AllocError>
    ensures { OnOk result (out.new.items ≡ out.old.items ++ field_bytes (field_view field.now)) }
{
    push_text(out, field.name.as_str())?;
    push_truth(out, field.is_nullable)?;
    push_type(out, &field.data_type)?;
    push_metadata(out, &field.metadata)
}

/// The count of the fields, and the fields.
#[cycle(write)]
fn push_fields(out: &mut Vec<u8>, fields: &Vec<Field>) -> Result<(), AllocError>
    ensures { OnOk result (out.new.items ≡ out.old.items
        ++ (count_bytes (count (fields_view fields.now.items)) ++ fields_bytes (fields_view fields.now.items))) }
{
    push_count(out, fields.len())?;
    for field in fields {
        push_field(out, field)?;
    }
    Ok(())
}

/// Appends the bytes of the schema.
pub fn push_schema(out: &mut Vec<u8>, schema: &Schema) -> Result<(), AllocError>
    ensures { OnOk result (out.new.items ≡ out.old.items ++ plain_bytes (schema_view schema.now)) }
{
    push_fields(out, &schema.fields)?;
    push_metadata(out, &schema.metadata)
}
