//! The Arrow type of a leaf.
ghost use Rattle.std.specs.Prelude.{◌≡◌, option_map, string_bytes};
ghost use Rattle.std.specs.Option.{option_and_then};
ghost use Rattle.columns_core.specs.View.{type_view};
ghost use Rattle.pq_tree.specs.Views.{unit_view, physical_view, logical_view, converted_view};
ghost use Rattle.pq_tree.specs.TreeViews.{info_view};
ghost use Rattle.schema_from_tree.specs.Answers.{Gives};
ghost use Rattle.schema_from_tree.specs.Leaves.{leaf_type, logical_32, converted_32, logical_64, converted_64, logical_bytes, converted_bytes, fixed_of, unit_of, zone_of};

use columns_base::{PhysicalType, Result};
use columns_core::{DataType, IntervalUnit, TimeUnit};
use pq_tree::{
    ConvertedType, IntegerType, LogicalType, PrimitiveType, TimeUnit as ParquetTimeUnit,
};
use std::alloc::Global;

fn int32_by_logical(logical_type: Option<LogicalType>) -> Option<DataType>
    ensures { option_map type_view result ≡ option_and_then logical_32 (option_map logical_view logical_type) }
{
    match logical_type? {
        LogicalType::Integer(IntegerType::Int8) => Some(DataType::Int8),
        LogicalType::Integer(IntegerType::Int16) => Some(DataType::Int16),
        LogicalType::Integer(IntegerType::UInt8) => Some(DataType::UInt8),
        LogicalType::Integer(IntegerType::UInt16) => Some(DataType::UInt16),
        LogicalType::Integer(IntegerType::UInt32) => Some(DataType::UInt32),
        LogicalType::Integer(_) => Some(DataType::Int32),
        LogicalType::Decimal(precision, scale) => Some(DataType::Decimal(precision, scale)),
        LogicalType::Date => Some(DataType::Date32),
        LogicalType::Time {
            unit: ParquetTimeUnit::Milliseconds,
            ..
        } => Some(DataType::Time32(TimeUnit::Millisecond)),
        LogicalType::Time { .. } => Some(DataType::Int32),
        _ => None,
    }
}

fn int32_by_converted(converted_type: Option<ConvertedType>) -> Option<DataType>
    ensures { option_map type_view result ≡ option_and_then converted_32 (option_map converted_view converted_type) }
{
    match converted_type? {
        ConvertedType::Uint8 => Some(DataType::UInt8),
        ConvertedType::Uint16 => Some(DataType::UInt16),
        ConvertedType::Uint32 => Some(DataType::UInt32),
        ConvertedType::Int8 => Some(DataType::Int8),
        ConvertedType::Int16 => Some(DataType::Int16),
        ConvertedType::Int32 | ConvertedType::Int64 | ConvertedType::Uint64 => {
            Some(DataType::Int32)
        }
        ConvertedType::Date => Some(DataType::Date32),
        ConvertedType::TimeMillis => Some(DataType::Time32(TimeUnit::Millisecond)),
        ConvertedType::Decimal(precision, scale) => Some(DataType::Decimal(precision, scale)),
        _ => None,
    }
}

fn unit_of_parquet(unit: ParquetTimeUnit) -> TimeUnit
    ensures { result ≡ unit_of (unit_view unit) }
{
    match unit {
        ParquetTimeUnit::Milliseconds => TimeUnit::Millisecond,
        ParquetTimeUnit::Microseconds => TimeUnit::Microsecond,
        ParquetTimeUnit::Nanoseconds => TimeUnit::Nanosecond,
    }
}

/// The zone of a timestamp: none where it is local (Parquet format, LogicalTypes, "Timestamp").
fn zone(alloc: Global, is_adjusted_to_utc: bool) -> Result<Option<String>>
    ensures { Gives (option_map string_bytes) result (zone_of is_adjusted_to_utc) }
{
    if !is_adjusted_to_utc {
        return Ok(None);
    }
    Ok(Some(String::from_str(alloc, "+00:00")?))
}

fn int64_by_logical(alloc: Global, logical_type: Option<LogicalType>) -> Result<Option<DataType>>
    ensures { Gives (option_map type_view) result (option_and_then logical_64 (option_map logical_view logical_type)) }
{
    let Some(logical_type) = logical_type else {
        return Ok(None);
    };
    match logical_type {
        LogicalType::Timestamp {
            unit,
            is_adjusted_to_utc,
        } => Ok(Some(DataType::Timestamp(unit_of_parquet(unit), zone(alloc, is_adjusted_to_utc)?))),
        LogicalType::Integer(IntegerType::UInt64) => Ok(Some(DataType::UInt64)),
        LogicalType::Integer(_) => Ok(Some(DataType::Int64)),
        LogicalType::Time {
            unit: ParquetTimeUnit::Milliseconds,
            ..
        } => Ok(Some(DataType::Int64)),
        LogicalType::Time { unit, .. } => Ok(Some(DataType::Time64(unit_of_parquet(unit)))),
        LogicalType::Decimal(precision, scale) => Ok(Some(DataType::Decimal(precision, scale))),
        _ => Ok(None),
    }
}

fn int64_by_converted(converted_type: Option<ConvertedType>) -> Option<DataType>
    ensures { option_map type_view result ≡ option_and_then converted_64 (option_map converted_view converted_type) }
{
    match converted_type? {
        ConvertedType::TimeMicros => Some(DataType::Time64(TimeUnit::Microsecond)),
        ConvertedType::TimestampMillis => Some(DataType::Timestamp(TimeUnit::Millisecond, None)),
        ConvertedType::TimestampMicros => Some(DataType::Timestamp(TimeUnit::Microsecond, None)),
        ConvertedType::Int8 | ConvertedType::Int16 | ConvertedType::Int32 | ConvertedType::Int64 =>
            { Some(DataType::Int64) }
        ConvertedType::Uint64 => Some(DataType::UInt64),
        ConvertedType::Uint8 | ConvertedType::Uint16 | ConvertedType::Uint32 => {
            Some(DataType::Int64)
        }
        ConvertedType::Decimal(precision, scale) => Some(DataType::Decimal(precision, scale)),
        _ => None,
    }
}

fn bytes_by_logical(logical_type: Option<LogicalType>) -> Option<DataType>
    ensures { option_map type_view result ≡ option_and_then logical_bytes (option_map logical_view logical_type) }
{
    match logical_type? {
        LogicalType::String => Some(DataType::Utf8),
        LogicalType::Json | LogicalType::Bson | LogicalType::Enum => Some(DataType::Binary),
        _ => None,
    }
}

fn bytes_by_converted(converted_type: Option<ConvertedType>) -> Option<DataType>
    ensures { option_map type_view result ≡ option_and_then converted_bytes (option_map converted_view converted_type) }
{
    match converted_type? {
        ConvertedType::Json | ConvertedType::Bson | ConvertedType::Enum => Some(DataType::Binary),
        ConvertedType::Utf8 => Some(DataType::Utf8),
        _ => None,
    }
}

fn fixed_by_annotations(
    logical_type: Option<LogicalType>,
    converted_type: Option<ConvertedType>,
) -> Option<DataType>
    ensures { option_map type_view result ≡ fixed_of (option_map logical_view logical_type)
        (option_map converted_view converted_type) }
{
    match (logical_type, converted_type) {
        (Some(LogicalType::Decimal(precision, scale)), _) => Some(DataType::Decimal(
            precision, scale,
        )),
        (None, Some(ConvertedType::Decimal(precision, scale))) => Some(DataType::Decimal(
            precision, scale,
        )),
        (None, Some(ConvertedType::Interval)) => Some(DataType::Interval(IntervalUnit::DayTime)),
        _ => None,
    }
}

/// The type of the leaf's values, repeated or not.
pub fn type_of_leaf(alloc: Global, leaf: &PrimitiveType) -> Result<DataType>
    ensures { Gives type_view result (leaf_type
        (info_view leaf.now.field_info leaf.now.converted_type leaf.now.logical_type)
        (physical_view leaf.now.physical_type)) }
{
    Ok(match leaf.physical_type {
        PhysicalType::Boolean => DataType::Boolean,
        PhysicalType::Int32 => int32_by_logical(leaf.logical_type)
            .or(int32_by_converted(leaf.converted_type))
            .unwrap_or(DataType::Int32),
        PhysicalType::Int64 => int64_by_logical(alloc, leaf.logical_type)?
            .or(int64_by_converted(leaf.converted_type))
            .unwrap_or(DataType::Int64),
        PhysicalType::Int96 => DataType::Timestamp(TimeUnit::Nanosecond, None),
        PhysicalType::Float => DataType::Float32,
        PhysicalType::Double => DataType::Float64,
        PhysicalType::ByteArray => bytes_by_logical(leaf.logical_type)
            .or(bytes_by_converted(leaf.converted_type))
            .unwrap_or(DataType::Binary),
        PhysicalType::FixedLenByteArray(length) => fixed_by_annotations(
            leaf.logical_type,
            leaf.converted_type,
        ).unwrap_or(DataType::FixedSizeBinary(length)),
    })
}
