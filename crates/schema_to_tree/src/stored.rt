//! What the leaves of a tree are stored as.
ghost use Rattle.std.specs.Prelude.{◌≡◌, ◌≤◌, false, Some, None, option_map, string_bytes};
ghost use Rattle.columns_core.specs.View.{type_view};
ghost use Rattle.columns_core.specs.declared.types.IntervalUnit.TheVariants.{YearMonth};
ghost use Rattle.columns_core.specs.Tree.{t_null, t_utf8, t_date32, t_interval, t_time32, t_time64, t_timestamp, t_fixed_size_binary, t_decimal};
ghost use Rattle.pq_tree.specs.Types.{Logical};
ghost use Rattle.pq_tree.specs.Views.{physical_view, converted_view, unit_view, integer_view};
ghost use Rattle.schema_to_tree.specs.Table as table;
ghost use Rattle.schema_to_tree.specs.Faults.{Gives, leaf_fault};
ghost use Rattle.schema_to_tree.specs.StoredViews.{stored_view};

use crate::decimals::decimal_length_from_precision;
use columns_base::{A, Error, N, PhysicalType, Result};
use columns_core::{DataType, TimeUnit};
use pq_tree::{ConvertedType, IntegerType, LogicalType, TimeUnit as ParquetUnit};

/// The physical type of a leaf and its annotations (Parquet format, LogicalTypes).
#[derive(Clone, Copy, Debug, PartialEq, Eq)]
pub struct StoredAs {
    pub physical_type: PhysicalType,
    pub converted_type: Option<ConvertedType>,
    pub logical_type: Option<LogicalType>,
}

const UNWRITTEN: Error = Error::NotYetImplemented(N::N5);

/// Numbers or bytes that say no more of themselves.
fn bare(physical_type: PhysicalType) -> StoredAs
    ensures { stored_view result ≡ table.bare (physical_view physical_type) }
{
    StoredAs {
        physical_type,
        converted_type: None,
        logical_type: None,
    }
}

/// Whole numbers that say their width and sign.
fn whole(
    physical_type: PhysicalType,
    converted_type: ConvertedType,
    integer: IntegerType,
) -> StoredAs
    ensures { stored_view result ≡ table.stored (physical_view physical_type) (Some (converted_view converted_type))
        (Some (integer_view integer)) }
{
    StoredAs {
        physical_type,
        converted_type: Some(converted_type),
        logical_type: Some(LogicalType::Integer(integer)),
    }
}

fn text() -> StoredAs
    ensures { stored_view result ≡ table.stored_as t_utf8 }
{
    StoredAs {
        physical_type: PhysicalType::ByteArray,
        converted_type: Some(ConvertedType::Utf8),
        logical_type: Some(LogicalType::String),
    }
}

fn date() -> StoredAs
    ensures { stored_view result ≡ table.stored_as t_date32 }
{
    StoredAs {
        physical_type: PhysicalType::Int32,
        converted_type: Some(ConvertedType::Date),
        logical_type: Some(LogicalType::Date),
    }
}

fn interval() -> StoredAs
    ensures { stored_view result ≡ table.stored_as (t_interval YearMonth) }
{
    StoredAs {
        physical_type: PhysicalType::FixedLenByteArray(12),
        converted_type: Some(ConvertedType::Interval),
        logical_type: None,
    }
}

fn unknown() -> StoredAs
    ensures { stored_view result ≡ table.stored_as t_null }
{
    StoredAs {
        physical_type: PhysicalType::Int32,
        converted_type: None,
        logical_type: Some(LogicalType::Unknown),
    }
}

/// A zone that is there and not empty.
fn is_zoned(zone: &Option<String>) -> bool
    ensures { result ≡ table.has_zone (option_map string_bytes zone.now) }
{
    match zone {
        Some(zone) => !zone.is_empty(),
        None => false,
    }
}

fn timestamp(unit: TimeUnit, zone: &Option<String>) -> StoredAs
    ensures { stored_view result ≡ table.stored_as (t_timestamp unit (option_map string_bytes zone.now)) }
{
    let unit = match unit {
        TimeUnit::Second => return bare(PhysicalType::Int64),
        TimeUnit::Millisecond => ParquetUnit::Milliseconds,
        TimeUnit::Microsecond => ParquetUnit::Microseconds,
        TimeUnit::Nanosecond => ParquetUnit::Nanoseconds,
    };
    StoredAs {
        physical_type: PhysicalType::Int64,
        converted_type: None,
        logical_type: Some(LogicalType::Timestamp {
            unit,
            is_adjusted_to_utc: is_zoned(zone),
        }),
    }
}

/// A time of day, which is never adjusted.
fn time(
    physical_type: PhysicalType,
    converted_type: Option<ConvertedType>,
    unit: ParquetUnit,
) -> StoredAs
    ensures { stored_view result ≡ table.stored (physical_view physical_type) (option_map converted_view converted_type)
        (Some (Logical.time false (unit_view unit))) }
{
    StoredAs {
        physical_type,
        converted_type,
        logical_type: Some(LogicalType::Time {
            unit,
            is_adjusted_to_utc: false,
        }),
    }
}

fn time32(unit: TimeUnit) -> Result<StoredAs>
    ensures { Gives stored_view (table.stored_as (t_time32 unit)) (leaf_fault (t_time32 unit)) result }
{
    match unit {
        TimeUnit::Second => Ok(bare(PhysicalType::Int32)),
        TimeUnit::Millisecond => Ok(time(
            PhysicalType::Int32,
            Some(ConvertedType::TimeMillis),
            ParquetUnit::Milliseconds,
        )),
        _ => Err(UNWRITTEN),
    }
}

fn time64(unit: TimeUnit) -> Result<StoredAs>
    ensures { Gives stored_view (table.stored_as (t_time64 unit)) (leaf_fault (t_time64 unit)) result }
{
    match unit {
        TimeUnit::Microsecond => Ok(time(
            PhysicalType::Int64,
            Some(ConvertedType::TimeMicros),
            ParquetUnit::Microseconds,
        )),
        TimeUnit::Nanosecond => Ok(time(PhysicalType::Int64, None, ParquetUnit::Nanoseconds)),
        _ => Err(Error::InvalidArgumentError(A::A6)),
    }
}

/// Bytes of a fixed number, which a file counts in 31 bits.
fn fixed(size: usize) -> Result<StoredAs>
    ensures { Gives stored_view (table.stored_as (t_fixed_size_binary size))
        (leaf_fault (t_fixed_size_binary size)) result }
{
    if size == 0 || size >= 1 << 31 {
        return Err(UNWRITTEN);
    }
    Ok(bare(PhysicalType::FixedLenByteArray(size)))
}

fn decimal_physical(precision: usize) -> PhysicalType
    requires from_one { 1 ≤ precision }
    requires to_38 { precision ≤ 38 }
    ensures { physical_view result ≡ table.decimal_physical precision }
{
    if precision <= 9 {
        PhysicalType::Int32
    } else if precision <= 18 {
        PhysicalType::Int64
    } else {
        PhysicalType::FixedLenByteArray(decimal_length_from_precision(precision))
    }
}

fn decimal(precision: usize, scale: usize) -> Result<StoredAs>
    ensures { Gives stored_view (table.stored_as (t_decimal precision scale))
        (leaf_fault (t_decimal precision scale)) result }
{
    if precision < 1 || precision > 38 || scale > precision {
        return Err(Error::InvalidArgumentError(A::A5));
    }
    Ok(StoredAs {
        physical_type: decimal_physical(precision),
        converted_type: Some(ConvertedType::Decimal(precision, scale)),
        logical_type: Some(LogicalType::Decimal(precision, scale)),
    })
}

/// What a leaf of the type is stored as. A5 for a decimal outside its ranges, A6 for a 64-bit time of seconds or
/// milliseconds, N5 for a type that is not written.
pub fn stored_as(data_type: &DataType) -> Result<StoredAs>
    requires { table.is_compound (type_view data_type.now) ≡ false }
    ensures { Gives stored_view (table.stored_as (type_view data_type.now))
        (leaf_fault (type_view data_type.now)) result }
{
    let (int32, int64) = (PhysicalType::Int32, PhysicalType::Int64);
    match data_type {
        DataType::Null => Ok(unknown()),
        DataType::Boolean => Ok(bare(PhysicalType::Boolean)),
        DataType::Int8 => Ok(whole(int32, ConvertedType::Int8, IntegerType::Int8)),
        DataType::Int16 => Ok(whole(int32, ConvertedType::Int16, IntegerType::Int16)),
        DataType::UInt8 => Ok(whole(int32, ConvertedType::Uint8, IntegerType::UInt8)),
        DataType::UInt16 => Ok(whole(int32, ConvertedType::Uint16, IntegerType::UInt16)),
        DataType::Int32 => Ok(bare(int32)),
        DataType::UInt32 => Ok(whole(int32, ConvertedType::Uint32, IntegerType::UInt32)),
        DataType::UInt64 => Ok(whole(int64, ConvertedType::Uint64, IntegerType::UInt64)),
        DataType::Int64 | DataType::Date64 | DataType::Duration(_) => Ok(bare(int64)),
        DataType::Float32 => Ok(bare(PhysicalType::Float)),
        DataType::Float64 => Ok(bare(PhysicalType::Double)),
        DataType::Binary | DataType::LargeBinary => Ok(bare(PhysicalType::ByteArray)),
        DataType::Utf8 | DataType::LargeUtf8 => Ok(text()),
        DataType::Date32 => Ok(date()),
        DataType::Timestamp(unit, zone) => Ok(timestamp(*unit, zone)),
        DataType::Time32(unit) => time32(*unit),
        DataType::Time64(unit) => time64(*unit),
        DataType::Interval(_) => Ok(interval()),
        DataType::FixedSizeBinary(size) => fixed(*size),
        DataType::Decimal(precision, scale) => decimal(*precision, *scale),
        DataType::Float16 | DataType::Decimal256(_, _) | DataType::Union(_, _, _) => Err(UNWRITTEN),
        // Types of parts, which the caller takes apart.
        DataType::List(_) | DataType::LargeList(_) | DataType::FixedSizeList(_, _) => Err(
            UNWRITTEN,
        ),
        DataType::Struct(_) | DataType::Map(_, _) => Err(UNWRITTEN),
        DataType::Dictionary(_, _, _) | DataType::Extension(_, _, _) => Err(UNWRITTEN),
    }
}
