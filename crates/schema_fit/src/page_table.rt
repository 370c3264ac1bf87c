//! How the values of an Arrow type are stored.
ghost use Rattle.std.specs.Prelude.{◌≡◌, option_map};
ghost use Rattle.columns_core.specs.View.{type_view};
ghost use Rattle.pq_tree.specs.Views.{physical_view, unit_view, logical_view, converted_view};
ghost use Rattle.schema_fit.specs.PageTable.{allows, anywhere, only_flat, is_stored_length, value_row, entry_row, row_of, unit_of, annotated_unit, value_unit, type_unit, is_same, no_other_unit, is_allowed, go_together};
ghost use Rattle.schema_fit.specs.Places.{leaf_view};

use columns_base::PhysicalType;
use columns_core::{DataType, IntervalUnit, TimeUnit};
use pq_tree::{ConvertedType, LogicalType, PrimitiveType, TimeUnit as ParquetTimeUnit};

/// The physical types in which values may be stored (Parquet format, `Type`).
#[derive(Clone, Copy)]
pub enum Stored {
    Boolean,
    Int32,
    /// As the bits of an INT32, or as an INT64.
    Int32OrInt64,
    Int64,
    ByteArray,
    /// Fixed arrays of this many bytes.
    Fixed(usize),
    /// INT32, INT64 or fixed arrays of 1 to 16 bytes (Parquet format, LogicalTypes, "DECIMAL").
    Decimal,
}

/// A type whose values pages may have.
#[derive(Clone, Copy)]
pub struct Row {
    pub stored: Stored,
    /// Whether the leaf may stand beneath a list, a map or a struct.
    pub is_nested: bool,
}

/// What is asked of two leaves.
#[derive(Clone, Copy)]
pub enum Asked {
    /// That nothing known of the Arrow type speaks against the stored one.
    Agreement,
    /// That a page may have the values, in a column that is no more than this leaf.
    Flat,
    /// That a page may have the values beneath lists, maps and structs.
    Nested,
}

fn is_allowed_in(stored: Stored, physical_type: PhysicalType) -> bool
    ensures { result ≡ allows stored (physical_view physical_type) }
{
    match (stored, physical_type) {
        (Stored::Boolean, PhysicalType::Boolean) => true,
        (Stored::Int32 | Stored::Int32OrInt64 | Stored::Decimal, PhysicalType::Int32) => true,
        (Stored::Int32OrInt64 | Stored::Int64 | Stored::Decimal, PhysicalType::Int64) => true,
        (Stored::ByteArray, PhysicalType::ByteArray) => true,
        (Stored::Fixed(size), PhysicalType::FixedLenByteArray(length)) => size == length,
        (Stored::Decimal, PhysicalType::FixedLenByteArray(length)) => 1 <= length && length <= 16,
        _ => false,
    }
}

fn anywhere(stored: Stored) -> Option<Row>
    ensures { result ≡ anywhere stored }
{
    Some(Row {
        stored,
        is_nested: true,
    })
}

fn only_flat(stored: Stored) -> Option<Row>
    ensures { result ≡ only_flat stored }
{
    Some(Row {
        stored,
        is_nested: false,
    })
}

// Whether a page may have fixed byte strings of the length (Parquet format, `FIXED_LEN_BYTE_ARRAY`, whose length is an i32).
fn is_stored_length(length: usize) -> bool
    ensures { result ≡ is_stored_length length }
{
    1 <= length && length <= 2_147_483_647
}

/// The row of a type without a dictionary.
fn row_of_values(is_nullable: bool, data_type: &DataType) -> Option<Row>
    ensures { result ≡ value_row is_nullable (type_view data_type.now) }
{
    match data_type {
        DataType::Null => {
            if !is_nullable {
                return None;
            }
            anywhere(Stored::Int32)
        }
        DataType::Boolean => anywhere(Stored::Boolean),
        DataType::Int8 | DataType::Int16 | DataType::Int32 => anywhere(Stored::Int32),
        DataType::UInt8 | DataType::UInt16 | DataType::Date32 => anywhere(Stored::Int32),
        DataType::Time32(TimeUnit::Second | TimeUnit::Millisecond) => anywhere(Stored::Int32),
        DataType::UInt32 => anywhere(Stored::Int32OrInt64),
        DataType::Int64 | DataType::UInt64 | DataType::Date64 => anywhere(Stored::Int64),
        DataType::Duration(_) | DataType::Timestamp(_, _) => anywhere(Stored::Int64),
        DataType::Time64(TimeUnit::Microsecond | TimeUnit::Nanosecond) => anywhere(Stored::Int64),
        DataType::Utf8 | DataType::LargeUtf8 => anywhere(Stored::ByteArray),
        DataType::Binary | DataType::LargeBinary => anywhere(Stored::ByteArray),
        DataType::FixedSizeBinary(size) => {
            if !is_stored_length(*size) {
                return None;
            }
            only_flat(Stored::Fixed(*size))
        }
        DataType::Decimal(_, _) => only_flat(Stored::Decimal),
        DataType::Interval(IntervalUnit::YearMonth | IntervalUnit::DayTime) => {
            only_flat(Stored::Fixed(12))
        }
        DataType::Time32(TimeUnit::Microsecond | TimeUnit::Nanosecond) => None,
        DataType::Time64(TimeUnit::Second | TimeUnit::Millisecond) => None,
        DataType::Interval(IntervalUnit::MonthDayNano) => None,
        DataType::Float16 | DataType::Float32 | DataType::Float64 => None,
        DataType::Decimal256(_, _) | DataType::Dictionary(_, _, _) => None,
        DataType::List(_) | DataType::LargeList(_) | DataType::FixedSizeList(_, _) => None,
        DataType::Struct(_) | DataType::Map(_, _) | DataType::Union(_, _, _) => None,
        DataType::Extension(_, _, _) => None,
    }
}

/// The row of a dictionary's entries.
fn row_of_entries(data_type: &DataType) -> Option<Row>
    ensures { result ≡ entry_row (type_view data_type.now) }
{
    match data_type {
        DataType::Null | DataType::Boolean => None,
        DataType::Decimal(_, _) | DataType::Interval(_) => None,
        DataType::UInt64 | DataType::Timestamp(_, _) => only_flat(Stored::Int64),
        DataType::FixedSizeBinary(size) => {
            if !is_stored_length(*size) {
                return None;
            }
            anywhere(Stored::Fixed(*size))
        }
        _ => row_of_values(true, data_type),
    }
}

fn row_of_leaf(is_nullable: bool, data_type: &DataType) -> Option<Row>
    ensures { result ≡ row_of (record { data_type = type_view data_type.now; is_nullable = is_nullable }) }
{
    match data_type {
        DataType::Dictionary(_, values, _) => row_of_entries(values.base()),
        _ => row_of_values(is_nullable, data_type),
    }
}

fn unit_of_parquet(unit: ParquetTimeUnit) -> TimeUnit
    ensures { result ≡ unit_of (unit_view unit) }
{
    match unit {
        ParquetTimeUnit::Milliseconds => TimeUnit::Millisecond,
        ParquetTimeUnit::Microseconds => TimeUnit::Microsecond,
        ParquetTimeUnit::Nanoseconds => TimeUnit::Nanosecond,
    }
}

/// The unit that a leaf says (Parquet format, LogicalTypes, "Temporal Types").
fn unit_of_annotations(
    logical_type: Option<LogicalType>,
    converted_type: Option<ConvertedType>,
) -> Option<TimeUnit>
    ensures { result ≡ annotated_unit (option_map logical_view logical_type)
        (option_map converted_view converted_type) }
{
    match (logical_type, converted_type) {
        (Some(LogicalType::Time { unit, .. } | LogicalType::Timestamp { unit, .. }), _) => {
            Some(unit_of_parquet(unit))
        }
        (None, Some(ConvertedType::TimeMillis | ConvertedType::TimestampMillis)) => {
            Some(TimeUnit::Millisecond)
        }
        (None, Some(ConvertedType::TimeMicros | ConvertedType::TimestampMicros)) => {
            Some(TimeUnit::Microsecond)
        }
        _ => None,
    }
}

fn unit_of_values(data_type: &DataType) -> Option<TimeUnit>
    ensures { result ≡ value_unit (type_view data_type.now) }
{
    match data_type {
        DataType::Time32(unit) | DataType::Time64(unit) => Some(*unit),
        DataType::Timestamp(unit, _) => Some(*unit),
        _ => None,
    }
}

fn unit_of_type(data_type: &DataType) -> Option<TimeUnit>
    ensures { result ≡ type_unit (type_view data_type.now) }
{
    match data_type {
        DataType::Dictionary(_, values, _) => unit_of_values(values.base()),
        _ => unit_of_values(data_type),
    }
}

fn is_same_unit(unit: TimeUnit, other: TimeUnit) -> bool
    ensures { result ≡ is_same unit other }
{
    match (unit, other) {
        (TimeUnit::Second, TimeUnit::Second) => true,
        (TimeUnit::Millisecond, TimeUnit::Millisecond) => true,
        (TimeUnit::Microsecond, TimeUnit::Microsecond) => true,
        (TimeUnit::Nanosecond, TimeUnit::Nanosecond) => true,
        _ => false,
    }
}

fn are_units_the_same(unit: Option<TimeUnit>, other: Option<TimeUnit>) -> bool
    ensures { result ≡ no_other_unit unit other }
{
    match (unit, other) {
        (Some(unit), Some(other)) => is_same_unit(unit, other),
        _ => true,
    }
}

fn is_row_for(asked: Asked, row: Row) -> bool
    ensures { result ≡ is_allowed asked row }
{
    match asked {
        Asked::Nested => row.is_nested,
        Asked::Agreement | Asked::Flat => true,
    }
}

/// Whether the stored leaf goes together with an Arrow leaf of the type, under a field that may be null or not.
pub fn goes_together(
    asked: Asked,
    is_nullable: bool,
    data_type: &DataType,
    leaf: &PrimitiveType,
) -> bool
    ensures { result ≡ go_together asked (record { data_type = type_view data_type.now; is_nullable = is_nullable })
        (leaf_view leaf.now) }
{
    let Some(row) = row_of_leaf(is_nullable, data_type) else {
        return matches!(asked, Asked::Agreement);
    };
    if !is_row_for(asked, row) {
        return false;
    }
    if !is_allowed_in(row.stored, leaf.physical_type) {
        return false;
    }
    are_units_the_same(
        unit_of_type(data_type),
        unit_of_annotations(leaf.logical_type, leaf.converted_type),
    )
}
