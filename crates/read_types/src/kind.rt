//! The kinds of leaves.
ghost use Rattle.std.specs.Prelude.{◌≡◌, true, false, MatchOption, ◌&&◌, nat_le};
ghost use Rattle.columns_core.specs.Shapes.{base};
ghost use Rattle.columns_core.specs.View.{type_view};
ghost use Rattle.columns_slots.specs.Types.{is_boolean};
ghost use Rattle.pq_tree.specs.Physical.{boolean, int32, int64, byte_array, fixed};
ghost use Rattle.pq_tree.specs.Views.{physical_view};
ghost use Rattle.read_types.specs.LeafTypes.{is_read, reads_chunks, reads_decimal, reads_fixed, reads_interval, reads_small, reads_string, reads_wide};
ghost use Rattle.read_types.specs.Reads.{physical_of, types_of};
ghost use Rattle.schema_fit.specs.PageTable.{is_stored_length};

use columns_base::PhysicalType;
use columns_core::{DataType, IntervalUnit, TimeUnit};

/// How the values of a leaf are read: as truth values or as which numbers or strings, and from which physical type.
#[derive(Clone, Copy, Debug, PartialEq, Eq)]
pub enum LeafKind {
    Boolean,
    /// Nulls alone, stored as no number of 32 bits.
    Null,
    Int8,
    Int16,
    /// Dates and times of 32 bits too.
    Int32,
    UInt8,
    UInt16,
    UInt32,
    /// Dates, times, timestamps and durations of 64 bits too.
    Int64,
    /// Decimals of 128 bits, stored as numbers of 32 bits.
    Decimal,
    /// Decimals of 128 bits, stored as numbers of 64 bits.
    WideDecimal,
    /// Numbers of 32 bits without a sign, stored as numbers of 64 bits.
    WideUInt32,
    UInt64,
    Utf8,
    LargeUtf8,
    Binary,
    LargeBinary,
    /// Decimals of 128 bits, stored as so many bytes: one to sixteen.
    FixedDecimal(usize),
    /// Intervals of months, stored as twelve bytes.
    Months,
    /// Intervals of days and milliseconds, stored as twelve bytes.
    Days,
    /// Byte strings of so many bytes, stored as they are.
    FixedSizeBinary(usize),
}

// Of the type that is stored as truth values.
fn truth_kind(data_type: &DataType) -> Option<LeafKind>
    ensures { MatchOption result (is_boolean (type_view data_type.now) ≡ false) (λ k. (physical_of k ≡ boolean)
        × (types_of k (type_view data_type.now) ≡ true) × (is_boolean (type_view data_type.now) ≡ true)) }
{
    match data_type {
        DataType::Boolean => Some(LeafKind::Boolean),
        _ => None,
    }
}

// Of types that are stored as numbers of 32 bits.
fn small_kind(data_type: &DataType) -> Option<LeafKind>
    ensures { MatchOption result (reads_small (type_view data_type.now) ≡ false) (λ k. (physical_of k ≡ int32)
        × (types_of k (type_view data_type.now) ≡ true) × (reads_small (type_view data_type.now) ≡ true)) }
{
    match data_type {
        DataType::Int8 => Some(LeafKind::Int8),
        DataType::Int16 => Some(LeafKind::Int16),
        DataType::Int32
        | DataType::Date32
        | DataType::Time32(TimeUnit::Second)
        | DataType::Time32(TimeUnit::Millisecond) => Some(LeafKind::Int32),
        DataType::UInt8 => Some(LeafKind::UInt8),
        DataType::UInt16 => Some(LeafKind::UInt16),
        DataType::UInt32 => Some(LeafKind::UInt32),
        DataType::Decimal(_, _) => Some(LeafKind::Decimal),
        DataType::Null => Some(LeafKind::Null),
        _ => None,
    }
}

// Of types that are stored as numbers of 64 bits.
fn wide_kind(data_type: &DataType) -> Option<LeafKind>
    ensures { MatchOption result (reads_wide (type_view data_type.now) ≡ false) (λ k. (physical_of k ≡ int64)
        × (types_of k (type_view data_type.now) ≡ true) × (reads_wide (type_view data_type.now) ≡ true)) }
{
    match data_type {
        DataType::UInt32 => Some(LeafKind::WideUInt32),
        DataType::Int64
        | DataType::Date64
        | DataType::Time64(TimeUnit::Microsecond)
        | DataType::Time64(TimeUnit::Nanosecond)
        | DataType::Timestamp(_, _)
        | DataType::Duration(_) => Some(LeafKind::Int64),
        DataType::UInt64 => Some(LeafKind::UInt64),
        DataType::Decimal(_, _) => Some(LeafKind::WideDecimal),
        _ => None,
    }
}

// Of types that are stored as byte strings.
fn string_kind(data_type: &DataType) -> Option<LeafKind>
    ensures { MatchOption result (reads_string (type_view data_type.now) ≡ false) (λ k. (physical_of k ≡ byte_array)
        × (types_of k (type_view data_type.now) ≡ true) × (reads_string (type_view data_type.now) ≡ true)) }
{
    match data_type {
        DataType::Utf8 => Some(LeafKind::Utf8),
        DataType::LargeUtf8 => Some(LeafKind::LargeUtf8),
        DataType::Binary => Some(LeafKind::Binary),
        DataType::LargeBinary => Some(LeafKind::LargeBinary),
        _ => None,
    }
}

// Of intervals, which are stored as twelve bytes.
fn interval_kind(data_type: &DataType) -> Option<LeafKind>
    ensures { MatchOption result (reads_interval (type_view data_type.now) ≡ false) (λ k. (physical_of k ≡ fixed 12)
        × (types_of k (type_view data_type.now) ≡ true) × (reads_interval (type_view data_type.now) ≡ true)) }
{
    match data_type {
        DataType::Interval(IntervalUnit::YearMonth) => Some(LeafKind::Months),
        DataType::Interval(IntervalUnit::DayTime) => Some(LeafKind::Days),
        _ => None,
    }
}

// Of decimals, which are stored as one to sixteen bytes.
fn decimal_kind(data_type: &DataType, size: usize) -> Option<LeafKind>
    requires { (nat_le 1 size && nat_le size 16) ≡ true }
    ensures { MatchOption result (reads_decimal (type_view data_type.now) ≡ false) (λ k. (physical_of k ≡ fixed size)
        × (types_of k (type_view data_type.now) ≡ true) × (reads_decimal (type_view data_type.now) ≡ true)) }
{
    match data_type {
        DataType::Decimal(_, _) => Some(LeafKind::FixedDecimal(size)),
        _ => None,
    }
}

// Whether decimals are stored as so many bytes.
fn holds_decimals(size: usize) -> bool
    ensures { result ≡ (nat_le 1 size && nat_le size 16) }
{
    1 <= size && size <= 16
}

// Whether byte strings are stored as so many bytes: from 1 to 2^31 - 1.
fn holds_chunks(size: usize) -> bool
    ensures { result ≡ is_stored_length size }
{
    1 <= size && size <= 2_147_483_647
}

// Of byte strings of one size, which are stored as they are.
fn chunk_kind(data_type: &DataType, size: usize) -> Option<LeafKind>
    ensures { MatchOption result (reads_chunks size (type_view data_type.now) ≡ false)
        (λ k. (physical_of k ≡ fixed size) × (types_of k (type_view data_type.now) ≡ true)
        × (reads_chunks size (type_view data_type.now) ≡ true)) }
{
    match data_type {
        DataType::FixedSizeBinary(length) => {
            if size != *length {
                return None;
            }
            if !holds_chunks(size) {
                return None;
            }
            Some(LeafKind::FixedSizeBinary(size))
        }
        _ => None,
    }
}

// Of types that are stored as so many bytes.
fn fixed_kind(data_type: &DataType, size: usize) -> Option<LeafKind>
    ensures { MatchOption result (reads_fixed size (type_view data_type.now) ≡ false) (λ k. (physical_of k ≡ fixed size)
        × (types_of k (type_view data_type.now) ≡ true) × (reads_fixed size (type_view data_type.now) ≡ true)) }
{
    match data_type {
        DataType::Interval(_) => {
            if size != 12 {
                return None;
            }
            interval_kind(data_type)
        }
        DataType::Decimal(_, _) => {
            if !holds_decimals(size) {
                return None;
            }
            decimal_kind(data_type, size)
        }
        DataType::FixedSizeBinary(_) => chunk_kind(data_type, size),
        _ => None,
    }
}

impl LeafKind {
    /// How a leaf of this type under this physical type is read; none where it is not read yet.
    pub fn of(data_type: &DataType, physical_type: PhysicalType) -> Option<LeafKind>
        ensures { MatchOption result (is_read (base (type_view data_type.now)) (physical_view physical_type) ≡ false)
            (λ k. (physical_of k ≡ physical_view physical_type)
            × (types_of k (base (type_view data_type.now)) ≡ true)
            × (is_read (base (type_view data_type.now)) (physical_view physical_type) ≡ true)) }
    {
        match physical_type {
            PhysicalType::Boolean => truth_kind(data_type.base()),
            PhysicalType::Int32 => small_kind(data_type.base()),
            PhysicalType::Int64 => wide_kind(data_type.base()),
            PhysicalType::ByteArray => string_kind(data_type.base()),
            PhysicalType::FixedLenByteArray(size) => fixed_kind(data_type.base(), size),
            _ => None,
        }
    }
}
