//! The leaf arrays whose values are written.
ghost use Rattle.std.specs.Prelude.{◌≡◌, true, false, map, MatchOption};
ghost use Rattle.columns_core.specs.Shapes.{base};
ghost use Rattle.columns_core.specs.View.{type_view};
ghost use Rattle.columns_core.specs.Natives.{value_i128, value_i32, value_u32};
ghost use Rattle.columns_slots.specs.Tree.{leaf_array};
ghost use Rattle.columns_slots.specs.Slots.{type_of};
ghost use Rattle.columns_slots.specs.Types.{is_boolean};
ghost use Rattle.columns_array.specs.Boxed.{boxed};
ghost use Rattle.pq_tree.specs.Views.{physical_view};
ghost use Rattle.write_values.specs.Served.{is_decimal, is_fixed, is_small, is_wide, is_string, is_served};
ghost use Rattle.write_values.specs.Leaf.{HasOrder, IsLeafOf, IsStoredAs, leaf_physical, leaf_tree};

use crate::decimals::DecimalForm;
use columns_array::ArrayBox;
use columns_base::PhysicalType;
use columns_core::{DataType, DaysMs, IntervalUnit, TimeUnit};
use columns_leaf::{
    BinaryArray, BooleanArray, FixedSizeBinaryArray, NullArray, PrimitiveArray, Utf8Array,
};

/// A leaf array whose values are written, and how.
#[derive(Clone, Copy, Drop)]
pub enum Leaf<'a> {
    /// As nothing.
    Null(&'a NullArray),
    /// As truth values.
    Boolean(&'a BooleanArray),
    /// As numbers of 32 bits.
    Int8(&'a PrimitiveArray<i8>),
    Int16(&'a PrimitiveArray<i16>),
    Int32(&'a PrimitiveArray<i32>),
    UInt8(&'a PrimitiveArray<u8>),
    UInt16(&'a PrimitiveArray<u16>),
    UInt32(&'a PrimitiveArray<u32>),
    /// As numbers of 64 bits.
    WideUInt32(&'a PrimitiveArray<u32>),
    Int64(&'a PrimitiveArray<i64>),
    UInt64(&'a PrimitiveArray<u64>),
    /// As byte strings.
    Utf8(&'a Utf8Array<i32>),
    LargeUtf8(&'a Utf8Array<i64>),
    Binary(&'a BinaryArray<i32>),
    LargeBinary(&'a BinaryArray<i64>),
    /// As byte strings of one length.
    FixedSizeBinary(&'a FixedSizeBinaryArray),
    /// As the 12 bytes of intervals.
    Months(&'a PrimitiveArray<i32>),
    Days(&'a PrimitiveArray<DaysMs>),
    /// As decimals.
    Decimal(&'a PrimitiveArray<i128>, DecimalForm),
}

fn is_truth(data_type: &DataType) -> bool
    ensures { result ≡ is_boolean (base (type_view data_type.now)) }
{
    match data_type.base() {
        DataType::Boolean => true,
        _ => false,
    }
}

fn is_small(data_type: &DataType) -> bool
    ensures { result ≡ is_small (base (type_view data_type.now)) }
{
    match data_type.base() {
        DataType::Null => true,
        DataType::Int8 | DataType::Int16 | DataType::Int32 => true,
        DataType::UInt8 | DataType::UInt16 | DataType::UInt32 => true,
        DataType::Date32 | DataType::Time32(TimeUnit::Second | TimeUnit::Millisecond) => true,
        _ => false,
    }
}

fn is_wide(data_type: &DataType) -> bool
    ensures { result ≡ is_wide (base (type_view data_type.now)) }
{
    match data_type.base() {
        DataType::UInt32 | DataType::Int64 | DataType::UInt64 | DataType::Date64 => true,
        DataType::Time64(TimeUnit::Microsecond | TimeUnit::Nanosecond) => true,
        DataType::Timestamp(_, _) | DataType::Duration(_) => true,
        _ => false,
    }
}

fn is_string(data_type: &DataType) -> bool
    ensures { result ≡ is_string (base (type_view data_type.now)) }
{
    match data_type.base() {
        DataType::Utf8 | DataType::LargeUtf8 => true,
        DataType::Binary | DataType::LargeBinary => true,
        _ => false,
    }
}

/// Whether values of the type are decimals.
pub fn is_decimal(data_type: &DataType) -> bool
    ensures { result ≡ is_decimal (base (type_view data_type.now)) }
{
    match data_type.base() {
        DataType::Decimal(_, _) => true,
        _ => false,
    }
}

fn is_fixed(data_type: &DataType, length: usize) -> bool
    ensures { result ≡ is_fixed length (base (type_view data_type.now)) }
{
    match data_type.base() {
        DataType::FixedSizeBinary(width) => *width == length,
        DataType::Interval(IntervalUnit::YearMonth | IntervalUnit::DayTime) => 12 == length,
        DataType::Decimal(_, _) => 1 <= length && length <= 16,
        _ => false,
    }
}

/// Whether values of the type are written under the physical type.
pub fn is_served(data_type: &DataType, physical_type: PhysicalType) -> bool
    ensures { result ≡ is_served (base (type_view data_type.now)) (physical_view physical_type) }
{
    match physical_type {
        PhysicalType::Boolean => is_truth(data_type),
        PhysicalType::Int32 => is_small(data_type) || is_decimal(data_type),
        PhysicalType::Int64 => is_wide(data_type) || is_decimal(data_type),
        PhysicalType::ByteArray => is_string(data_type),
        PhysicalType::FixedLenByteArray(length) => is_fixed(data_type, length),
        _ => false,
    }
}

// An array of numbers of 32 bits with a sign, or of intervals of months.
fn int32_leaf(array: &PrimitiveArray<i32>, physical_type: PhysicalType) -> Option<Leaf<'_>>
    ensures { MatchOption result (is_served (base array.now.0) (physical_view physical_type) ≡ false)
        (IsLeafOf (leaf_array array.now.0 (map (value_i32 (base array.now.0)) array.now.1.0) array.now.1.1)
        (physical_view physical_type)) }
{
    array.know();
    if !is_served(array.data_type(), physical_type) {
        return None;
    }
    match physical_type {
        PhysicalType::FixedLenByteArray(_) => Some(Leaf::Months(array)),
        _ => Some(Leaf::Int32(array)),
    }
}

// An array of numbers of 32 bits without a sign, which are stored as their bits or as numbers of 64 bits.
fn uint32_leaf(array: &PrimitiveArray<u32>, physical_type: PhysicalType) -> Option<Leaf<'_>>
    ensures { MatchOption result (is_served (base array.now.0) (physical_view physical_type) ≡ false)
        (IsLeafOf (leaf_array array.now.0 (map (value_u32 (base array.now.0)) array.now.1.0) array.now.1.1)
        (physical_view physical_type)) }
{
    array.know();
    match physical_type {
        PhysicalType::Int32 => Some(Leaf::UInt32(array)),
        PhysicalType::Int64 => Some(Leaf::WideUInt32(array)),
        PhysicalType::ByteArray => None,
        PhysicalType::Boolean | PhysicalType::Int96 => None,
        PhysicalType::Float | PhysicalType::Double => None,
        PhysicalType::FixedLenByteArray(_) => None,
    }
}

// An array of decimals.
fn decimal_leaf(array: &PrimitiveArray<i128>, physical_type: PhysicalType) -> Option<Leaf<'_>>
    requires { is_served (base array.now.0) (physical_view physical_type) ≡ true }
    ensures { MatchOption result (is_served (base array.now.0) (physical_view physical_type) ≡ false)
        (IsLeafOf (leaf_array array.now.0 (map (value_i128 (base array.now.0)) array.now.1.0) array.now.1.1)
        (physical_view physical_type)) }
{
    array.know();
    match physical_type {
        PhysicalType::Int32 => Some(Leaf::Decimal(array, DecimalForm::Int32)),
        PhysicalType::Int64 => Some(Leaf::Decimal(array, DecimalForm::Int64)),
        PhysicalType::FixedLenByteArray(size) => Some(Leaf::Decimal(
            array,
            DecimalForm::Fixed(size),
        )),
        PhysicalType::ByteArray => None,
        PhysicalType::Boolean | PhysicalType::Int96 => None,
        PhysicalType::Float | PhysicalType::Double => None,
    }
}

// Callers learn from the array's kind which physical type it is, which is named for the contract alone.
fn know_stored(array: &ArrayBox, physical_type: PhysicalType)
    requires { is_served (base (type_of (boxed array.now))) (physical_view physical_type) ≡ true }
    ensures { IsStoredAs array.now (physical_view physical_type) }
{
    let _stored = physical_type;
    match array {
        ArrayBox::Null(a) => a.know(),
        ArrayBox::Boolean(a) => a.know(),
        ArrayBox::Int8(a) => a.know(),
        ArrayBox::Int16(a) => a.know(),
        ArrayBox::Int32(a) => a.know(),
        ArrayBox::Int64(a) => a.know(),
        ArrayBox::Int128(a) => a.know(),
        ArrayBox::UInt8(a) => a.know(),
        ArrayBox::UInt16(a) => a.know(),
        ArrayBox::UInt32(a) => a.know(),
        ArrayBox::UInt64(a) => a.know(),
        ArrayBox::DaysMs(a) => a.know(),
        ArrayBox::Utf8(a) => a.know(),
        ArrayBox::LargeUtf8(a) => a.know(),
        ArrayBox::Binary(a) => a.know(),
        ArrayBox::LargeBinary(a) => a.know(),
        ArrayBox::FixedSizeBinary(a) => a.know(),
        ArrayBox::Dictionary(a) => a.know(),
        ArrayBox::List(a) => a.know(),
        ArrayBox::LargeList(a) => a.know(),
        ArrayBox::FixedSizeList(a) => a.know(),
        ArrayBox::Struct(a) => a.know(),
        ArrayBox::Map(a) => a.know(),
    }
}

/// The array as one whose values are written under the physical type, and `None` where they are not.
pub fn leaf_of(array: &ArrayBox, physical_type: PhysicalType) -> Option<Leaf<'_>>
    ensures { MatchOption result (is_served (base (type_of (boxed array.now))) (physical_view physical_type) ≡ false)
        (IsLeafOf (boxed array.now) (physical_view physical_type)) }
{
    if !is_served(array.data_type(), physical_type) {
        return None;
    }
    know_stored(array, physical_type);
    match array {
        ArrayBox::Null(a) => Some(Leaf::Null(a)),
        ArrayBox::Boolean(a) => Some(Leaf::Boolean(a)),
        ArrayBox::Int8(a) => Some(Leaf::Int8(a)),
        ArrayBox::Int16(a) => Some(Leaf::Int16(a)),
        ArrayBox::Int32(a) => int32_leaf(a, physical_type),
        ArrayBox::Int64(a) => Some(Leaf::Int64(a)),
        ArrayBox::Int128(a) => decimal_leaf(a, physical_type),
        ArrayBox::UInt8(a) => Some(Leaf::UInt8(a)),
        ArrayBox::UInt16(a) => Some(Leaf::UInt16(a)),
        ArrayBox::UInt32(a) => uint32_leaf(a, physical_type),
        ArrayBox::UInt64(a) => Some(Leaf::UInt64(a)),
        ArrayBox::DaysMs(a) => Some(Leaf::Days(a)),
        ArrayBox::Utf8(a) => Some(Leaf::Utf8(a)),
        ArrayBox::LargeUtf8(a) => Some(Leaf::LargeUtf8(a)),
        ArrayBox::Binary(a) => Some(Leaf::Binary(a)),
        ArrayBox::LargeBinary(a) => Some(Leaf::LargeBinary(a)),
        ArrayBox::FixedSizeBinary(a) => Some(Leaf::FixedSizeBinary(a)),
        ArrayBox::Dictionary(_) | ArrayBox::Struct(_) | ArrayBox::Map(_) => None,
        ArrayBox::List(_) | ArrayBox::LargeList(_) | ArrayBox::FixedSizeList(_) => None,
    }
}

// Callers learn that numbers of 32 bits have an order.
pub fn know_order(leaf: Leaf<'_>)
    requires { is_served (base (type_of (leaf_tree leaf))) (leaf_physical leaf) ≡ true }
    ensures { HasOrder leaf.entry }
{
    match leaf {
        Leaf::Int8(a) => a.know(),
        Leaf::Int16(a) => a.know(),
        Leaf::Int32(a) => a.know(),
        Leaf::UInt8(a) => a.know(),
        Leaf::UInt16(a) => a.know(),
        Leaf::UInt32(a) => a.know(),
        Leaf::Null(_) => {}
        Leaf::Boolean(_) => {}
        Leaf::WideUInt32(_) => {}
        Leaf::Int64(_) => {}
        Leaf::UInt64(_) => {}
        Leaf::Utf8(_) => {}
        Leaf::LargeUtf8(_) => {}
        Leaf::Binary(_) => {}
        Leaf::LargeBinary(_) => {}
        Leaf::FixedSizeBinary(_) => {}
        Leaf::Months(_) => {}
        Leaf::Days(_) => {}
        Leaf::Decimal(_, _) => {}
    }
}
