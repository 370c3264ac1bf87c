//! What the numbers in a schema's bytes stand for.

ghost use Rattle.std.specs.Prelude.{◌≡◌, slice_get};
ghost use Rattle.columns_core.specs.View.{type_view};
ghost use Rattle.schema_codec.specs.Tags.{tag_of, simple_tree, units, unit_number, interval_units, interval_number, key_types, key_number};

use columns_core::{DataType, IntegerType, IntervalUnit, TimeUnit};

/// A type that has no part.
#[derive(Clone, Copy)]
pub enum Simple {
    Null,
    Boolean,
    Int8,
    Int16,
    Int32,
    Int64,
    UInt8,
    UInt16,
    UInt32,
    UInt64,
    Float16,
    Float32,
    Float64,
    Date32,
    Date64,
    Binary,
    LargeBinary,
    Utf8,
    LargeUtf8,
}

/// A type that has units, sizes or texts, and no type within.
#[derive(Clone, Copy)]
pub enum Measured {
    Timestamp,
    Time32,
    Time64,
    Duration,
    Interval,
    FixedSizeBinary,
    Decimal,
    Decimal256,
}

/// A type that has types within.
#[derive(Clone, Copy)]
pub enum Container {
    List,
    FixedSizeList,
    LargeList,
    Struct,
    Union,
    Map,
    Dictionary,
    Extension,
}

/// What a type's first byte tells.
#[derive(Clone, Copy)]
pub enum Tag {
    Plain(Simple),
    Leaf(Measured),
    Nested(Container),
}

/// The types in the order of their tags, from 0 on.
const TAGS: [Tag; 35] = [
    Tag::Plain(Simple::Null),
    Tag::Plain(Simple::Boolean),
    Tag::Plain(Simple::Int8),
    Tag::Plain(Simple::Int16),
    Tag::Plain(Simple::Int32),
    Tag::Plain(Simple::Int64),
    Tag::Plain(Simple::UInt8),
    Tag::Plain(Simple::UInt16),
    Tag::Plain(Simple::UInt32),
    Tag::Plain(Simple::UInt64),
    Tag::Plain(Simple::Float16),
    Tag::Plain(Simple::Float32),
    Tag::Plain(Simple::Float64),
    Tag::Leaf(Measured::Timestamp),
    Tag::Plain(Simple::Date32),
    Tag::Plain(Simple::Date64),
    Tag::Leaf(Measured::Time32),
    Tag::Leaf(Measured::Time64),
    Tag::Leaf(Measured::Duration),
    Tag::Leaf(Measured::Interval),
    Tag::Plain(Simple::Binary),
    Tag::Leaf(Measured::FixedSizeBinary),
    Tag::Plain(Simple::LargeBinary),
    Tag::Plain(Simple::Utf8),
    Tag::Plain(Simple::LargeUtf8),
    Tag::Nested(Container::List),
    Tag::Nested(Container::FixedSizeList),
    Tag::Nested(Container::LargeList),
    Tag::Nested(Container::Struct),
    Tag::Nested(Container::Union),
    Tag::Nested(Container::Map),
    Tag::Nested(Container::Dictionary),
    Tag::Leaf(Measured::Decimal),
    Tag::Leaf(Measured::Decimal256),
    Tag::Nested(Container::Extension),
];

/// The tag of this number, if it is below 35.
pub fn tag_from(number: u8) -> Option<Tag>
    ensures { result ≡ tag_of number }
{
    TAGS.get(usize::from(number)).copied()
}

pub fn simple_type(simple: Simple) -> DataType
    ensures { type_view result ≡ simple_tree simple }
{
    match simple {
        Simple::Null => DataType::Null,
        Simple::Boolean => DataType::Boolean,
        Simple::Int8 => DataType::Int8,
        Simple::Int16 => DataType::Int16,
        Simple::Int32 => DataType::Int32,
        Simple::Int64 => DataType::Int64,
        Simple::UInt8 => DataType::UInt8,
        Simple::UInt16 => DataType::UInt16,
        Simple::UInt32 => DataType::UInt32,
        Simple::UInt64 => DataType::UInt64,
        Simple::Float16 => DataType::Float16,
        Simple::Float32 => DataType::Float32,
        Simple::Float64 => DataType::Float64,
        Simple::Date32 => DataType::Date32,
        Simple::Date64 => DataType::Date64,
        Simple::Binary => DataType::Binary,
        Simple::LargeBinary => DataType::LargeBinary,
        Simple::Utf8 => DataType::Utf8,
        Simple::LargeUtf8 => DataType::LargeUtf8,
    }
}

/// The unit of this number, if it is below 4.
pub fn unit_from(number: u8) -> Option<TimeUnit>
    ensures { result ≡ slice_get units number }
{
    match number {
        0 => Some(TimeUnit::Second),
        1 => Some(TimeUnit::Millisecond),
        2 => Some(TimeUnit::Microsecond),
        3 => Some(TimeUnit::Nanosecond),
        _ => None,
    }
}

/// The number of a unit, from 0 for seconds on.
pub fn number_of_unit(unit: TimeUnit) -> u8
    ensures { result ≡ unit_number unit }
{
    match unit {
        TimeUnit::Second => 0,
        TimeUnit::Millisecond => 1,
        TimeUnit::Microsecond => 2,
        TimeUnit::Nanosecond => 3,
    }
}

/// The unit of an interval of this number, if it is below 3.
pub fn interval_unit_from(number: u8) -> Option<IntervalUnit>
    ensures { result ≡ slice_get interval_units number }
{
    match number {
        0 => Some(IntervalUnit::YearMonth),
        1 => Some(IntervalUnit::DayTime),
        2 => Some(IntervalUnit::MonthDayNano),
        _ => None,
    }
}

/// The number of a unit of intervals, from 0 on.
pub fn number_of_interval_unit(unit: IntervalUnit) -> u8
    ensures { result ≡ interval_number unit }
{
    match unit {
        IntervalUnit::YearMonth => 0,
        IntervalUnit::DayTime => 1,
        IntervalUnit::MonthDayNano => 2,
    }
}

/// The type of keys of this number, if it is below 8.
pub fn key_type_from(number: u8) -> Option<IntegerType>
    ensures { result ≡ slice_get key_types number }
{
    match number {
        0 => Some(IntegerType::Int8),
        1 => Some(IntegerType::Int16),
        2 => Some(IntegerType::Int32),
        3 => Some(IntegerType::Int64),
        4 => Some(IntegerType::UInt8),
        5 => Some(IntegerType::UInt16),
        6 => Some(IntegerType::UInt32),
        7 => Some(IntegerType::UInt64),
        _ => None,
    }
}

pub fn number_of_key_type(key: IntegerType) -> u8
    ensures { result ≡ key_number key }
{
    match key {
        IntegerType::Int8 => 0,
        IntegerType::Int16 => 1,
        IntegerType::Int32 => 2,
        IntegerType::Int64 => 3,
        IntegerType::UInt8 => 4,
        IntegerType::UInt16 => 5,
        IntegerType::UInt32 => 6,
        IntegerType::UInt64 => 7,
    }
}
