//! What the numbers in a message stand for.

ghost use Rattle.std.specs.Prelude.{◌≡◌, slice_get, option_map};
ghost use Rattle.columns_core.specs.View.{type_view};
ghost use Rattle.schema_codec.specs.Tags.{units, interval_units};
ghost use Rattle.schema_fb.specs.Tags.{tag_of, simple_tree, tag_number, width, is_signed, integer_of, integer_tree, floats, dates};

use columns_core::{DataType, IntegerType, IntervalUnit, TimeUnit};
use schema_codec::{interval_unit_from, unit_from};

/// A type whose table has no slots, and which has no children.
#[derive(Clone, Copy)]
pub enum Simple {
    Null,
    Binary,
    Utf8,
    Bool,
    LargeBinary,
    LargeUtf8,
}

/// A type whose table has slots, and which has no children.
#[derive(Clone, Copy)]
pub enum Measured {
    Int,
    FloatingPoint,
    Decimal,
    Date,
    Time,
    Timestamp,
    Interval,
    FixedSizeBinary,
    Duration,
}

/// A type that has children.
#[derive(Clone, Copy)]
pub enum Container {
    List,
    Struct,
    Union,
    FixedSizeList,
    Map,
    LargeList,
}

/// The type that a field's type tag tells of.
#[derive(Clone, Copy)]
pub enum Tag {
    Plain(Simple),
    Leaf(Measured),
    Nested(Container),
}

/// The types in the order of their tags, from 1 on.
const TAGS: [Tag; 21] = [
    Tag::Plain(Simple::Null),
    Tag::Leaf(Measured::Int),
    Tag::Leaf(Measured::FloatingPoint),
    Tag::Plain(Simple::Binary),
    Tag::Plain(Simple::Utf8),
    Tag::Plain(Simple::Bool),
    Tag::Leaf(Measured::Decimal),
    Tag::Leaf(Measured::Date),
    Tag::Leaf(Measured::Time),
    Tag::Leaf(Measured::Timestamp),
    Tag::Leaf(Measured::Interval),
    Tag::Nested(Container::List),
    Tag::Nested(Container::Struct),
    Tag::Nested(Container::Union),
    Tag::Leaf(Measured::FixedSizeBinary),
    Tag::Nested(Container::FixedSizeList),
    Tag::Nested(Container::Map),
    Tag::Leaf(Measured::Duration),
    Tag::Plain(Simple::LargeBinary),
    Tag::Plain(Simple::LargeUtf8),
    Tag::Nested(Container::LargeList),
];

/// The tag of this number, if it is from 1 to 21.
pub fn tag_from(number: u8) -> Option<Tag>
    ensures { result ≡ tag_of number }
{
    if number == 0 {
        return None;
    }
    TAGS.get(usize::from(number - 1)).copied()
}

/// The number of a type's tag; a dictionary has that of its values, and an extension that of the type within.
pub fn number_of_tag(data_type: &DataType) -> u8
    ensures { result ≡ tag_number (type_view data_type.now) }
{
    match data_type {
        DataType::Null => 1,
        DataType::Int8 | DataType::Int16 | DataType::Int32 | DataType::Int64 => 2,
        DataType::UInt8 | DataType::UInt16 | DataType::UInt32 | DataType::UInt64 => 2,
        DataType::Float16 | DataType::Float32 | DataType::Float64 => 3,
        DataType::Binary => 4,
        DataType::Utf8 => 5,
        DataType::Boolean => 6,
        DataType::Decimal(..) | DataType::Decimal256(..) => 7,
        DataType::Date32 | DataType::Date64 => 8,
        DataType::Time32(_) | DataType::Time64(_) => 9,
        DataType::Timestamp(..) => 10,
        DataType::Interval(_) => 11,
        DataType::List(_) => 12,
        DataType::Struct(_) => 13,
        DataType::Union(..) => 14,
        DataType::FixedSizeBinary(_) => 15,
        DataType::FixedSizeList(..) => 16,
        DataType::Map(..) => 17,
        DataType::Duration(_) => 18,
        DataType::LargeBinary => 19,
        DataType::LargeUtf8 => 20,
        DataType::LargeList(_) => 21,
        DataType::Dictionary(_, value, _) => number_of_tag(value),
        DataType::Extension(_, inner, _) => number_of_tag(inner),
    }
}

/// The type that this tells of.
pub fn simple_type(simple: Simple) -> DataType
    ensures { type_view result ≡ simple_tree simple }
{
    match simple {
        Simple::Null => DataType::Null,
        Simple::Binary => DataType::Binary,
        Simple::Utf8 => DataType::Utf8,
        Simple::Bool => DataType::Boolean,
        Simple::LargeBinary => DataType::LargeBinary,
        Simple::LargeUtf8 => DataType::LargeUtf8,
    }
}

/// The type of whole numbers of so many bits, if there is one.
pub fn integer_from(bits: u32, signed: bool) -> Option<IntegerType>
    ensures { result ≡ integer_of bits signed }
{
    match (bits, signed) {
        (8, true) => Some(IntegerType::Int8),
        (8, false) => Some(IntegerType::UInt8),
        (16, true) => Some(IntegerType::Int16),
        (16, false) => Some(IntegerType::UInt16),
        (32, true) => Some(IntegerType::Int32),
        (32, false) => Some(IntegerType::UInt32),
        (64, true) => Some(IntegerType::Int64),
        (64, false) => Some(IntegerType::UInt64),
        _ => None,
    }
}

/// The type of these numbers.
pub fn integer_type(key: IntegerType) -> DataType
    ensures { type_view result ≡ integer_tree key }
{
    match key {
        IntegerType::Int8 => DataType::Int8,
        IntegerType::Int16 => DataType::Int16,
        IntegerType::Int32 => DataType::Int32,
        IntegerType::Int64 => DataType::Int64,
        IntegerType::UInt8 => DataType::UInt8,
        IntegerType::UInt16 => DataType::UInt16,
        IntegerType::UInt32 => DataType::UInt32,
        IntegerType::UInt64 => DataType::UInt64,
    }
}

/// The unit of times of this number, if it is below 4.
pub fn unit_of(number: u16) -> Option<TimeUnit>
    ensures { result ≡ slice_get units number }
{
    match u8::try_from(number) {
        Ok(number) => unit_from(number),
        Err(_) => None,
    }
}

/// The unit of intervals of this number, if it is below 3.
pub fn interval_unit_of(number: u16) -> Option<IntervalUnit>
    ensures { result ≡ slice_get interval_units number }
{
    match u8::try_from(number) {
        Ok(number) => interval_unit_from(number),
        Err(_) => None,
    }
}

/// The type of floating-point numbers of this precision, if it is below 3.
pub fn float_from(precision: u16) -> Option<DataType>
    ensures { option_map type_view result ≡ slice_get floats precision }
{
    match precision {
        0 => Some(DataType::Float16),
        1 => Some(DataType::Float32),
        2 => Some(DataType::Float64),
        _ => None,
    }
}

/// The type of dates in this unit, if it is below 2.
pub fn date_from(unit: u16) -> Option<DataType>
    ensures { option_map type_view result ≡ slice_get dates unit }
{
    match unit {
        0 => Some(DataType::Date32),
        1 => Some(DataType::Date64),
        _ => None,
    }
}
