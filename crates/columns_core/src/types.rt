//! Arrow's logical types, fields and schemas.
use crate::metadata::Metadata;

/// The unit of a time, a timestamp or a duration (Arrow columnar format, "Data Types").
#[derive(Clone, Copy, Debug, PartialEq, Eq, Drop)]
pub enum TimeUnit {
    Second,
    Millisecond,
    Microsecond,
    Nanosecond,
}

/// The parts of an interval that a type has (Arrow columnar format, "Data Types").
#[derive(Clone, Copy, Debug, PartialEq, Eq, Drop)]
pub enum IntervalUnit {
    YearMonth,
    DayTime,
    MonthDayNano,
}

/// The type of a dictionary's keys (Arrow columnar format, "Dictionary-encoded Layout").
#[derive(Clone, Copy, Debug, PartialEq, Eq, Drop)]
pub enum IntegerType {
    Int8,
    Int16,
    Int32,
    Int64,
    UInt8,
    UInt16,
    UInt32,
    UInt64,
}

/// What the values of a field are (Arrow columnar format, "Data Types").
#[derive(Debug, PartialEq, Eq, Drop)]
#[cycle(ast)]
pub enum DataType {
    Null,
    Boolean,
    Int8,
    Int16,
    Int32,
    Int64,
    UInt8,
    UInt16,
    UInt32,
    UInt64,
    Float16,
    Float32,
    Float64,
    Timestamp(TimeUnit, Option<String>),
    Date32,
    Date64,
    Time32(TimeUnit),
    Time64(TimeUnit),
    Duration(TimeUnit),
    Interval(IntervalUnit),
    Binary,
    FixedSizeBinary(usize),
    LargeBinary,
    Utf8,
    LargeUtf8,
    List(Box<Field>),
    FixedSizeList(Box<Field>, usize),
    LargeList(Box<Field>),
    Struct(Vec<Field>),
    Union(Vec<Field>, Option<Vec<i32>>, bool),
    Map(Box<Field>, bool),
    Dictionary(IntegerType, Box<DataType>, bool),
    Decimal(usize, usize),
    Decimal256(usize, usize),
    Extension(String, Box<DataType>, Option<String>),
}

/// A column or a part of one: its name, its type, whether it may be null, and the texts that go with it.
#[derive(Debug, PartialEq, Eq, Drop)]
#[cycle(ast)]
pub struct Field {
    pub name: String,
    pub data_type: DataType,
    pub is_nullable: bool,
    pub metadata: Metadata,
}

/// The fields of a table's columns in order, and the texts that go with the table.
#[derive(Debug, PartialEq, Eq, Drop)]
pub struct Schema {
    pub fields: Vec<Field>,
    pub metadata: Metadata,
}
