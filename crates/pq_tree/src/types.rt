//! What a schema says of its nodes, by the Parquet format's Thrift definitions.
use crate::schema::SchemaDescriptor;
use columns_base::PhysicalType;

/// How often a node stands under its parent (Parquet format, `FieldRepetitionType`).
#[derive(Clone, Copy, Debug, PartialEq, Eq)]
pub enum Repetition {
    /// Exactly once.
    Required,
    /// Once or not at all.
    Optional,
    /// Any number of times.
    Repeated,
}

/// The unit of a time (Parquet format, `TimeUnit`).
#[derive(Clone, Copy, Debug, PartialEq, Eq)]
pub enum TimeUnit {
    Milliseconds,
    Microseconds,
    Nanoseconds,
}

/// The width and the sign of an `INTEGER` (Parquet format, `IntType`).
#[derive(Clone, Copy, Debug, PartialEq, Eq)]
pub enum IntegerType {
    Int8,
    Int16,
    Int32,
    Int64,
    UInt8,
    UInt16,
    UInt32,
    UInt64,
}

/// The older annotation of a node (Parquet format, `ConvertedType`).
#[derive(Clone, Copy, Debug, PartialEq, Eq)]
pub enum ConvertedType {
    Utf8,
    Map,
    MapKeyValue,
    List,
    Enum,
    /// The precision and the scale.
    Decimal(usize, usize),
    Date,
    TimeMillis,
    TimeMicros,
    TimestampMillis,
    TimestampMicros,
    Uint8,
    Uint16,
    Uint32,
    Uint64,
    Int8,
    Int16,
    Int32,
    Int64,
    Json,
    Bson,
    Interval,
}

/// The newer annotation of a node (Parquet format, `LogicalType`).
#[derive(Clone, Copy, Debug, PartialEq, Eq)]
pub enum LogicalType {
    String,
    Map,
    List,
    Enum,
    /// The precision and the scale.
    Decimal(usize, usize),
    Date,
    Time {
        unit: TimeUnit,
        is_adjusted_to_utc: bool,
    },
    Timestamp {
        unit: TimeUnit,
        is_adjusted_to_utc: bool,
    },
    Integer(IntegerType),
    Unknown,
    Json,
    Bson,
    Uuid,
}

/// What every node of a schema has.
#[derive(Debug, PartialEq, Eq, Drop)]
pub struct FieldInfo {
    pub name: String,
    pub repetition: Repetition,
    pub id: Option<i32>,
}

/// A node of a schema, as it stands in the preorder (Parquet format, `SchemaElement`).
#[derive(Debug, PartialEq, Eq, Drop)]
pub struct SchemaElement {
    pub field_info: FieldInfo,
    /// A leaf's type. A group has none.
    pub physical_type: Option<PhysicalType>,
    /// How many of the nodes that follow are its children.
    pub num_children: usize,
    pub converted_type: Option<ConvertedType>,
    pub logical_type: Option<LogicalType>,
}

/// A leaf of a schema.
#[derive(Debug, PartialEq, Eq, Drop)]
pub struct PrimitiveType {
    pub field_info: FieldInfo,
    pub logical_type: Option<LogicalType>,
    pub converted_type: Option<ConvertedType>,
    pub physical_type: PhysicalType,
}

/// A node of a schema with all that is beneath it.
#[derive(Debug, PartialEq, Eq, Drop)]
pub enum ParquetType {
    PrimitiveType(PrimitiveType),
    GroupType {
        field_info: FieldInfo,
        logical_type: Option<LogicalType>,
        converted_type: Option<ConvertedType>,
        fields: Vec<ParquetType>,
    },
}

/// A column: a leaf of a schema with its greatest levels (Parquet format, "Nested Encoding").
#[derive(Debug, PartialEq, Eq, Drop)]
pub struct Descriptor {
    pub primitive_type: PrimitiveType,
    /// How many nodes on the path to the leaf are optional or repeated.
    pub max_def_level: i16,
    /// How many nodes on the path to the leaf are repeated.
    pub max_rep_level: i16,
}

/// What a footer says of a column's values (Parquet format, `Statistics`).
#[derive(Debug, PartialEq, Eq, Drop)]
pub struct Statistics {
    pub null_count: Option<i64>,
    pub max_value: Option<Vec<u8>>,
    pub min_value: Option<Vec<u8>>,
}

/// What is stated of a column of whole numbers: decoded statistics (Parquet format, `Statistics`).
#[derive(Debug, PartialEq, Eq, Drop)]
pub struct PrimitiveStatistics<P> {
    pub primitive_type: PrimitiveType,
    /// How many pairs of levels have no value.
    pub null_count: Option<i64>,
    pub min_value: Option<P>,
    pub max_value: Option<P>,
}

/// What is stated of a column of byte strings: decoded statistics (Parquet format, `Statistics`).
#[derive(Debug, PartialEq, Eq, Drop)]
pub struct BinaryStatistics {
    pub primitive_type: PrimitiveType,
    /// How many pairs of levels have no value.
    pub null_count: Option<i64>,
    pub min_value: Option<Vec<u8>>,
    pub max_value: Option<Vec<u8>>,
}

/// What is stated of a column of byte strings of one length: decoded statistics (Parquet format, `Statistics`).
#[derive(Debug, PartialEq, Eq, Drop)]
pub struct FixedLenStatistics {
    pub primitive_type: PrimitiveType,
    /// How many pairs of levels have no value.
    pub null_count: Option<i64>,
    pub min_value: Option<Vec<u8>>,
    pub max_value: Option<Vec<u8>>,
}

/// What is stated of a column of truth values: decoded statistics (Parquet format, `Statistics`).
#[derive(Debug, PartialEq, Eq, Drop)]
pub struct BooleanStatistics {
    pub primitive_type: PrimitiveType,
    /// How many pairs of levels have no value.
    pub null_count: Option<i64>,
    pub min_value: Option<bool>,
    pub max_value: Option<bool>,
}

/// Decoded statistics of a column, by its physical type.
#[derive(Debug, PartialEq, Eq, Drop)]
pub enum ParquetStatistics {
    Boolean(BooleanStatistics),
    Int32(PrimitiveStatistics<i32>),
    Int64(PrimitiveStatistics<i64>),
    Binary(BinaryStatistics),
    FixedLen(FixedLenStatistics),
}

/// What a footer says of one column of one row group (Parquet format, `ColumnChunk` with its
/// `ColumnMetaData`). Sizes and places are in bytes, the places from the start of the file.
#[derive(Debug, PartialEq, Eq, Drop)]
pub struct ColumnChunkMetaData {
    /// The leaf at the chunk's place, with its levels. None where the schema has no such leaf, and
    /// where the footer was read without its tree.
    pub descriptor: Option<Descriptor>,
    pub physical_type: i32,
    pub file_path: Option<String>,
    pub codec: i32,
    pub num_values: i64,
    pub total_compressed_size: i64,
    pub data_page_offset: i64,
    pub dictionary_page_offset: Option<i64>,
    pub statistics: Option<Statistics>,
}

/// What a footer says of one row group (Parquet format, `RowGroup`).
#[derive(Debug, PartialEq, Eq, Drop)]
pub struct RowGroupMetaData {
    pub columns: Vec<ColumnChunkMetaData>,
    pub num_rows: i64,
}

/// A pair that a writer leaves in the footer (Parquet format, `KeyValue`).
#[derive(Debug, PartialEq, Eq, Drop)]
pub struct KeyValue {
    pub key: String,
    pub value: Option<String>,
}

/// A footer whose schema is still the list of its nodes in preorder (Parquet format,
/// `FileMetaData`).
#[derive(Debug, PartialEq, Eq, Drop)]
pub struct FlatFooter {
    /// The root's name.
    pub name: String,
    /// How many children the root has.
    pub num_children: usize,
    /// The nodes behind the root, in preorder.
    pub elements: Vec<SchemaElement>,
    pub row_groups: Vec<RowGroupMetaData>,
    pub key_value_metadata: Vec<KeyValue>,
}

/// What a footer says of a file (Parquet format, `FileMetaData`).
#[derive(Debug, Drop)]
pub struct FileMetaData {
    pub schema_descr: SchemaDescriptor,
    pub row_groups: Vec<RowGroupMetaData>,
    /// None where there is no pair.
    pub key_value_metadata: Option<Vec<KeyValue>>,
}

/// The header of a data page of version 1 (Parquet format, `DataPageHeader`).
#[derive(Debug, PartialEq, Eq, Drop)]
pub struct DataPageHeaderV1 {
    pub num_values: i32,
    pub encoding: i32,
    pub definition_level_encoding: Option<i32>,
    pub repetition_level_encoding: Option<i32>,
    /// What a writer states of the page's values. A reader does not look at them, and has None.
    pub statistics: Option<Statistics>,
}

/// The header of a data page of version 2 (Parquet format, `DataPageHeaderV2`).
#[derive(Debug, PartialEq, Eq, Drop)]
pub struct DataPageHeaderV2 {
    pub num_values: i32,
    /// How many pairs of levels have no value, as far as the header states it.
    pub num_nulls: Option<i32>,
    pub num_rows: i32,
    pub encoding: i32,
    pub definition_levels_byte_length: i32,
    pub repetition_levels_byte_length: i32,
    /// Whether the values are compressed. A reader does not look at it, and has None.
    pub is_compressed: Option<bool>,
    /// What a writer states of the page's values. A reader does not look at them, and has None.
    pub statistics: Option<Statistics>,
}

/// The header of a dictionary page (Parquet format, `DictionaryPageHeader`).
#[derive(Clone, Copy, Debug, PartialEq, Eq)]
pub struct DictionaryPageHeader {
    pub num_values: i32,
    pub encoding: i32,
}

/// The header of a data page.
#[derive(Debug, PartialEq, Eq, Drop)]
pub enum DataPageHeader {
    V1(DataPageHeaderV1),
    V2(DataPageHeaderV2),
}

/// The header of a page that can be read.
#[derive(Debug, PartialEq, Eq, Drop)]
pub enum TypedPageHeader {
    Data(DataPageHeader),
    Dictionary(DictionaryPageHeader),
}

/// What stands in front of a page's body (Parquet format, `PageHeader`).
#[derive(Debug, PartialEq, Eq, Drop)]
pub struct PageHeader {
    pub header: TypedPageHeader,
    /// The number of the body's bytes.
    pub compressed_page_size: usize,
}

/// How the bytes of a page are compressed when it is written (Parquet format, `CompressionCodec`).
#[derive(Clone, Copy, Debug, PartialEq, Eq)]
pub enum CompressionOptions {
    /// Not at all.
    Uncompressed,
}

/// How values are spelled (Parquet format, `Encoding`, with its numbers).
#[derive(Clone, Copy, Debug, PartialEq, Eq)]
pub enum Encoding {
    Plain = 0,
    PlainDictionary = 2,
    Rle = 3,
    BitPacked = 4,
    DeltaBinaryPacked = 5,
    DeltaLengthByteArray = 6,
    DeltaByteArray = 7,
    RleDictionary = 8,
}
