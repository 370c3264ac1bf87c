//! What is written in a footer (Parquet format, parquet.thrift), with a field for each id.
use pq_tree::{KeyValue, SchemaDescriptor, Statistics};

/// The metadata of a column of one row group (Parquet format, `ColumnMetaData`). Sizes and places
/// are in bytes, the places from the start of the file.
#[derive(Debug, Drop)]
pub struct ThriftColumnMetaData {
    /// The number of the physical type.
    pub type_: i32,
    /// The numbers of the encodings.
    pub encodings: Vec<i32>,
    /// The names of the nodes on the path to the leaf, the outermost first.
    pub path_in_schema: Vec<String>,
    /// The number of the codec; 0 is uncompressed.
    pub codec: i32,
    pub num_values: i64,
    pub total_uncompressed_size: i64,
    pub total_compressed_size: i64,
    pub data_page_offset: i64,
    pub dictionary_page_offset: Option<i64>,
    pub statistics: Option<Statistics>,
}

/// A column of one row group (Parquet format, `ColumnChunk`).
#[derive(Debug, Drop)]
pub struct ThriftColumnChunk {
    /// Where the chunk starts, in bytes from the start of the file.
    pub file_offset: i64,
    pub meta_data: ThriftColumnMetaData,
}

/// A row group (Parquet format, `RowGroup`). Sizes and places are in bytes.
#[derive(Debug, Drop)]
pub struct ThriftRowGroup {
    pub columns: Vec<ThriftColumnChunk>,
    pub total_byte_size: i64,
    pub num_rows: i64,
    pub file_offset: i64,
    pub total_compressed_size: i64,
    /// The group's place in the file, counted from 0, where it fits.
    pub ordinal: Option<i16>,
}

/// A footer (Parquet format, `FileMetaData`). The order of each column follows from the schema, and
/// has no field.
#[derive(Debug, Drop)]
pub struct ThriftFileMetaData {
    pub version: i32,
    pub schema: SchemaDescriptor,
    pub num_rows: i64,
    pub row_groups: Vec<ThriftRowGroup>,
    /// None and no pair are written alike.
    pub key_value_metadata: Option<Vec<KeyValue>>,
    pub created_by: String,
}
