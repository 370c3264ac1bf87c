//! The tree of a file's columns, and what a footer and the headers of pages say, as Rust records with the values that they stand for.
#![tactic(auto)]

mod clone;
mod columns;
mod describe;
mod equal;
mod paths;
mod schema;
mod trees;
mod types;
mod version;

pub use columns_base::PhysicalType;
pub use describe::describe_groups;
pub use equal::{is_same_info, is_same_leaf, is_same_pair, is_same_tree};
pub use schema::SchemaDescriptor;
pub use trees::read_trees;
pub use types::{
    BinaryStatistics, BooleanStatistics, ColumnChunkMetaData, CompressionOptions, ConvertedType,
    DataPageHeader, DataPageHeaderV1, DataPageHeaderV2, Descriptor, DictionaryPageHeader, Encoding,
    FieldInfo, FileMetaData, FixedLenStatistics, FlatFooter, IntegerType, KeyValue, LogicalType,
    PageHeader, ParquetStatistics, ParquetType, PrimitiveStatistics, PrimitiveType, Repetition,
    RowGroupMetaData, SchemaElement, Statistics, TimeUnit, TypedPageHeader,
};
pub use version::Version;
