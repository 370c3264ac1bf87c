//! Reads what the Thrift values of a Parquet file say: its frame, its footer and the headers of its pages.
#![tactic(auto)]

mod annotations;
mod chunks;
mod elements;
mod encryption;
mod fields;
mod footer;
mod footer_bytes;
mod frame;
mod headers;
mod keys;
mod kinds;
mod metadata;
mod misfit;
mod statistics;
mod straight;
mod texts;

pub use footer::read_footer;
pub use frame::read_frame;
pub use headers::read_page_header;
pub use metadata::{read_footer_metadata, read_metadata};
pub use pq_metadata::{
    flat_forms_are_footers, footers_are_unique, frames_are_told, headers_are_unique,
};
pub use pq_tree::{
    BinaryStatistics, BooleanStatistics, ColumnChunkMetaData, CompressionOptions, ConvertedType,
    DataPageHeader, DataPageHeaderV1, DataPageHeaderV2, Descriptor, DictionaryPageHeader, Encoding,
    FieldInfo, FileMetaData, FixedLenStatistics, FlatFooter, IntegerType, KeyValue, LogicalType,
    PageHeader, ParquetStatistics, ParquetType, PhysicalType, PrimitiveStatistics, PrimitiveType,
    Repetition, RowGroupMetaData, SchemaDescriptor, SchemaElement, Statistics, TimeUnit,
    TypedPageHeader, Version, is_same_info, is_same_leaf, is_same_pair, is_same_tree, read_trees,
};
