//! An Arrow schema as a Parquet tree, and back (Parquet format, "Metadata" and LogicalTypes), and the key under which a file carries it.

pub use columns_core::{Field, Schema};
pub use pq_tree::{
    ConvertedType, Descriptor, FieldInfo, KeyValue, LogicalType, ParquetType, PrimitiveType,
    Repetition, SchemaDescriptor,
};
pub use schema_fb::FlatCodec;
pub use schema_map::{
    CodecFault, KeyRule, PlainCodec, SchemaCodec, add_arrow_schema, agrees, can_encode,
    decimal_length_from_precision, fits, infer_schema, is_nullable, n_columns,
    parquet_to_arrow_schema, read_schema_from_metadata, schema_to_metadata_key, to_data_type,
    to_parquet_schema, to_parquet_type, transverse,
};
