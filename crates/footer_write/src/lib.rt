//! Writing footers (Parquet format, "File format" and parquet.thrift, `FileMetaData`).
#![tactic(auto)]

mod elements;
mod footer;
mod groups;
mod laws;
mod numbers;
mod parts;
mod room;
mod types;
mod write;

pub use laws::elements_tell_of_schema;
pub use types::{ThriftColumnChunk, ThriftColumnMetaData, ThriftFileMetaData, ThriftRowGroup};
pub use write::write_metadata;
