//! A Parquet file of an Arrow schema, group by group: its tree, its columns' pages, and the footer, which carries the schema (Parquet format,
//! "File format", "Metadata").
#![tactic(auto)]

mod file;
mod laws;

pub use file::SchemaFile;
pub use laws::written_trees_are_told;
