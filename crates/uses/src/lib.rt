//! Callers of `parquet`, each proved from the contracts of what it calls alone: arrays to a file, the pages of a field to an array, and a schema both ways.
#![tactic(auto)]

mod read;
mod schema;
mod write;

pub use read::field_to_array;
pub use schema::schema_there_and_back;
pub use write::arrays_to_file;
