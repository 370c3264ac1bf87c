//! Nested columns through Apache Parquet: the one crate that an engine names. Its modules pass on what the crates below have, in the modules of
//! arrow2's `io::parquet`, and add nothing.
//!
//! | Module | What it has |
//! |---|---|
//! | `arrays` | Arrow types, schemas and arrays, errors |
//! | `schema` | an Arrow schema as a Parquet tree and back, the key `ARROW:schema` and its codecs |
//! | `write` | arrays to levels, pages, row groups and files |
//! | `read` | footers, pages of a column chunk, level pairs to nested state, columns to arrays |
//! | `rewrite` | a whole file read and written anew, and its options by words |
//! | `laws` | laws of rows, levels, schemas and files, each the contract of a call with an empty body |
#![tactic(auto)]

pub mod arrays;
pub mod laws;
pub mod read;
pub mod rewrite;
pub mod schema;
pub mod write;
