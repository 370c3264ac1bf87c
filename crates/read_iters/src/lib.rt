//! Iterators over the plain byte strings of a page (Parquet format, Encodings, "Plain").
#![tactic(auto)]

mod strings;

pub use strings::{BinaryIter, SizedBinaryIter};
