//! Cuts a path of nested parts and its leaf array to some of the rows (Arrow columnar format, "Variable-size List Layout", "Struct Layout").
#![tactic(auto)]

pub mod laws;
mod slice;

pub use slice::slice_parquet_array;
