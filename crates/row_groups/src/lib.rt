//! Row groups of a schema from chunks of arrays, one after another (Parquet format, "Row Groups").
#![tactic(auto)]

mod copies;
mod numbers;
mod row_groups;

pub use row_groups::RowGroupIterator;
