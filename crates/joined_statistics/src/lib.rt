//! The statistics of a column from those of its pages (Parquet format, parquet.thrift: `Statistics`, `ColumnOrder`).
#![tactic(auto)]

mod join;
mod numbers;
mod order;

pub use join::{join_statistics, no_statistics};
pub use order::{TextOrder, text_order};
