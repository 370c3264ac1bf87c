//! Statistics of the values that a path reaches in its leaf array (Parquet format, parquet.thrift: `Statistics`, `ColumnOrder`).
#![tactic(auto)]

mod laws;
mod order;
mod seen;
mod statistics;
mod taker;

pub use laws::{statistics_are_unique, statistics_exist};
pub use order::{OrderedLeaf, SearchedLeaf};
pub use seen::Extremes;
pub use statistics::{column_statistics, unordered_statistics};
