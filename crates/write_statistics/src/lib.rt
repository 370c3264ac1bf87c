//! Statistics of written columns: how many nulls, and the least and the greatest of the present values (Parquet format, parquet.thrift: `Statistics`,
//! `ColumnOrder`).
#![tactic(auto)]

mod bytes;
mod extremes;
mod numbers;

pub use bytes::ord_binary;
pub use numbers::build_statistics;
