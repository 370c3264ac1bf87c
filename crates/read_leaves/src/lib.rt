//! The columns of a row group whose leaves are of a type that is served, read piece by piece (Parquet format, "Column chunks"; Arrow columnar
//! format, "Physical Memory Layout").
#![tactic(auto)]

mod column;
mod leaf;
mod piece;

pub use leaf::LeafColumn;
