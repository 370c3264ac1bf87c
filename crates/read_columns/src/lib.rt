//! The columns of a row group of any type that is read, a leaf's or a dictionary's, piece by piece (Parquet format, "Column chunks"; Arrow columnar
//! format, "Physical Memory Layout" and "Dictionary-encoded Layout").
#![tactic(auto)]

mod column;
mod laws;

pub use column::Column;
pub use laws::entries_are_held;
