//! Iterators over one column of a row group: the arrays of a leaf with the nested states of its way, the arrays of a flat column, and arrays of nulls
//! alone (Dremel paper, section 4.3, "Record Assembly"; Parquet format, "Column chunks"; Arrow columnar format, "Physical Memory Layout").
#![tactic(auto)]

pub mod binary;
pub mod boolean;
mod indices;
mod leaf_iter;
pub mod null;
mod nulls;
pub mod primitive;
pub mod simple;

pub use indices::dict_indices_decoder;
