//! Iterators over one column of a dictionary type: the dictionary arrays of a leaf with the nested states of its way (Parquet format, "Dictionary Page";
//! Arrow columnar format, "Dictionary-encoded Layout"; Dremel paper, section 4.3, "Record Assembly").
#![tactic(auto)]

pub mod binary;
mod dict_iter;
pub mod fixed_size_binary;
pub mod primitive;
