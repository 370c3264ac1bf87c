//! Columns of dictionary types (Parquet format, "Dictionary Page"; Arrow columnar format, "Dictionary-encoded Layout").

pub use dictionary_iters::{binary, fixed_size_binary, primitive};
pub use dictionary_leaves::DictionaryColumn;
