//! The columns of dictionary types, read with their entries kept (Parquet format, "Dictionary Page"; Arrow columnar format, "Dictionary-encoded
//! Layout").
#![tactic(auto)]

mod column;
mod entries;
mod entry_type;
mod first_page;
mod key_column;
mod keys;
mod kinds;
mod next;

pub use column::DictionaryColumn;
pub use entries::entry_array;
pub use keys::{KeyNumber, kept_keys};
