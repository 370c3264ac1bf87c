//! The pages of a dictionary array: the dictionary page of its entries, and the data page of its keys (Parquet format, "Dictionary Page",
//! "Data Pages", "Nested Encoding"; Encodings, "Dictionary Encoding"; Arrow columnar format, "Dictionary-encoded Layout").
#![tactic(auto)]

mod each_place;
mod entries;
mod entry_bytes;
mod entry_page;
mod indices;
mod key_page;
mod keys;
mod reach;
mod reached;
mod seen_path;
mod statistics;

pub use entries::is_entry;
pub use entry_page::dictionary_page;
pub use key_page::index_page;
pub use reach::reaches_entries;
pub use statistics::dictionary_statistics;
