//! From arrays to pages: one page of a path, and the pages of a column by the row rule (Parquet format, "Data Pages", "Nested Encoding").
#![tactic(auto)]

mod columns;
mod cut_column;
pub mod dictionary;
mod fit;
mod keyed_column;
mod keyed_fit;
mod keyed_pages;
mod keys;
mod known_column;
mod known_pages;
mod leaf_pages;
mod nulls;
mod options;
mod page;
mod pages;
mod rule;

pub use columns::array_to_columns;
pub use fit::is_written_in;
pub use keyed_pages::DictionaryPages;
pub use leaf_pages::LeafPages;
pub use options::WriteOptions;
pub use page::array_to_page;
pub use pages::{PageIter, array_to_pages};
