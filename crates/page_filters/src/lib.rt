//! The pages of a column chunk that a filter keeps (Parquet format, "Column chunks" and "Data Pages").
#![tactic(auto)]

mod chunk;
mod filter;
mod pages;

pub use chunk::{PageReader, get_page_iterator};
pub use filter::{AllPages, PageFilter};
pub use pages::FilteredPages;
