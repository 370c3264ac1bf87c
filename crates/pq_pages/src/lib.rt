//! Pages in memory and their headers, and the pages of a column chunk one after another (Parquet format, "Column chunks",
//! "Data Pages" and parquet.thrift, `PageHeader`).
#![tactic(auto)]

mod chunk;
mod header;
mod laws;
mod page;
mod pages;
mod place;
mod raw;
mod reader;
mod shown;
mod split;
mod vec_pages;

pub use chunk::get_page_iterator;
pub use header::write_page_header;
pub use laws::{
    as_worked, encodings_are_numbered, no_header_is_longer, pages_are_written, pages_hold_chunks,
    splits_are_of_pages,
};
pub use page::{DataPage, DictPage, Page, encoding_named};
pub use pages::Pages;
pub use reader::PageReader;
pub use shown::{DataPageRef, DictPageRef, PageRef};
pub use split::{split_buffer, split_shown};
pub use vec_pages::VecPages;
