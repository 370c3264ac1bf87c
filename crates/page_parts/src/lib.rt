//! Parts of a writer of pages: a page from a body that is spelled, and an iterator whose length is known (Parquet format, "Data Pages").
#![tactic(auto)]

mod exact;
mod plain_page;
mod stated;

pub use exact::ExactSizedIter;
pub use plain_page::build_plain_page;
