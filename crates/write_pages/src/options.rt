//! What a writer is asked for.
use pq_tree::{CompressionOptions, Version};

/// How pages are written.
#[derive(Clone, Copy, Debug, PartialEq, Eq, Drop)]
pub struct WriteOptions {
    /// Whether statistics stand in the headers of data pages and in the metadata of columns.
    pub write_statistics: bool,
    /// The version of data pages.
    pub version: Version,
    /// The compression of pages.
    pub compression: CompressionOptions,
    /// About how many bytes of values a page has; 1,048,576 where there is none.
    pub data_pagesize_limit: Option<usize>,
}
