//! What the sample's files are asked for.
use pq_tree::{CompressionOptions, Version};
use rewrite_whole::{KeyRule, RewriteOptions};
use write_pages::WriteOptions;

/// The first file: what stands without words.
pub const WRITTEN: WriteOptions = WriteOptions {
    write_statistics: true,
    version: Version::V1,
    compression: CompressionOptions::Uncompressed,
    data_pagesize_limit: None,
};

/// The rewrite of it: version 2, groups of 1,000 rows, and else what stands without words.
pub const REWRITTEN: RewriteOptions = RewriteOptions {
    version: Version::V2,
    page_limit: 1_048_576,
    chunk_size: Some(1000),
    statistics: true,
    delta: false,
    key_rule: KeyRule::Use,
    byte_limit: 268_435_456,
    pair_limit: 134_217_728,
};
