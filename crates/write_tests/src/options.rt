//! How pages are written.
use pq_tree::{CompressionOptions, Version};
use write_pages::WriteOptions;

/// Pages of version 1, without statistics.
pub const V1: WriteOptions = WriteOptions {
    write_statistics: false,
    version: Version::V1,
    compression: CompressionOptions::Uncompressed,
    data_pagesize_limit: None,
};

/// Pages of version 2, whose levels stand without their lengths, without statistics.
pub const V2: WriteOptions = WriteOptions {
    write_statistics: false,
    version: Version::V2,
    compression: CompressionOptions::Uncompressed,
    data_pagesize_limit: None,
};

/// The same with statistics.
pub const STATED: WriteOptions = WriteOptions {
    write_statistics: true,
    version: Version::V2,
    compression: CompressionOptions::Uncompressed,
    data_pagesize_limit: None,
};
