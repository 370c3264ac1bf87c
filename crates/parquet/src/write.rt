//! Arrays to levels, pages, row groups and files (Parquet format, "Nested Encoding", "Data Pages", "File format").

pub use footer_write::{
    ThriftColumnChunk, ThriftColumnMetaData, ThriftFileMetaData, ThriftRowGroup, write_metadata,
};
pub use leaf_pages::{
    array_to_page_simple, binary, boolean, check_along, check_flat, fixed_len_bytes, primitive,
    utf8,
};
pub use level_sections::{write_def_levels, write_rep_and_def};
pub use levels::{
    DefLevelsIter, ListNested, Nested, RepLevelsIter, get_max_length, is_in_bounds, is_well_formed,
    max_def_level, max_rep_level, num_values, slice_nested_leaf,
};
pub use nested_paths::{to_leaves, to_nested, to_parquet_leaves};
pub use nested_slice::slice_parquet_array;
pub use page_parts::{ExactSizedIter, build_plain_page};
pub use pq_io::{MemorySink, PieceSink, PlainSink, Sink, SinkFault, StdSink, push_all, push_owned};
pub use pq_pages::write_page_header;
pub use pq_tree::{CompressionOptions, Encoding, ParquetStatistics, Statistics, Version};
pub use row_groups::RowGroupIterator;
pub use write_groups::{FileWriter, RowGroupIter, row_group_iter};
pub use write_pages::{
    PageIter, WriteOptions, array_to_columns, array_to_page, array_to_pages, dictionary,
};
pub use write_statistics::{build_statistics, ord_binary};
