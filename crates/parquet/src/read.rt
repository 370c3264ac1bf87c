//! A file's footer, the pages of its column chunks, and its columns as arrays (Parquet format, "Column chunks"; Dremel paper, "Record assembly").

pub mod dictionaries;

pub use assembly::{ArrayIter, column_iter_to_arrays};
pub use leaf_iters::{binary, boolean, dict_indices_decoder, null, primitive, simple};
pub use page_filters::{AllPages, FilteredPages, PageFilter, PageReader, get_page_iterator};
pub use page_validity::{
    FilteredOptionalPageValidity, OptionalPageValidity, PageValidity, Zip, get_selected_rows,
    not_implemented,
};
pub use pq_bitmaps::{
    FilteredHybridEncoded, FilteredHybridRleDecoderIter, HybridDecoderBitmapIter, HybridEncoded,
    Interval,
};
pub use pq_container::{
    ColumnChunkMetaData, DataPageHeader, DataPageHeaderV1, DataPageHeaderV2, FileMetaData,
    RowGroupMetaData, read_metadata,
};
pub use pq_io::{Failed, MemorySource, PlainSource, Source, StdSource, read_all};
pub use pq_pages::{DataPage, DictPage, Page, Pages, VecPages, split_buffer};
pub use pq_runs::hybrid_rle;
pub use read_nested::{create_list, create_map};
pub use read_state::{
    InitNested, NestedBox, NestedOptional, NestedPrimitive, NestedState, NestedStruct,
    NestedStructValid, NestedValid, Steps, init_nested,
};
pub use read_walk::{NestedDecoder, NestedPage, extend_levels};
pub use struct_iters::{ColumnsIter, NestedArrayIter, StructIterator, columns_to_iter_recursive};
