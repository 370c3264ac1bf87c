//! Column chunks behind a filter.
ghost use Rattle.std.specs.Prelude.{IfErr, IfOk, IfSome, length};
ghost use Rattle.pq_pages.specs.Opened.{RefusesChunk};
ghost use Rattle.pq_pages.specs.Outcomes.{HasLevels};
ghost use Rattle.page_filters.specs.Filters.{keeping};
ghost use Rattle.page_filters.specs.Opened.{OpensKept};

use crate::filter::PageFilter;
use crate::pages::FilteredPages;
use columns_base::{Error, Result, S};
use pq_tree::ColumnChunkMetaData;
use std::alloc::Global;

/// The pages of a column chunk that a filter keeps, which are read as they are asked for.
pub type PageReader<'a, F> = FilteredPages<pq_pages::PageReader<'a>, F>;

/// The pages of a chunk, in order, without the data pages that the filter refuses; without a filter all of them (Parquet format, "Column chunks"). No
/// header may take more than `max_header_size` bytes.
///
/// The pages are read one by one, as `PageReader::advance` asks for them; one that is refused is passed over. They end where their counts of values,
/// those of pages that are refused too, add up to that of the chunk; what lies behind them is not read.
///
/// # Errors
///
/// - `OutOfSpec(S2)`: the chunk has no column, a negative number of values or bytes, or does not lie in the file behind its
///   magic bytes.
/// - `NotYetImplemented(N1)`: it is compressed.
/// - `NotYetImplemented(N3)`: it lies in another file.
/// - `Memory`: memory ran out.
pub fn get_page_iterator<'a, F: PageFilter>(
    alloc: Global,
    column_metadata: &ColumnChunkMetaData,
    file: &'a [u8],
    pages_filter: Option<F>,
    max_header_size: usize,
) -> Result<PageReader<'a, F>>
    requires { IfSome column_metadata.now.descriptor HasLevels }
    ensures ok { IfOk result (OpensKept file.entry.now column_metadata.now max_header_size
        (keeping F.keeps pages_filter)) }
    ensures refused { IfErr result (RefusesChunk (length file.entry.now) column_metadata.now) }
{
    let Some(column) = &column_metadata.descriptor else {
        return Err(Error::OutOfSpec(S::S2));
    };
    let pages = match pq_pages::get_page_iterator(alloc, column_metadata, file, max_header_size) {
        Ok(pages) => pages,
        Err(error) => return Err(error),
    };
    match column.clone(alloc) {
        Ok(column) => Ok(FilteredPages::new(pages, column, pages_filter)),
        Err(error) => Err(error),
    }
}
