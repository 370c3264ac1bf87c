//! Column chunks by what a footer says of them.
ghost use Rattle.std.specs.Prelude.{◌≡◌, ◌≢◌, ◌⊎◌, ◌≤ℤ◌, ℕ, pos, None, Some, [], length, IfOk, IfErr, IfSome, IsTrue, ◌↔◌, MatchOption, option_map, string_bytes};
ghost use Rattle.pq_tree.specs.Views.{chunk_view};
ghost use Rattle.pq_files.specs.Carried.{start_of};
ghost use Rattle.pq_files.specs.Reasons.{IsNegative, LiesOutside};
ghost use Rattle.pq_pages.specs.Outcomes.{HasLevels};
ghost use Rattle.pq_pages.specs.Opened.{IsHere, IsPlaced, OpensChunk, RefusesChunk};

use crate::reader::PageReader;
use columns_base::{Error, N, Result, S};
use pq_tree::ColumnChunkMetaData;
use std::alloc::Global;

/// Where the chunk starts: at its dictionary page, where that lies between the magic bytes and the data pages.
fn chunk_start(data_page: i64, dictionary_page: Option<i64>) -> i64
    ensures { result ≡ start_of data_page dictionary_page }
{
    match dictionary_page {
        Some(place) if place >= 4 && place < data_page => place,
        _ => data_page,
    }
}

/// The number of values of the chunk, and its bytes, if it lies in those of the file.
fn chunk_bytes<'a>(column: &ColumnChunkMetaData, file: &'a [u8]) -> Option<(usize, &'a [u8])>
    ensures { MatchOption result (IsNegative column.now.num_values ⊎ IsNegative column.now.total_compressed_size
        ⊎ LiesOutside (length file.entry.now) (chunk_view column.now))
        (λ x. IsPlaced file.entry.now (chunk_view column.now) x.0 x.1.now) }
{
    if column.num_values < 0 {
        return None;
    }
    if column.total_compressed_size < 0 {
        return None;
    }
    let start = chunk_start(column.data_page_offset, column.dictionary_page_offset);
    if start < 4 {
        return None;
    }
    let start = start as usize;
    let size = column.total_compressed_size as usize;
    if file.len() < start {
        return None;
    }
    if file.len() - start < size {
        return None;
    }
    Some((column.num_values as usize, &file[start..start + size]))
}

/// Whether the chunk's bytes lie in the same file.
fn is_here(file_path: &Option<String>) -> bool
    ensures { IsTrue result ↔ IsHere (option_map string_bytes file_path.now) }
{
    match file_path {
        Some(path) => path.as_str().is_empty(),
        None => true,
    }
}

/// The pages of a chunk, in order (Parquet format, "Column chunks"). No header may take more than `max_header_size`
/// bytes.
///
/// The pages are read one by one, as `PageReader::advance` asks for them. They end where their counts of values add up to
/// that of the chunk; what lies behind them is not read.
///
/// # Errors
///
/// - `OutOfSpec(S2)`: the chunk has no column, a negative number of values or bytes, or does not lie in the file behind its
///   magic bytes.
/// - `NotYetImplemented(N1)`: it is compressed.
/// - `NotYetImplemented(N3)`: it lies in another file.
/// - `Memory`: memory ran out.
pub fn get_page_iterator<'a>(
    alloc: Global,
    column_metadata: &ColumnChunkMetaData,
    file: &'a [u8],
    max_header_size: usize,
) -> Result<PageReader<'a>>
    requires { IfSome column_metadata.now.descriptor HasLevels }
    ensures ok { IfOk result (OpensChunk file.entry.now column_metadata.now max_header_size) }
    ensures refused { IfErr result (RefusesChunk (length file.entry.now) column_metadata.now) }
{
    let Some(descriptor) = &column_metadata.descriptor else {
        return Err(Error::OutOfSpec(S::S2));
    };
    let Some((num_values, bytes)) = chunk_bytes(column_metadata, file) else {
        return Err(Error::OutOfSpec(S::S2));
    };
    if column_metadata.codec != 0 {
        return Err(Error::NotYetImplemented(N::N1));
    }
    if !is_here(&column_metadata.file_path) {
        return Err(Error::NotYetImplemented(N::N3));
    }
    match descriptor.clone(alloc) {
        Ok(descriptor) => Ok(PageReader::new(
            alloc,
            descriptor,
            bytes,
            num_values,
            max_header_size,
        )),
        Err(error) => Err(error),
    }
}
