//! Where the chunks of a footer lie.
ghost use Rattle.std.specs.Prelude.{◌≡◌, List, OnOk, IfErr, IfOk, All, map, pos, IsTrue, ◌↔◌, option_map, string_bytes};
ghost use Rattle.pq_metadata.specs.Footer.{ChunkMeta};
ghost use Rattle.pq_tree.specs.Columns.{column_of};
ghost use Rattle.pq_tree.specs.Described.{column_view};
ghost use Rattle.pq_tree.specs.Physical.{number_of_physical};
ghost use Rattle.pq_tree.specs.Tree.{Leaf, columns_of};
ghost use Rattle.pq_tree.specs.TreeViews.{metadata_view};
ghost use Rattle.pq_tree.specs.Views.{chunk_view, group_view, physical_view};
ghost use Rattle.pq_files.specs.Carried.{start_of};
ghost use Rattle.pq_pages.specs.Opened.{IsHere};
ghost use Rattle.pq_headline.specs.Opened.{ChunkIsPlaced, GroupIsPlaced};
ghost use Rattle.rewrite_whole.specs.Places.{LiesWell, RefusesChunk, RefusesPlaces, RefusesStage5};

use columns_base::{Error, N, Result, S};
use pq_tree::{ColumnChunkMetaData, Descriptor, FileMetaData, PhysicalType, RowGroupMetaData};

/// The number of a physical type (Parquet format, parquet.thrift: Type).
fn number_of(physical: PhysicalType) -> i32
    ensures { result ≡ pos (number_of_physical (physical_view physical)) }
{
    match physical {
        PhysicalType::Boolean => 0,
        PhysicalType::Int32 => 1,
        PhysicalType::Int64 => 2,
        PhysicalType::Int96 => 3,
        PhysicalType::Float => 4,
        PhysicalType::Double => 5,
        PhysicalType::ByteArray => 6,
        PhysicalType::FixedLenByteArray(_) => 7,
    }
}

/// Where the chunk starts: at its dictionary page, where that lies between the magic bytes and the data pages.
fn start_in(data_page: i64, dictionary_page: Option<i64>) -> i64
    ensures { result ≡ start_of data_page dictionary_page }
{
    match dictionary_page {
        Some(place) if place >= 4 && place < data_page => place,
        _ => data_page,
    }
}

/// Whether the chunk lies behind the magic bytes and before a place.
fn lies_before(chunk: &ColumnChunkMetaData, place: usize) -> bool
    ensures { LiesWell place (chunk_view chunk.now) result }
{
    if chunk.num_values < 0 {
        return false;
    }
    if chunk.total_compressed_size < 0 {
        return false;
    }
    let start = start_in(chunk.data_page_offset, chunk.dictionary_page_offset);
    if start < 4 {
        return false;
    }
    let start = start as usize;
    let size = chunk.total_compressed_size as usize;
    if place < start {
        return false;
    }
    if place - start < size {
        return false;
    }
    true
}

/// Whether the chunk's bytes lie in the same file.
fn is_here(file_path: &Option<String>) -> bool
    ensures { IsTrue result ↔ IsHere (option_map string_bytes file_path.now) }
{
    match file_path {
        Some(path) => path.as_str().is_empty(),
        None => true,
    }
}

/// Finds that a chunk is of the column, and lies between the magic bytes and the footer of this file, as it is.
fn check_chunk(chunk: &ColumnChunkMetaData, column: &Descriptor, place: usize) -> Result<()>
    ensures ok { (l : Leaf) → column_view column.now ≡ column_of l
        → OnOk result (ChunkIsPlaced place (chunk_view chunk.now) l) }
    ensures err { (l : Leaf) → column_view column.now ≡ column_of l
        → IfErr result (RefusesChunk place (chunk_view chunk.now) l) }
{
    if chunk.physical_type != number_of(column.primitive_type.physical_type) {
        return Err(Error::OutOfSpec(S::S2));
    }
    if !lies_before(chunk, place) {
        return Err(Error::OutOfSpec(S::S2));
    }
    if chunk.codec != 0 {
        return Err(Error::NotYetImplemented(N::N1));
    }
    if !is_here(&chunk.file_path) {
        return Err(Error::NotYetImplemented(N::N3));
    }
    Ok(())
}

/// Finds the same of the chunks of a group, one for each column.
fn check_group(group: &RowGroupMetaData, columns: &[Descriptor], place: usize) -> Result<()>
    ensures ok { (ls : List Leaf) → map column_view columns.now ≡ map column_of ls
        → OnOk result (GroupIsPlaced place ls (group_view group.now)) }
    ensures err { (ls : List Leaf) → map column_view columns.now ≡ map column_of ls
        → IfErr result (RefusesPlaces place ls (group_view group.now)) }
{
    if group.num_rows < 0 {
        return Err(Error::OutOfSpec(S::S2));
    }
    if group.columns.len() != columns.len() {
        return Err(Error::OutOfSpec(S::S2));
    }
    for (i, chunk) in group.columns.iter().enumerate() {
        if let Err(error) = check_chunk(chunk, &columns[i], place) {
            return Err(error);
        }
    }
    Ok(())
}

/// Finds that each chunk is the leaf's at its place, and lies between the magic bytes and the footer.
pub fn check_groups(metadata: &FileMetaData, place: usize) -> Result<()>
    ensures ok { OnOk result (All (GroupIsPlaced place (columns_of (metadata_view metadata.now).schema))
        (metadata_view metadata.now).groups) }
    ensures err { IfErr result (RefusesStage5 place (metadata_view metadata.now)) }
{
    let columns = metadata.schema_descr.columns();
    for group in &metadata.row_groups {
        if let Err(error) = check_group(group, columns, place) {
            return Err(error);
        }
    }
    Ok(())
}
