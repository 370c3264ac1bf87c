//! The columns of a group, opened.
ghost use Rattle.std.specs.Prelude.{◌≡◌, ◌+◌, ◌≤◌, [], ℕ, List, drop, length, map, pos, take, Some, IfOk, IfErr};
ghost use Rattle.std.specs.List.{AllZip};
ghost use Rattle.columns_base.specs.declared.error.Error.TheVariants.{Memory};
ghost use Rattle.columns_core.specs.View.{field_view};
ghost use Rattle.pq_tree.specs.Columns.{column_of};
ghost use Rattle.pq_tree.specs.Described.{descriptor_view};
ghost use Rattle.pq_tree.specs.Tree.{Leaf};
ghost use Rattle.pq_tree.specs.Views.{chunk_view, group_view, physical_view};
ghost use Rattle.pq_headline.specs.Opened.{OpensField};
ghost use Rattle.pq_headline.specs.Openings.{Opening};
ghost use Rattle.assembly.specs.Giving.{IsGiving};
ghost use Rattle.rewrite_whole.specs.Opening.{IsChunkOf, IsFieldOf, OpensColumns, OpensOne};
ghost use Rattle.rewrite_whole.specs.Ready.{IsGroup, IsReady, OpensGroup};

use crate::job::Job;
use assembly::{ArrayIter, column_iter_to_arrays};
use columns_base::{Error, Result, S};
use columns_core::Field;
use pq_headline::leaves_are_as_many;
use pq_pages::{PageReader, get_page_iterator};
use pq_tree::{ColumnChunkMetaData, Encoding, PrimitiveType, RowGroupMetaData};
use std::alloc::Global;

/// The bytes of a chunk, which are not less than none.
fn size_of(chunk: &ColumnChunkMetaData) -> usize
    requires { (n : ℕ) × (chunk.now.total_compressed_size ≡ pos n) }
    ensures { chunk.now.total_compressed_size ≡ pos result }
{
    chunk.total_compressed_size as usize
}

/// The pages of a chunk in its place. A header may be as long as the chunk.
fn open_chunk<'a>(
    alloc: Global,
    chunk: &ColumnChunkMetaData,
    input: &'a [u8],
) -> Result<PageReader<'a>>
    requires { (place : ℕ) × (l : Leaf) × (place ≤ length input.now) × IsChunkOf place chunk.now l }
    ensures ok { (place : ℕ) (l : Leaf) → IsChunkOf place chunk.now l
        → IfOk result (λ r. OpensOne input.entry.now place (chunk_view chunk.now) l r.outcomes) }
    ensures err { IfErr result (λ e. e ≡ Memory) }
{
    let size = size_of(chunk);
    get_page_iterator(alloc, chunk, input, size)
}

/// The type of the leaf of a chunk.
fn leaf_type(alloc: Global, chunk: &ColumnChunkMetaData) -> Result<PrimitiveType>
    requires { (l : Leaf) × (descriptor_view chunk.now ≡ Some (column_of l)) }
    ensures ok { (l : Leaf) → descriptor_view chunk.now ≡ Some (column_of l)
        → IfOk result (λ t. l.physical ≡ physical_view t.physical_type) }
    ensures err { IfErr result (λ e. e ≡ Memory) }
{
    match &chunk.descriptor {
        Some(descriptor) => descriptor.primitive_type.clone(alloc),
        // a chunk in its place has a leaf
        None => Err(Error::OutOfSpec(S::S2)),
    }
}

/// The readers of the chunks of a field, and the types of its leaves.
#[derive(Drop)]
struct Columns<'a> {
    readers: Vec<PageReader<'a>>,
    types: Vec<PrimitiveType>,
}

/// Opens chunks, each in its place.
fn open_columns<'a>(
    alloc: Global,
    job: &Job<'a>,
    chunks: &[ColumnChunkMetaData],
) -> Result<Columns<'a>>
    requires within { job.now.place ≤ length job.now.input.now }
    requires chunks { (ls : List Leaf) × AllZip (IsChunkOf job.now.place) chunks.now ls }
    ensures ok { (ls : List Leaf) → AllZip (IsChunkOf job.now.place) chunks.now ls
        → IfOk result (λ k. OpensColumns job.now.input.now job.now.place (map chunk_view chunks.now) ls
        (map (λ r. r.outcomes) k.readers.items) k.types.items) }
    ensures err { IfErr result (λ e. e ≡ Memory) }
{
    let mut readers = Vec::new(alloc);
    let mut types = Vec::new(alloc);
    for chunk in chunks {
        readers.push(open_chunk(alloc, chunk, job.input)?)?;
        types.push(leaf_type(alloc, chunk)?)?;
    }
    Ok(Columns { readers, types })
}

/// Opens a field of a group: its chunks are as many from a place on.
fn open_field<'a>(
    alloc: Global,
    job: &Job<'a>,
    chunks: &[ColumnChunkMetaData],
    field: &Field,
    num_rows: usize,
) -> Result<ArrayIter<PageReader<'a>>>
    requires ready { IsReady job.now }
    requires field { (ls : List Leaf) × IsFieldOf job.now.place (field_view field.now) chunks.now ls }
    ensures ok { (ls : List Leaf) → IsFieldOf job.now.place (field_view field.now) chunks.now ls
        → IfOk result (λ it. (o : Opening)
        × OpensField job.now.input.now job.now.place num_rows job.now.options.now.chunk_size
        (field_view field.now) ls (map chunk_view chunks.now) o × IsGiving o [] it) }
    ensures err { IfErr result (λ e. e ≡ Memory) }
{
    let columns = open_columns(alloc, job, chunks)?;
    let field = field.clone(alloc)?;
    match column_iter_to_arrays(
        alloc,
        columns.readers,
        columns.types,
        field,
        job.options.chunk_size,
        num_rows,
    ) {
        Ok(iter) => Ok(iter),
        Err(error) => Err(error),
    }
}

/// Opens the columns of a group, field by field.
pub fn open_group<'a>(
    alloc: Global,
    job: &Job<'a>,
    group: &RowGroupMetaData,
    num_rows: usize,
) -> Result<Vec<ArrayIter<PageReader<'a>>>>
    requires ready { IsReady job.now }
    requires group { IsGroup job.now group.now }
    ensures ok { IfOk result (λ iters. OpensGroup job.now num_rows (group_view group.now) iters.items) }
    ensures err { IfErr result (λ e. e ≡ Memory) }
{
    leaves_are_as_many();
    let mut iters = Vec::new(alloc);
    let encodings: &[Vec<Encoding>] = &job.plan.encodings;
    let mut left: &[ColumnChunkMetaData] = &group.columns;
    for (i, field) in job.plan.schema.fields.iter().enumerate() {
        let (mine, rest) = left.split_at(encodings[i].len());
        let iter = open_field(alloc, job, mine, field, num_rows)?;
        iters.push(iter)?;
        left = rest;
    }
    Ok(iters)
}
