//! The first file of the sample.
ghost use Rattle.std.specs.Prelude.{◌≡◌, ◌<◌, ◌≤◌, [], ◌∷◌, IfOk, IfErr, OnOk, Some, map};
ghost use Rattle.columns_base.specs.declared.error.Error.TheVariants.{Memory};
ghost use Rattle.columns_core.specs.View.{schema_view};
ghost use Rattle.pq_io.specs.PlainSinks.{plain_taken};
ghost use Rattle.pq_tree.specs.TreeViews.{trees_view};
ghost use Rattle.pq_tree.specs.declared.version.Version.TheVariants.{V1};
ghost use Rattle.sample_rows.specs.Rows.{sample_rows};
ghost use Rattle.schema_codec.specs.Spelling.{plain_bytes};
ghost use Rattle.sample_run.specs.Chunks.{IsFileOfChunk};
ghost use Rattle.sample_run.specs.Putting.{AreSampleArrays, HasPut, IsFreshWriter, IsSampleGroup};
ghost use Rattle.columns_slots.specs.Tree.{ArrayTrees};
ghost use Rattle.pq_tree.specs.declared.types.Encoding.TheVariants.{Plain};
ghost use Rattle.sample_rows.specs.Fields.{sample_fields, sample_tree};
ghost use Rattle.schema_to_tree.specs.Table.{schema_of};
ghost use Rattle.sample_run.specs.Files.{IsSampleFile, written_options};

use crate::options::WRITTEN;
use columns_array::Chunk;
use columns_base::Result;
use columns_core::Schema;
use pq_io::PlainSink;
use pq_tree::{Encoding, ParquetType};
use sample_rows::{sample_chunk, sample_schema};
use sample_sizes::{
    arrays_have_no_entries, counts_hold, footers_have_room, no_page_is_large, samples_are_groups,
    schema_is_small,
};
use schema_codec::PlainCodec;
use std::alloc::Global;
use typed_groups::{know_sound, large_pages_are_large, suiting_chunks_are_taken};
use write_groups::{FileWriter, RowGroupIter, row_group_iter, served_groups_are_laid};

/// PLAIN for one column.
fn plain(alloc: Global) -> Result<Vec<Encoding>>
    ensures ok { IfOk result (λ es. es.items ≡ Plain ∷ []) }
    ensures err { IfErr result (λ e. e ≡ Memory) }
{
    let mut plain = Vec::new(alloc);
    plain.push(Encoding::Plain)?;
    Ok(plain)
}

/// PLAIN for the one column of each field.
fn plain_encodings(alloc: Global) -> Result<Vec<Vec<Encoding>>>
    ensures ok { IfOk result (λ ess. map (λ es. es.items) ess.items ≡ (Plain ∷ []) ∷ (Plain ∷ []) ∷ (Plain ∷ []) ∷ []) }
    ensures err { IfErr result (λ e. e ≡ Memory) }
{
    let ids = plain(alloc)?;
    let tags = plain(alloc)?;
    let items = plain(alloc)?;
    Ok(Vec::from_array(alloc, [ids, tags, items])?)
}

fn copy_trees(alloc: Global, trees: &[ParquetType]) -> Result<Vec<ParquetType>>
    ensures ok { IfOk result (λ copy. trees_view copy.items ≡ trees_view trees.now) }
    ensures err { IfErr result (λ e. e ≡ Memory) }
{
    let mut copies = Vec::new(alloc);
    for tree in trees {
        copies.push(tree.clone(alloc)?)?;
    }
    Ok(copies)
}

/// The columns of the sample's arrays.
fn sample_group(alloc: Global, chunk: Chunk, trees: Vec<ParquetType>) -> Result<RowGroupIter>
    requires columns { AreSampleArrays chunk }
    requires trees { trees_view trees.items ≡ (schema_of sample_fields).fields }
    ensures ok { IfOk result (λ g. IsSampleGroup chunk g) }
    ensures err { IfErr result (λ e. e ≡ Memory) }
{
    know_sound(&chunk);
    suiting_chunks_are_taken();
    let encodings = plain_encodings(alloc)?;
    match row_group_iter(alloc, chunk, encodings, trees, WRITTEN) {
        Ok(group) => Ok(group),
        Err(error) => Err(error),
    }
}

/// A writer of the sample's schema.
fn sample_writer(alloc: Global, schema: Schema) -> Result<FileWriter<PlainSink>>
    requires { schema_view schema ≡ sample_tree }
    ensures ok { IfOk result IsFreshWriter }
    ensures err { IfErr result (λ e. e ≡ Memory) }
{
    match FileWriter::try_new(alloc, PlainSink::new(alloc), schema, WRITTEN) {
        Ok(writer) => Ok(writer),
        Err(error) => Err(error),
    }
}

/// The trees of the writer's schema.
fn trees_of(alloc: Global, writer: &FileWriter<PlainSink>) -> Result<Vec<ParquetType>>
    requires { IsFreshWriter writer.now }
    ensures ok { IfOk result (λ trees. trees_view trees.items ≡ (schema_of sample_fields).fields) }
    ensures err { IfErr result (λ e. e ≡ Memory) }
{
    copy_trees(alloc, writer.parquet_schema().fields())
}

/// Writes the group.
fn put_group(writer: &mut FileWriter<PlainSink>, group: RowGroupIter) -> Result<()>
    requires fresh { IsFreshWriter writer.old }
    requires group { (chunk : ArrayTrees) × IsSampleGroup chunk group }
    ensures ok { (chunk : ArrayTrees) → IsSampleGroup chunk group → OnOk result (HasPut chunk writer.new) }
    ensures err { IfErr result (λ e. e ≡ Memory) }
{
    served_groups_are_laid();
    large_pages_are_large();
    samples_are_groups();
    arrays_have_no_entries();
    no_page_is_large();
    counts_hold();
    match writer.write(group) {
        Ok(()) => Ok(()),
        Err(error) => Err(error),
    }
}

/// Ends the file.
fn end_file(writer: FileWriter<PlainSink>) -> Result<PlainSink>
    requires { (chunk : ArrayTrees) × HasPut chunk writer }
    ensures ok { (chunk : ArrayTrees) → HasPut chunk writer → IfOk result
        (λ k. IsFileOfChunk (Some []) (Some (plain_taken k)) sample_tree
        (plain_bytes sample_tree) written_options chunk) }
    ensures err { IfErr result (λ e. e ≡ Memory) }
{
    served_groups_are_laid();
    samples_are_groups();
    schema_is_small();
    footers_have_room();
    let mut writer = writer;
    match writer.end(None, &PlainCodec) {
        Ok(_) => Ok(writer.into_inner()),
        Err(error) => Err(error),
    }
}

/// Writes a chunk of the schema as a file of one group, or of none where it has no rows.
fn write_chunk(alloc: Global, schema: Schema, chunk: Chunk) -> Result<PlainSink>
    requires schema { schema_view schema ≡ sample_tree }
    requires columns { AreSampleArrays chunk }
    ensures ok { IfOk result (λ k. IsFileOfChunk (Some []) (Some (plain_taken k)) sample_tree
        (plain_bytes sample_tree) written_options chunk) }
    ensures err { IfErr result (λ e. e ≡ Memory) }
{
    let mut writer = sample_writer(alloc, schema)?;
    let trees = trees_of(alloc, &writer)?;
    let group = sample_group(alloc, chunk, trees)?;
    match put_group(&mut writer, group) {
        Ok(()) => end_file(writer),
        Err(error) => Err(error),
    }
}

/// The file of so many rows of the sample, as one group.
#[tactic(auto, using(crate::proofs::Written::sample_written))]
pub fn write_rows(alloc: Global, count: u32) -> Result<PlainSink>
    requires some { 0 < count }
    requires few { count ≤ 1000000 }
    ensures err { IfErr result (λ e. e ≡ Memory) }
    ensures ok { IfOk result (λ k. IsSampleFile V1 (sample_rows count ∷ []) (plain_taken k)) }
{
    served_groups_are_laid();
    let schema = sample_schema(alloc)?;
    let chunk = sample_chunk(alloc, count)?;
    write_chunk(alloc, schema, chunk)
}
