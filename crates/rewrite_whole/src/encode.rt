//! A piece as a group of the output.
ghost use Rattle.std.specs.Prelude.{◌≡◌, ◌≢◌, ◌<◌, ◌⊎◌, ◌++◌, ◌∷◌, [], List, Some, None, OnOk, IfOk, IfErr, flat_map, map};
ghost use Rattle.columns_base.specs.declared.error.Error.TheVariants.{Memory};
ghost use Rattle.columns_core.specs.View.{schema_view};
ghost use Rattle.columns_slots.specs.Tree.{ArrayTrees};
ghost use Rattle.pq_tree.specs.TreeViews.{trees_view};
ghost use Rattle.pq_files.specs.Layout.{OutGroup};
ghost use Rattle.pq_headline.specs.Written.{RefusesChunk};
ghost use Rattle.write_groups.specs.Writing.{IsWriting};
ghost use Rattle.rewrite_whole.specs.Asks.{asked_by};
ghost use Rattle.rewrite_whole.specs.Groups.{IsOutput, write_options, taken_by};
ghost use Rattle.rewrite_whole.specs.Plans.{lists_of};
ghost use Rattle.rewrite_whole.specs.Ready.{IsReady, IsPieceOf, PutsGroup, asked_of, fields_in};

use crate::job::Job;
use crate::{Output, RewriteOptions};
use columns_array::Chunk;
use columns_base::{Error, Result};
use pq_io::PieceSink;
use pq_tree::{CompressionOptions, Encoding, ParquetType};
use std::alloc::Global;
use typed_groups::{
    groups_are_written, know_sound, large_pages_are_large, suiting_chunks_are_taken,
};
use write_groups::{FileWriter, row_group_iter};
use write_pages::WriteOptions;

/// How the pages of the output are written.
pub fn options_of(options: &RewriteOptions) -> WriteOptions
    ensures { result ≡ write_options (asked_by options.now) }
{
    WriteOptions {
        write_statistics: options.statistics,
        version: options.version,
        compression: CompressionOptions::Uncompressed,
        data_pagesize_limit: Some(options.page_limit),
    }
}

fn copy_trees(alloc: Global, trees: &[ParquetType]) -> Result<Vec<ParquetType>>
    ensures ok { IfOk result (λ copy. trees_view copy.items ≡ trees_view trees.now) }
    ensures err { IfErr result (λ e. e ≡ Memory) }
{
    let mut copies = Vec::new(alloc);
    for tree in trees {
        copies.push(tree.clone(alloc)?)?;
    }
    Ok(copies)
}

fn copy_encodings(alloc: Global, encodings: &Vec<Vec<Encoding>>) -> Result<Vec<Vec<Encoding>>>
    ensures ok { IfOk result (λ copy. lists_of copy ≡ lists_of encodings.now) }
    ensures err { IfErr result (λ e. e ≡ Memory) }
{
    let mut copies = Vec::new(alloc);
    for field in encodings {
        copies.push(Vec::from_slice(alloc, field)?)?;
    }
    Ok(copies)
}

/// Writes a piece.
fn put(alloc: Global, job: &Job, chunk: Chunk, writer: &mut FileWriter<PieceSink>) -> Result<()>
    requires ready { IsReady job.now }
    requires piece { IsPieceOf job.now chunk }
    requires schema { schema_view writer.old.file.schema ≡ schema_view job.now.plan.now.schema }
    requires options { writer.old.options ≡ write_options (asked_of job.now) }
    ensures ok { (groups : List OutGroup) → IsWriting taken_by (Some []) writer.old groups
        → OnOk result (PutsGroup job.now chunk groups writer.new) }
    ensures schema { writer.new.file.schema ≡ writer.old.file.schema }
    ensures options { writer.new.options ≡ writer.old.options }
    ensures err { (groups : List OutGroup) → IsWriting taken_by (Some []) writer.old groups
        → IfErr result (λ e. (e ≡ Memory) ⊎ RefusesChunk (asked_of job.now) (fields_in job.now) groups chunk e) }
{
    know_sound(&chunk);
    suiting_chunks_are_taken();
    large_pages_are_large();
    groups_are_written();
    let encodings = copy_encodings(alloc, &job.plan.encodings)?;
    let trees = copy_trees(alloc, job.plan.tree.fields())?;
    match row_group_iter(alloc, chunk, encodings, trees, options_of(job.options)) {
        Ok(group) => writer.write(group),
        Err(error) => Err(error),
    }
}

/// Keeps a refusal for later. Want of memory alone is answered at once.
fn keep(refusal: &mut Option<Error>, error: Error) -> Result<()>
    ensures ok { OnOk result ((refusal.new ≡ Some error) × (error ≢ Memory)) }
    ensures err { IfErr result (λ e. e ≡ Memory) }
{
    match error {
        Error::Memory => Err(Error::Memory),
        _ => {
            *refusal = Some(error);
            Ok(())
        }
    }
}

/// Puts a piece to the output, unless that is refused already. A refusal of this piece is kept, and only want of memory is answered.
pub fn encode_piece(alloc: Global, job: &Job, chunk: Chunk, output: &mut Output) -> Result<()>
    requires ready { IsReady job.now }
    requires piece { IsPieceOf job.now chunk }
    requires output { (chunks : List ArrayTrees) × IsOutput (schema_view job.now.plan.now.schema)
        (asked_of job.now) output.old chunks }
    ensures ok { (chunks : List ArrayTrees) → IsOutput (schema_view job.now.plan.now.schema)
        (asked_of job.now) output.old chunks → OnOk result
        (IsOutput (schema_view job.now.plan.now.schema) (asked_of job.now) output.new (chunks ++ chunk ∷ [])) }
    ensures err { IfErr result (λ e. e ≡ Memory) }
{
    let None = output.refusal else {
        return Ok(());
    };
    match put(alloc, job, chunk, &mut output.writer) {
        Ok(()) => Ok(()),
        Err(error) => keep(&mut output.refusal, error),
    }
}
