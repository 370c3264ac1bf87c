//! The output's beginning and end.
ghost use Rattle.std.specs.Prelude.{◌≡◌, [], List, Some, IfOk, IfErr};
ghost use Rattle.columns_base.specs.declared.error.Error.TheVariants.{Memory};
ghost use Rattle.columns_core.specs.View.{schema_view};
ghost use Rattle.columns_slots.specs.Tree.{ArrayTrees};
ghost use Rattle.pq_files.specs.Layout.{OutGroup};
ghost use Rattle.write_groups.specs.Writing.{IsWriting};
ghost use Rattle.pq_io.specs.PieceSinks.{pieces_taken};
ghost use Rattle.rewrite_whole.specs.Asks.{codec_of};
ghost use Rattle.rewrite_whole.specs.Groups.{IsOutput, taken_by, write_options};
ghost use Rattle.rewrite_whole.specs.Ready.{EndRefuses, FinishRefuses, Finishes, IsEnded, IsReady, asked_of};

use crate::encode::options_of;
use crate::job::Job;
use crate::keys::other_keys;
use crate::{Output, Report};
use columns_base::Result;
use pq_io::PieceSink;
use schema_codec::SchemaCodec;
use std::alloc::Global;
use write_groups::FileWriter;

/// An output of no piece yet.
pub fn begin_output(alloc: Global, job: &Job) -> Result<Output>
    requires ready { IsReady job.now }
    ensures ok { IfOk result (λ output. IsOutput (schema_view job.now.plan.now.schema) (asked_of job.now) output []) }
    ensures err { IfErr result (λ e. e ≡ Memory) }
{
    let schema = job.plan.schema.clone(alloc)?;
    let sink = PieceSink::new(alloc);
    match FileWriter::try_new(alloc, sink, schema, options_of(job.options)) {
        Ok(writer) => Ok(Output {
            writer,
            refusal: None,
        }),
        Err(error) => Err(error),
    }
}

/// Writes the footer behind the groups, and counts them.
fn end_output<C: SchemaCodec>(
    alloc: Global,
    job: &Job,
    writer: FileWriter<PieceSink>,
    codec: &C,
) -> Result<(PieceSink, Report)>
    requires schema { schema_view writer.file.schema ≡ schema_view job.now.plan.now.schema }
    requires options { writer.options ≡ write_options (asked_of job.now) }
    ensures ok { (outs : List OutGroup) → IsWriting taken_by (Some []) writer outs
        → IfOk result (λ made. IsEnded (codec_of (C.bytes_of codec.now) (C.reads codec.now)) job.now outs
        (pieces_taken made.0) made.1) }
    ensures err { (outs : List OutGroup) → IsWriting taken_by (Some []) writer outs
        → IfErr result (EndRefuses (codec_of (C.bytes_of codec.now) (C.reads codec.now)) job.now outs) }
{
    let mut writer = writer;
    let report = Report {
        groups: writer.groups() as u64,
        rows: writer.rows(),
        data_pages: writer.data_pages(),
    };
    let keys = match other_keys(alloc, &job.metadata.key_value_metadata) {
        Ok(keys) => keys,
        Err(error) => return Err(error),
    };
    match writer.end(keys, codec) {
        Ok(_) => Ok((writer.into_inner(), report)),
        Err(error) => Err(error),
    }
}

/// Ends an output, or answers why it was refused.
pub fn finish_output<C: SchemaCodec>(
    alloc: Global,
    job: &Job,
    output: Output,
    codec: &C,
) -> Result<(PieceSink, Report)>
    requires output { (chunks : List ArrayTrees) × IsOutput (schema_view job.now.plan.now.schema)
        (asked_of job.now) output chunks }
    ensures ok { (chunks : List ArrayTrees) → IsOutput (schema_view job.now.plan.now.schema)
        (asked_of job.now) output chunks
        → IfOk result (λ made. Finishes (codec_of (C.bytes_of codec.now) (C.reads codec.now)) job.now chunks
        (pieces_taken made.0) made.1) }
    ensures err { (chunks : List ArrayTrees) → IsOutput (schema_view job.now.plan.now.schema)
        (asked_of job.now) output chunks
        → IfErr result (FinishRefuses (codec_of (C.bytes_of codec.now) (C.reads codec.now)) job.now chunks) }
{
    match output.refusal {
        Some(error) => Err(error),
        None => end_output(alloc, job, output.writer, codec),
    }
}
