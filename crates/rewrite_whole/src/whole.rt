//! A whole input to a whole output.
ghost use Rattle.std.specs.Prelude.{◌≡◌, ◌≢◌, Some, IfOk, IfErr};
ghost use Rattle.pq_io.specs.PieceSinks.{pieces_taken};
ghost use Rattle.rewrite_whole.specs.Asks.{Gives, Says, asked_by, codec_of};
ghost use Rattle.rewrite_whole.specs.Views.{Grows};

use crate::checks::{check_pairs, place_of};
use crate::finish::{begin_output, finish_output};
use crate::groups::write_groups;
use crate::job::Job;
use crate::places::check_groups;
use crate::plan::plan_schema;
use crate::{Report, RewriteOptions, View};
use columns_base::Result;
use pq_container::{frames_are_told, read_metadata};
use pq_headline::{outputs_are_refused, written_is_converted};
use pq_io::PieceSink;
use schema_codec::SchemaCodec;
use std::alloc::Global;

/// Reads the whole input and makes the whole output, in memory: stage after stage, each of which finds that none of its conditions holds.
pub fn convert<C: SchemaCodec, V: View>(
    alloc: Global,
    input: &[u8],
    options: &RewriteOptions,
    codec: &C,
    view: &mut V,
) -> Result<(PieceSink, Report)>
    requires rows { options.now.chunk_size ≢ Some 0 }
    ensures ok { IfOk result (λ made. Gives (codec_of (C.bytes_of codec.now) (C.reads codec.now)) (asked_by options.now)
        (V.seen view.old) (V.seen view.new) input.now (pieces_taken made.0) made.1) }
    ensures err { IfErr result (Says (codec_of (C.bytes_of codec.now) (C.reads codec.now))
        (asked_by options.now) input.now) }
    ensures grows { Grows (V.seen view.old) (V.seen view.new) }
{
    frames_are_told();
    written_is_converted();
    outputs_are_refused();
    let metadata = match read_metadata(alloc, input) {
        Ok(metadata) => metadata,
        Err(error) => return Err(error),
    };
    check_pairs(&metadata, options.pair_limit)?;
    let place = place_of(input)?;
    if let Err(error) = check_groups(&metadata, place) {
        return Err(error);
    }
    let plan = match plan_schema(alloc, &metadata, options.key_rule, options.delta, codec) {
        Ok(plan) => plan,
        Err(error) => return Err(error),
    };
    let job = Job {
        input,
        place,
        metadata: &metadata,
        plan: &plan,
        options,
    };
    let mut output = begin_output(alloc, &job)?;
    if let Err(error) = write_groups(alloc, &job, view, &mut output) {
        return Err(error);
    }
    finish_output(alloc, &job, output, codec)
}
