//! The frame of a call: it reads, converts, and only then writes.
ghost use Rattle.std.specs.Prelude.{◌≡◌, ◌≢◌, ◌≤◌, ◌↔◌, Some, IsErrOf};
ghost use Rattle.columns_base.specs.declared.error.Error.{Error};
ghost use Rattle.columns_base.specs.declared.error.A.{A};
ghost use Rattle.pq_io.specs.Reading.{GaveSome};
ghost use Rattle.rewrite_whole.specs.Answer.{KeptUnlessWritten, Rewrote, ends, meaning};
ghost use Rattle.rewrite_whole.specs.Asks.{Causes, Gives, asked_by, codec_of};
ghost use Rattle.rewrite_whole.specs.Views.{Grows};

use crate::whole::convert;
use crate::{Report, RewriteOptions, View};
use columns_base::{A, Error, Result};
use pq_io::{Sink, Source, read_all};
use schema_codec::SchemaCodec;
use std::alloc::Global;

/// Reads a file from the source, and writes its rows anew to the sink. It reads first, and writes last.
///
/// # Errors
///
/// - `InvalidArgumentError(A1)`: a chunk size of no rows.
/// - Each other one by its condition: see `Causes`, and `Rewrote` for the ends.
pub fn rewrite<S: Source, K: Sink, C: SchemaCodec, V: View>(
    alloc: Global,
    source: &mut S,
    sink: &mut K,
    codec: &C,
    options: RewriteOptions,
    view: &mut V,
) -> Result<Report>
    // Of a chunk size of no rows nothing is read.
    ensures no_rows { IsErrOf result (Error.InvalidArgumentError A.A1) ↔ (options.chunk_size ≡ Some 0) }
    ensures untouched { options.chunk_size ≡ Some 0 → (source.new ≡ source.old) × (sink.new ≡ sink.old)
        × (view.new ≡ view.old) }
    // What every other answer says.
    ensures answer { options.chunk_size ≢ Some 0
        → Rewrote
        (meaning
        (Gives (codec_of (C.bytes_of codec.now) (C.reads codec.now)) (asked_by options) (V.seen view.old)
        (V.seen view.new))
        (Causes (codec_of (C.bytes_of codec.now) (C.reads codec.now)) (asked_by options))) options.byte_limit
        (ends S.left S.faults K.taken K.faults source.old source.new sink.old sink.new) result }
    ensures kept { KeptUnlessWritten (sink.new ≡ sink.old) result }
    ensures read_some { GaveSome options.byte_limit (S.left source.old) (S.left source.new) }
    ensures reads_later { S.faults source.old ≤ S.faults source.new }
    ensures writes_later { K.faults sink.old ≤ K.faults sink.new }
    // The view's list begins with what it held, whatever the answer is.
    ensures shown { Grows (V.seen view.old) (V.seen view.new) }
{
    if options.chunk_size == Some(0) {
        return Err(Error::InvalidArgumentError(A::A1));
    }
    let input = read_all(alloc, source, options.byte_limit)?;
    let (made, report) = match convert(alloc, &input, &options, codec, view) {
        Ok(made) => made,
        Err(error) => return Err(error),
    };
    made.push_to(sink)?;
    Ok(report)
}
