//! The rewrite of a file in memory.
ghost use Rattle.std.specs.Prelude.{IfOk, IfErr};
ghost use Rattle.pq_io.specs.PlainSinks.{plain_taken};
ghost use Rattle.rewrite_whole.specs.Asks.{Gives};
ghost use Rattle.rewrite_whole.specs.Views.{Grows};
ghost use Rattle.sample_run.specs.Files.{plain_codec, sample_asked};
ghost use Rattle.sample_run.specs.Refused.{IsNotRewritten};

use crate::options::REWRITTEN;
use columns_base::Result;
use pq_io::{PlainSink, PlainSource};
use rewrite_whole::{Report, View, rewrite};
use schema_codec::PlainCodec;
use std::alloc::Global;

/// Rewrites the file, and shows each piece to the view.
pub fn rewrite_file<V: View>(
    alloc: Global,
    input: Vec<u8>,
    view: &mut V,
) -> Result<(Report, PlainSink)>
    ensures ok { IfOk result (λ made. Gives plain_codec sample_asked (V.seen view.old) (V.seen view.new) input.items
        (plain_taken made.1) made.0) }
    ensures err { IfErr result (IsNotRewritten input.items) }
    ensures shown { Grows (V.seen view.old) (V.seen view.new) }
{
    let mut source = PlainSource::new(input);
    let mut sink = PlainSink::new(alloc);
    match rewrite(alloc, &mut source, &mut sink, &PlainCodec, REWRITTEN, view) {
        Ok(report) => Ok((report, sink)),
        Err(error) => Err(error),
    }
}
