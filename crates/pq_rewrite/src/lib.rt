//! The top call: it rewrites a Parquet file from a source to a sink, as words ask.
#![tactic(auto)]

mod call;
mod sampling;

pub use call::run;
pub use pq_io::{
    Failed, MemorySink, MemorySource, PieceSink, PlainSink, PlainSource, Sink, SinkFault, Source,
    StdSink, StdSource, push_all, push_owned, read_all,
};
pub use rewrite_notes::Report;
pub use rewrite_whole::{NoView, RowsView, View, rewrite};
pub use rewrite_words::{RewriteOptions, read_sample, read_words};
pub use schema_key::KeyRule;
