//! The ends of a rewrite: sources and sinks of bytes, in memory and over streams, and the loops that read one whole and hand a whole text to the other.
#![tactic(auto)]

mod memory_sink;
mod memory_source;
mod piece_sink;
mod plain_sink;
mod plain_source;
mod push;
mod read;
mod sink;
mod source;
mod std_sink;
mod std_source;

pub use memory_sink::MemorySink;
pub use memory_source::MemorySource;
pub use piece_sink::PieceSink;
pub use plain_sink::PlainSink;
pub use plain_source::PlainSource;
pub use push::{push_all, push_owned};
pub use read::read_all;
pub use sink::{Sink, SinkFault};
pub use source::{Failed, Source};
pub use std_sink::StdSink;
pub use std_source::StdSource;
