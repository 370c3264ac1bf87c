//! Runs of numbers of a few bits: the hybrid of run lengths and packed bits (Parquet format, Encodings,
//! "Run Length Encoding / Bit-Packing Hybrid").
#![tactic(auto)]

mod bit_block;
mod bits;
mod block;
mod changes;
mod decoder;
mod encode;
mod group;
mod hybrid;
pub mod hybrid_rle;
mod laws;
mod narrow;
mod numbers;
mod pack;
mod plain;
mod run;
mod runs;
mod settle;
mod state;
mod whole;
mod wide;
mod words;
mod writer;

pub use bits::{get_bit_width, low_bytes, number_at, unpack, whole_number};
pub use encode::{encode_bool, encode_u32};
pub use hybrid::HybridRleDecoder;
pub use laws::{
    as_worked, runs_are_read, runs_are_unique, written_runs_are_runs, written_runs_are_short,
};
pub use plain::bitpacked_encode;
pub use whole::decode;
pub use wide::push_packed_wide;
pub use writer::RunWriter;
