//! Reads delta packing (Parquet format, Encodings, "Delta Encoding" and "Delta-length byte array").
#![tactic(auto)]

mod begin;
mod bits;
mod buffer;
mod decoder;
pub mod delta_bitpacked;
mod head;
mod laws;
mod numbers;
mod state;
mod strings;
mod take;

pub use bits::{unpack_block, unpack_into};
pub use laws::{deltas_are_read, heads_are_read, written_deltas_are_read};
pub use numbers::{push_plain_i32, push_plain_i64};
pub use strings::push_plain_strings;
