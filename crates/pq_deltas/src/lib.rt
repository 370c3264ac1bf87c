//! Writes delta packing, whose definitions stand in `pq_runs` (Parquet format, Encodings, "Delta Encoding").
#![tactic(auto)]

pub mod delta_bitpacked;
mod delta_block;
mod delta_encode;
mod waiting;
