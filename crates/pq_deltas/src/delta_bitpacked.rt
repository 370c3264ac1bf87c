//! Delta packing (Parquet format, Encodings, "Delta Encoding").

pub use crate::delta_encode::{Encoder, encode, encode_i32};
