//! Delta packing (Parquet format, Encodings, "Delta Encoding").

pub use crate::decoder::Decoder;
