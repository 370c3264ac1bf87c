//! Runs as they stand in the bytes, under the names of the field.

pub use crate::decoder::Decoder;
pub use crate::run::Run;
