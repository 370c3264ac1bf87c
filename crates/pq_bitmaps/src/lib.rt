//! Runs of single bits, handed on run by run (Parquet format, Encodings, "Run Length Encoding / Bit-Packing Hybrid"), and
//! the parts of them that selected rows have.
#![tactic(auto)]

mod cursor;
mod filter;
mod filtered;
mod laws;
mod part;
mod runs;
mod stretch;

pub use filtered::FilteredHybridRleDecoderIter;
pub use laws::bits_are_spelled;
pub use part::{FilteredHybridEncoded, HybridEncoded, Interval};
pub use runs::HybridDecoderBitmapIter;
pub use stretch::Stretch;
