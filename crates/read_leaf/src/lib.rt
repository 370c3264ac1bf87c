//! Decoders of a leaf's plain values (Parquet format, Encodings, "Plain"), for the level walk of `read_walk`: truth values, whole numbers, dates,
//! times and decimals over INT32 and INT64, texts and byte strings, and over fixed bytes intervals, decimals and byte strings of one size. Values
//! are taken in whole stretches, nulls too.
#![tactic(auto)]

mod binary;
mod bit_words;
mod cut;
mod fixed;
mod fixed_bytes;
mod fixed_values;
mod laws;
mod lengths;
mod loaded;
mod nulls;
mod plain;
mod primitive;
mod room;
mod set_bits;
mod stored;
mod strings;
mod texts;
mod truths;

pub use binary::Binary;
pub use fixed::{FixedDecoder, FixedValue};
pub use fixed_bytes::{FixedBytesDecoder, FixedBytesValues};
pub use laws::{
    fronts_are_read, loaded_is_stored, numbers_are_read, strings_are_read, strings_are_stored,
};
pub use nulls::{NullDecoder, NullValues};
pub use primitive::{NumberValues, PlainNumbers, PrimitiveDecoder};
pub use stored::{FromStored, StoredNumber};
pub use strings::{Bytes, PlainStrings, StringDecoder, StringKind, StringValues, Text};
pub use truths::{PlainTruths, TruthDecoder, TruthValues};
