//! The readers of leaves, by their types, and the arrays that are made of what they decode (Parquet format, "Types" and LogicalTypes; Arrow
//! columnar format, "Physical Memory Layout"): truth values, nulls alone, whole numbers, dates, times and decimals over INT32 and INT64, texts and byte strings,
//! intervals over twelve bytes, decimals over one to sixteen, and byte strings of one size.
#![tactic(auto)]

mod array;
mod boxes;
mod fixed;
mod fixed_bytes;
mod kind;
mod laws;
mod nulls;
mod numbers;
mod strings;
mod truths;

pub use array::LeafArray;
pub use boxes::NumberBox;
pub use fixed::Fixed;
pub use fixed_bytes::FixedBytes;
pub use kind::LeafKind;
pub use laws::leaves_are_read;
pub use nulls::Nulls;
pub use numbers::Numbers;
pub use strings::Strings;
pub use truths::Truths;
