//! Arrays without arrays inside: nulls, truth values, numbers, texts, byte strings, and the keys of dictionaries.
//!
//! Contracts see each as its type, its parts and its mask. What slots they stand for is said where they are put into arrays of any kind.
#![tactic(auto)]

pub mod binary;
pub mod fixed_size_binary;
pub mod keys;
pub mod leaves;
pub mod utf8;
pub mod validity;

pub use binary::BinaryArray;
pub use fixed_size_binary::FixedSizeBinaryArray;
pub use keys::DictionaryKeys;
pub use leaves::{BooleanArray, NullArray, PrimitiveArray};
pub use utf8::Utf8Array;
