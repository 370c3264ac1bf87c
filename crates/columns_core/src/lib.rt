//! Bitmaps, offsets, Arrow types and the reasons of refusals.
#![tactic(auto)]

mod bit_runs;
mod bit_words;
pub mod bitmap;
mod bitmap_iter;
mod clone;
pub mod dictionary_key;
mod equal;
pub mod metadata;
pub mod mutable_bitmap;
pub mod mutable_offsets;
pub mod native;
pub mod nesting;
pub mod offsets;
pub mod parquet_native;
pub mod types;
mod walk;

pub use bitmap::Bitmap;
pub use bitmap_iter::BitmapIter;
pub use columns_base::{A, Error, Limit, N, PhysicalType, Result, S, V};
pub use dictionary_key::DictionaryKey;
pub use equal::{is_same_field, is_same_schema, is_same_type};
pub use metadata::Metadata;
pub use mutable_bitmap::MutableBitmap;
pub use mutable_offsets::Offsets;
pub use native::{DaysMs, NativeType};
pub use nesting::{MAX_NESTING, all_nest_within};
pub use offsets::{Offset, OffsetsBuffer};
pub use parquet_native::ParquetNativeType;
pub use types::{DataType, Field, IntegerType, IntervalUnit, Schema, TimeUnit};
