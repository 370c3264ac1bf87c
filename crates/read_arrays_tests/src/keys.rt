//! The texts "a" and "bc" by keys of 8 bits (Parquet format, "Dictionary Page", Encodings).
use crate::pages::{Form, Place, page};
use columns_array::ArrayBox;
use columns_base::{PhysicalType, Result};
use columns_core::{DataType, IntegerType};
use columns_leaf::keys::DictionaryKeys;
use pq_pages::Page;
use std::alloc::Global;

/// The texts "a" and "bc" in PLAIN (Parquet format, Encodings, "Plain").
pub const TWO: &[u8] = &[1, 0, 0, 0, 97, 2, 0, 0, 0, 98, 99];

/// 0, null, 1, 1, 0: definition levels behind their length, and the indices 0, 1, 1, 0, packed in a bit each.
pub const PACKED: &[u8] = &[2, 0, 0, 0, 3, 0b0001_1101, 1, 3, 0b0000_0110];

/// 1, 1, 1: a run of three levels, and one of three indices.
pub const REPEATED: &[u8] = &[2, 0, 0, 0, 6, 1, 1, 6, 1];

/// The index 2, three times, behind three levels.
pub const PAST: &[u8] = &[2, 0, 0, 0, 6, 1, 2, 6, 2];

/// A list of 0 and 1, an empty list, and a list of 1: repetition levels 0, 1, 0, 0, definition levels 1, 1, 0, 1, and the indices 0, 1, 1.
pub const LISTS: &[u8] = &[2, 0, 0, 0, 3, 0b0010, 2, 0, 0, 0, 3, 0b1011, 1, 3, 0b0110];

/// A page of so many pairs, whose values are indices.
pub fn indices(alloc: Global, place: Place, count: u8, body: &[u8]) -> Result<Page> {
    page(
        alloc,
        PhysicalType::ByteArray,
        place,
        count,
        Form::Indices,
        body,
    )
}

/// Entries of this type, by keys of 8 bits.
pub fn keyed(alloc: Global, entries: DataType) -> Result<DataType> {
    Ok(DataType::Dictionary(IntegerType::Int8, Box::new(alloc, entries)?, false))
}

// The keys are these, with so many nulls.
fn has_keys(keys: &DictionaryKeys, want: &[i8], nulls: usize) -> bool {
    match keys {
        DictionaryKeys::Int8(keys) => keys.values() == want && keys.null_count() == nulls,
        _ => false,
    }
}

/// The entries are "a" and "bc".
pub fn has_entries(entries: &ArrayBox) -> bool {
    match entries {
        ArrayBox::Utf8(array) => {
            array.values() == b"abc".as_slice() && array.offsets().buffer() == [0, 1, 3].as_slice()
        }
        _ => false,
    }
}

/// An array of these keys, 0 in the place of nulls, so many nulls, and both entries.
pub fn is_of(array: &ArrayBox, keys: &[i8], nulls: usize) -> bool {
    match array {
        ArrayBox::Dictionary(array) => {
            has_keys(array.keys(), keys, nulls) && has_entries(array.values())
        }
        _ => false,
    }
}
