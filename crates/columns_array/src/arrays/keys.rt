//! Tests and readings of a dictionary's keys, whichever type they have.
ghost use Rattle.std.specs.Prelude.{◌≡◌, ◌↔◌, ◌<◌, IsTrue, map, pos, slice_index_or, length as list_length};
ghost use Rattle.columns_core.specs.Rising.{IsWhole};
ghost use Rattle.columns_slots.specs.Slots.{AreKeys, entry_at};
ghost use Rattle.shredding.specs.Parts.{keeps};
ghost use Rattle.columns_leaf.specs.Keyed.{keys_of, key_mask};
ghost use Rattle.columns_array.specs.Keys.{IsKey};

use columns_core::{DictionaryKey, NativeType};
use columns_leaf::keys::DictionaryKeys;
use columns_leaf::leaves::PrimitiveArray;

/// Whether a position is not null by the array's mask.
#[tactic(auto, using(crate::proofs::Keys::kept_bit, crate::proofs::Keys::mask_long))]
fn is_kept<T: NativeType>(array: &PrimitiveArray<T>, i: usize) -> bool
    requires { i < list_length array.now.1.0 }
    ensures { result ≡ keeps array.now.1.1 i }
{
    array.know();
    match array.validity() {
        Some(mask) => mask.get_bit(i),
        None => true,
    }
}

/// Whether the key at a position numbers one of as many entries, or is null.
#[tactic(auto, using(crate::proofs::Keys::fits_mapped, crate::proofs::Keys::fits_null))]
fn is_below_or_null<K: DictionaryKey>(keys: &PrimitiveArray<K>, i: usize, count: usize) -> bool
    requires { i < list_length keys.now.1.0 }
    ensures { IsTrue result ↔ IsKey keys.now.1.1 (map K.number keys.now.1.0) count i }
{
    if !is_kept(keys, i) {
        return true;
    }
    keys.values()[i].is_below(count)
}

/// Whether each key that is not null numbers one of as many entries.
#[tactic(auto, using(crate::proofs::Keys::keys_none, crate::proofs::Keys::keys_more))]
fn all_below<K: DictionaryKey>(keys: &PrimitiveArray<K>, count: usize) -> bool
    ensures { IsTrue result ↔ AreKeys keys.now.1.1 (map K.number keys.now.1.0) count }
{
    for i in 0..keys.len() {
        if !is_below_or_null(keys, i, count) {
            return false;
        }
    }
    true
}

/// Whether each key that is not null numbers one of as many entries.
#[tactic(auto, using(crate::proofs::Keys::signed_keys))]
pub fn are_below(keys: &DictionaryKeys, count: usize) -> bool
    ensures { IsTrue result ↔ AreKeys (key_mask keys.now) (keys_of keys.now) count }
{
    match keys {
        DictionaryKeys::Int8(a) => all_below(a, count),
        DictionaryKeys::Int16(a) => all_below(a, count),
        DictionaryKeys::Int32(a) => all_below(a, count),
        DictionaryKeys::Int64(a) => all_below(a, count),
        DictionaryKeys::UInt8(a) => all_below(a, count),
        DictionaryKeys::UInt16(a) => all_below(a, count),
        DictionaryKeys::UInt32(a) => all_below(a, count),
        DictionaryKeys::UInt64(a) => all_below(a, count),
    }
}

/// Whether the key at a position is not null.
#[tactic(auto, using(crate::proofs::Keys::kept_bit, crate::proofs::Keys::mask_long))]
pub fn is_key(keys: &DictionaryKeys, i: usize) -> bool
    requires { i < list_length (keys_of keys.now) }
    ensures { result ≡ keeps (key_mask keys.now) i }
{
    keys.know();
    match keys.validity() {
        Some(mask) => mask.get_bit(i),
        None => true,
    }
}

/// The number of the key at a position, which is not negative.
#[tactic(auto, using(crate::proofs::Keys::at_mapped, crate::proofs::Keys::entry_mapped))]
fn entry_in<K: DictionaryKey>(keys: &PrimitiveArray<K>, i: usize) -> usize
    requires within { i < list_length keys.now.1.0 }
    requires whole { IsWhole (slice_index_or (map K.number keys.now.1.0) i (pos 0)) }
    ensures { result ≡ entry_at (map K.number keys.now.1.0) i }
{
    keys.values()[i].to_usize()
}

/// The entry that the key at a position numbers.
#[tactic(auto, using(crate::proofs::Keys::signed_map))]
pub fn entry(keys: &DictionaryKeys, i: usize) -> usize
    requires within { i < list_length (keys_of keys.now) }
    requires whole { IsWhole (slice_index_or (keys_of keys.now) i (pos 0)) }
    ensures { result ≡ entry_at (keys_of keys.now) i }
{
    match keys {
        DictionaryKeys::Int8(a) => entry_in(a, i),
        DictionaryKeys::Int16(a) => entry_in(a, i),
        DictionaryKeys::Int32(a) => entry_in(a, i),
        DictionaryKeys::Int64(a) => entry_in(a, i),
        DictionaryKeys::UInt8(a) => entry_in(a, i),
        DictionaryKeys::UInt16(a) => entry_in(a, i),
        DictionaryKeys::UInt32(a) => entry_in(a, i),
        DictionaryKeys::UInt64(a) => entry_in(a, i),
    }
}
