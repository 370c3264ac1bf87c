//! The entries that keys number.
ghost use Rattle.std.specs.Prelude.{◌≡◌, ◌<◌, map, pos, slice_index_or, length};
ghost use Rattle.columns_core.specs.Rising.{IsWhole};
ghost use Rattle.columns_leaf.specs.Keyed.{keys_of};
ghost use Rattle.columns_slots.specs.Slots.{entry_at};

use columns_core::DictionaryKey;
use columns_leaf::{DictionaryKeys, PrimitiveArray};

// The number of the key at a position, which is not negative.
#[tactic(auto, using(columns_array::proofs::Keys::at_mapped, columns_array::proofs::Keys::entry_mapped))]
fn entry_in<K: DictionaryKey>(keys: &PrimitiveArray<K>, i: usize) -> usize
    requires within { i < length keys.now.1.0 }
    requires whole { IsWhole (slice_index_or (map K.number keys.now.1.0) i (pos 0)) }
    ensures { result ≡ entry_at (map K.number keys.now.1.0) i }
{
    keys.values()[i].to_usize()
}

// The entry that the key at a position numbers.
#[tactic(auto, using(columns_array::proofs::Keys::signed_map))]
pub fn entry(keys: &DictionaryKeys, i: usize) -> usize
    requires within { i < length (keys_of keys.now) }
    requires whole { IsWhole (slice_index_or (keys_of keys.now) i (pos 0)) }
    ensures { result ≡ entry_at (keys_of keys.now) i }
{
    match keys {
        DictionaryKeys::Int8(a) => entry_in(a, i),
        DictionaryKeys::Int16(a) => entry_in(a, i),
        DictionaryKeys::Int32(a) => entry_in(a, i),
        DictionaryKeys::Int64(a) => entry_in(a, i),
        DictionaryKeys::UInt8(a) => entry_in(a, i),
        DictionaryKeys::UInt16(a) => entry_in(a, i),
        DictionaryKeys::UInt32(a) => entry_in(a, i),
        DictionaryKeys::UInt64(a) => entry_in(a, i),
    }
}
