//! The entries that keys number.
ghost use Rattle.std.specs.Prelude.{◌≡◌, ◌↔◌, ◌<◌, IsTrue, pos, length, slice_index_or};
ghost use Rattle.columns_core.specs.Rising.{IsWhole, whole};
ghost use Rattle.columns_slots.specs.Slots.{entry_at};
ghost use Rattle.columns_leaf.specs.Keyed.{keys_of};

use columns_core::DictionaryKey;
use columns_leaf::keys::DictionaryKeys;

// The number of a key, and 0 where it is negative.
fn whole(key: i64) -> usize
    ensures { result ≡ whole key }
{
    if key < 0 { 0 } else { key as usize }
}

// The entry that the key at a position numbers.
pub fn entry_at(keys: &DictionaryKeys, i: usize) -> usize
    requires { i < length (keys_of keys.now) }
    ensures { result ≡ entry_at (keys_of keys.now) i }
{
    match keys {
        DictionaryKeys::Int8(a) => whole(i64::from(a.values()[i])),
        DictionaryKeys::Int16(a) => whole(i64::from(a.values()[i])),
        DictionaryKeys::Int32(a) => whole(i64::from(a.values()[i])),
        DictionaryKeys::Int64(a) => whole(a.values()[i]),
        DictionaryKeys::UInt8(a) => usize::from(a.values()[i]),
        DictionaryKeys::UInt16(a) => usize::from(a.values()[i]),
        DictionaryKeys::UInt32(a) => a.values()[i] as usize,
        DictionaryKeys::UInt64(a) => a.values()[i] as usize,
    }
}

// Whether the key at a position numbers one of so many entries.
pub fn numbers_entry(keys: &DictionaryKeys, i: usize, count: usize) -> bool
    requires { i < length (keys_of keys.now) }
    ensures { IsTrue result ↔ IsWhole (slice_index_or (keys_of keys.now) i (pos 0))
        × (entry_at (keys_of keys.now) i < count) }
{
    match keys {
        DictionaryKeys::Int8(a) => a.values()[i].is_below(count),
        DictionaryKeys::Int16(a) => a.values()[i].is_below(count),
        DictionaryKeys::Int32(a) => a.values()[i].is_below(count),
        DictionaryKeys::Int64(a) => a.values()[i].is_below(count),
        DictionaryKeys::UInt8(a) => a.values()[i].is_below(count),
        DictionaryKeys::UInt16(a) => a.values()[i].is_below(count),
        DictionaryKeys::UInt32(a) => a.values()[i].is_below(count),
        DictionaryKeys::UInt64(a) => a.values()[i].is_below(count),
    }
}
