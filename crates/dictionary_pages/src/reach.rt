//! Whether the keys that a path reaches number entries.
ghost use Rattle.std.specs.Prelude.{◌≡◌, ◌↔◌, ◌<◌, true, IsTrue};
ghost use Rattle.shredding.specs.Parts.{IsPath, path_slots, path_way};
ghost use Rattle.columns_core.specs.Shapes.{base, leaf_type};
ghost use Rattle.columns_slots.specs.Slots.{child_of, tree_len, type_of};
ghost use Rattle.levels.specs.Nested.{parts_of};
ghost use Rattle.levels.specs.Ranges.{leaf_count_or};
ghost use Rattle.nested_paths.specs.PathLeaf.{is_leaf_optional};
ghost use Rattle.nested_paths.specs.Seen.{leaf_slot};
ghost use Rattle.pq_tree.specs.Physical.{Physical};
ghost use Rattle.dictionary_pages.specs.Entries.{is_entry};
ghost use Rattle.dictionary_pages.specs.Keys.{AreKeyed, AreRowsOf, IsKeyed};

use crate::each_place::{EachPlace, take_each};
use crate::keys::{entry_at, numbers_entry};
use columns_array::DictionaryArray;
use columns_core::Result;
use levels::Nested;

// Whether the key at a position numbers an entry, one that is not null where the leaf is required.
fn is_keyed(array: &DictionaryArray, is_optional: bool, i: usize) -> bool
    requires { i < tree_len array.now }
    ensures { IsTrue result ↔ IsKeyed is_optional array.now i }
{
    array.know();
    if !numbers_entry(array.keys(), i, array.values().len()) {
        return false;
    }
    if is_optional {
        return true;
    }
    !array.values().is_null_at(entry_at(array.keys(), i))
}

// Looks for keys that number no entry.
#[derive(Drop)]
struct Checking<'a> {
    array: &'a DictionaryArray,
    is_optional: bool,
    are_keyed: bool,
}

impl<'a> EachPlace for Checking<'a> {
    ghost use Rattle.std.specs.Prelude.{◌≡◌, refl};
    ghost use Rattle.columns_slots.specs.Slots.{tree_len};
    ghost use Rattle.dictionary_pages.specs.Keys.{IsKeyed};
    ghost use Rattle.dictionary_pages.specs.Taken.{Checks, checks-none};

    ghost limit = { λ s. tree_len s.array.now };

    ghost has = { λ a b places. (b.array.now ≡ a.array.now) × (b.is_optional ≡ a.is_optional)
        × Checks (IsKeyed a.is_optional a.array.now) places a.are_keyed b.are_keyed };

    ghost accepts = { λ s i. Unit {0} };

    ghost refuses = { λ s e. ⊥ };

    ghost none = { λ s. (refl, refl, checks-none (IsKeyed s.is_optional s.array.now) s.are_keyed) };

    fn len(&self) -> usize {
        self.array.len()
    }

    fn take_one(&mut self, place: usize) -> Result<()> {
        self.are_keyed &= is_keyed(self.array, self.is_optional, place);
        Ok(())
    }
}

// Whether the leaf of a path may be null.
fn is_leaf_optional(nested: &[Nested]) -> bool
    ensures { result ≡ is_leaf_optional (parts_of nested.now) }
{
    let mut parts = nested;
    while let Some((part, rest)) = parts.split_first() {
        if let Nested::Primitive(_, is_optional, _) = part {
            return *is_optional;
        }
        parts = rest;
    }
    false
}

/// Whether each key that a well-formed path reaches in its leaf, a dictionary, numbers an entry, and where the leaf is required one that is
/// not null (Arrow columnar format, "Dictionary-encoded Layout"). It takes no memory.
pub fn reaches_entries(array: &DictionaryArray, nested: &[Nested]) -> bool
    requires well { IsPath (parts_of nested.now) }
    requires leaf { tree_len array.now ≡ leaf_count_or 0 (parts_of nested.now) }
    ensures exact { IsTrue result ↔ AreKeyed array.now (parts_of nested.now) }
    ensures rows { (p : Physical) → is_entry (base (type_of (child_of array.now))) p ≡ true → IsTrue result
        → AreRowsOf (leaf_type (type_of array.now)) (path_way (parts_of nested.now))
        (path_slots (leaf_slot array.now) (parts_of nested.now)) }
{
    array.know();
    let checking = Checking {
        array,
        is_optional: is_leaf_optional(nested),
        are_keyed: true,
    };
    match take_each(checking, nested) {
        Ok(checked) => checked.are_keyed,
        Err(_) => unreachable!(),
    }
}
