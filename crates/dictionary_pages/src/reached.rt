//! What the keys of a dictionary name, where a path reaches them.
ghost use Rattle.std.specs.Prelude.{◌≡◌, map, All};
ghost use Rattle.shredding.specs.Parts.{IsPath};
ghost use Rattle.columns_slots.specs.Slots.{child_of, entry_at, keys_in, tree_len};
ghost use Rattle.levels.specs.Nested.{parts_of};
ghost use Rattle.levels.specs.Ranges.{leaf_count_or};
ghost use Rattle.write_places.specs.Places.{path_places};
ghost use Rattle.pq_tree.specs.Views.{physical_view};
ghost use Rattle.write_values.specs.Rows.{Measures};
ghost use Rattle.write_values.specs.Stored.{stored_at};
ghost use Rattle.dictionary_pages.specs.Leaves.{IsEntryLeaf, NamesValue};
ghost use Rattle.dictionary_pages.specs.Indices.{IsLargest};

use crate::each_place::{EachPlace, take_each};
use crate::keys::entry_at;
use columns_array::DictionaryArray;
use columns_base::PhysicalType;
use columns_core::Result;
use levels::Nested;
use write_values::{Leaf, Measured, stretch_size};

// The values of keys: how many there are and how many bytes their plain spelling has, and the largest place of an entry.
#[derive(Clone, Copy, Drop)]
pub struct Reached {
    pub values: Measured,
    pub largest: usize,
}

// Measures what keys name.
#[derive(Drop)]
struct Reaching<'a> {
    array: &'a DictionaryArray,
    entries: Leaf<'a>,
    physical_type: PhysicalType,
    reached: Reached,
    ghost are: { IsEntryLeaf (child_of array.now) (physical_view physical_type) entries },
}

impl<'a> EachPlace for Reaching<'a> {
    ghost use Rattle.std.specs.Prelude.{◌≡◌, refl};
    ghost use Rattle.columns_slots.specs.Slots.{tree_len};
    ghost use Rattle.pq_tree.specs.Views.{physical_view};
    ghost use Rattle.dictionary_pages.specs.Leaves.{NamesValue};
    ghost use Rattle.dictionary_pages.specs.Reached.{Reaches, reaches-none};

    ghost limit = { λ s. tree_len s.array.now };

    ghost has = { λ a b places. (b.array.now ≡ a.array.now) × (b.physical_type ≡ a.physical_type)
        × Reaches (physical_view a.physical_type) a.array.now places a.reached b.reached };

    ghost accepts = { λ s i. NamesValue s.array.now i };

    ghost refuses = { λ s e. ⊥ };

    ghost none = { λ s. (refl, refl, reaches-none (physical_view s.physical_type) s.array.now s.reached) };

    fn len(&self) -> usize {
        self.array.len()
    }

    fn take_one(&mut self, place: usize) -> Result<()> {
        self.array.know();
        let _count = self.array.values().len();
        let entry = entry_at(self.array.keys(), place);
        let plain = stretch_size(self.entries, entry, entry + 1);
        self.reached = Reached {
            values: Measured {
                values: self.reached.values.values.saturating_add(1),
                plain: self.reached.values.plain.saturating_add(plain),
            },
            largest: self.reached.largest.max(entry),
        };
        Ok(())
    }
}

// What the keys that a path reaches name, each of which names a value. It takes no memory.
pub fn reach_along(
    array: &DictionaryArray,
    entries: Leaf<'_>,
    physical_type: PhysicalType,
    nested: &[Nested],
) -> Reached
    requires well { IsPath (parts_of nested.now) }
    requires leaf { tree_len array.now ≡ leaf_count_or 0 (parts_of nested.now) }
    requires entries { IsEntryLeaf (child_of array.now) (physical_view physical_type) entries }
    requires named { All (NamesValue array.now) (path_places (parts_of nested.now)) }
    ensures values { Measures (physical_view physical_type) (tree_len array.now)
        (stored_at array.now (physical_view physical_type)) (path_places (parts_of nested.now)) result.values }
    ensures largest { IsLargest (map (entry_at (keys_in array.now))
        (path_places (parts_of nested.now))) result.largest }
{
    let reaching = Reaching {
        array,
        entries,
        physical_type,
        reached: Reached {
            values: Measured {
                values: 0,
                plain: 0,
            },
            largest: 0,
        },
    };
    match take_each(reaching, nested) {
        Ok(reaching) => reaching.reached,
        Err(_) => unreachable!(),
    }
}
