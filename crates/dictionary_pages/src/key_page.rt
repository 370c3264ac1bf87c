//! The data page of a dictionary's keys.
ghost use Rattle.std.specs.Prelude.{◌≡◌, ◌⊎◌, ◌+◌, ◌*◌, ◌^◌, ◌<◌, ◌≤◌, ℕ, true, false, length, map, All, IfOk, IfErr};
ghost use Rattle.shredding.specs.Parts.{IsPath, path_slots, path_way};
ghost use Rattle.shredding.specs.Shred.{column};
ghost use Rattle.shredding.specs.Slot.{Value, value};
ghost use Rattle.columns_base.specs.declared.error.Error.TheVariants.{Memory, NotYetImplemented, Overflow};
ghost use Rattle.columns_base.specs.declared.error.N.TheVariants.{N5};
ghost use Rattle.columns_base.specs.declared.error.V.TheVariants.{V3};
ghost use Rattle.columns_core.specs.Shapes.{base, leaf_type};
ghost use Rattle.columns_entries.specs.Entries.{entries_of};
ghost use Rattle.columns_leaf.specs.Keyed.{keys_of};
ghost use Rattle.columns_slots.specs.Slots.{child_of, entry_at, tree_len, type_of};
ghost use Rattle.levels.specs.Nested.{nested_column, parts_of};
ghost use Rattle.levels.specs.Ranges.{leaf_count_or};
ghost use Rattle.nested_paths.specs.LeafNulls.{value_at};
ghost use Rattle.nested_paths.specs.Seen.{leaf_slot};
ghost use Rattle.pq_tree.specs.Reads.{ComesWhere};
ghost use Rattle.pq_tree.specs.Views.{physical_view};
ghost use Rattle.pq_files.specs.Room.{max_size};
ghost use Rattle.write_places.specs.Places.{path_places};
ghost use Rattle.write_values.specs.Pages.{column_room, stored_column};
ghost use Rattle.dictionary_pages.specs.Entries.{is_entry, stored_entries};
ghost use Rattle.dictionary_pages.specs.Indices.{IsLargest};
ghost use Rattle.dictionary_pages.specs.Keys.{AreRowsOf};
ghost use Rattle.dictionary_pages.specs.Leaves.{IsEntryLeaf, NamesValue};
ghost use Rattle.dictionary_pages.specs.Pages.{HoldsIndices, IsColumnPastRoom, IsIndexBody};

use crate::entries::entries_leaf;
use crate::entry_page::entries_fit;
use crate::indices::push_indices;
use crate::reached::reach_along;
use crate::seen_path::seen_path;
use crate::statistics::key_statistics;
use columns_array::DictionaryArray;
use columns_core::{Error, N, Result, V};
use columns_leaf::keys::DictionaryKeys;
use level_sections::write_rep_and_def;
use levels::{Nested, num_values, slot_count};
use pq_pages::DataPage;
use pq_tree::{Encoding, PrimitiveType, Version};
use std::alloc::Global;
use write_values::{Body, Counts, Leaf, PageForm, descriptor_of, has_room, page_header};

// The body of a page of the keys that a path reaches, the largest of which is told.
fn page_body(
    alloc: Global,
    keys: &DictionaryKeys,
    nested: &[Nested],
    version: Version,
    largest: usize,
) -> Result<Body>
    requires well { IsPath (parts_of nested.now) }
    requires parts { length nested.now ≤ 128 }
    requires leaf { leaf_count_or 0 (parts_of nested.now) ≤ length (keys_of keys.now) }
    requires largest { IsLargest (map (entry_at (keys_of keys.now)) (path_places (parts_of nested.now))) largest }
    requires low { largest < 2 ^ 32 }
    requires room { (values : ℕ → Value) → 2048 + 14 * length (nested_column values nested.now) ≤ max_size }
    ensures ok { (stored : ℕ → Value) → IfOk result
        (IsIndexBody version nested.now stored (map (entry_at (keys_of keys.now))
        (path_places (parts_of nested.now)))) }
    ensures err { IfErr result (λ e. e ≡ Memory) }
{
    let mut buffer = Vec::new(alloc);
    let (repetition, definition) = write_rep_and_def(version, nested, &mut buffer)?;
    let buffer = push_indices(keys, nested, largest, buffer)?;
    Ok(Body {
        buffer,
        repetition,
        definition,
    })
}

// A page of the keys that a path reaches, each of which names a value, and whose dictionary page has room.
fn seen_page(
    alloc: Global,
    array: &DictionaryArray,
    entries: Leaf<'_>,
    type_: PrimitiveType,
    nested: &[Nested],
    form: PageForm,
) -> Result<DataPage>
    requires well { IsPath (parts_of nested.now) }
    requires parts { length nested.now ≤ 128 }
    requires leaf { tree_len array.now ≡ leaf_count_or 0 (parts_of nested.now) }
    requires entries { IsEntryLeaf (child_of array.now) (physical_view type_.physical_type) entries }
    requires few { tree_len (child_of array.now) < 2 ^ 31 }
    requires named { All (NamesValue array.now) (path_places (parts_of nested.now)) }
    ensures ok { IfOk result (HoldsIndices form (leaf_type (type_of array.now)) (physical_view type_.physical_type)
        (path_way (parts_of nested.now)) (entries_of (child_of array.now))
        (stored_entries (child_of array.now) (physical_view type_.physical_type))
        (path_slots (λ i. value (value_at array.now i)) (parts_of nested.now)) type_) }
    ensures err { IfErr result (λ e. (e ≡ Memory) ⊎ ((e ≡ Overflow V3)
        × (max_size < column_room (physical_view type_.physical_type)
        (stored_column array.now (physical_view type_.physical_type) nested.now)))) }
{
    array.know();
    let reached = reach_along(array, entries, type_.physical_type, nested);
    let pairs = num_values(nested);
    if !has_room(pairs, reached.values.plain) {
        return Err(Error::Overflow(V::V3));
    }
    let body = page_body(alloc, array.keys(), nested, form.version, reached.largest)?;
    let nulls = pairs - reached.values.values;
    let statistics = key_statistics(
        alloc,
        array.values(),
        type_.physical_type,
        nulls,
        form.with_statistics,
    )?;
    let rows = slot_count(nested);
    let counts = Counts {
        pairs: pairs as u32,
        nulls: nulls as u32,
        rows: rows as u32,
    };
    let header = page_header(
        form.version,
        Encoding::RleDictionary,
        counts,
        statistics,
        &body,
    );
    let descriptor = descriptor_of(type_, nested);
    Ok(DataPage::new(header, body.buffer, descriptor, Some(rows)))
}

/// One data page of the keys that a well-formed path reaches in its leaf, a dictionary, in the version that is asked for (Parquet format, "Data
/// Pages", "Nested Encoding"; Encodings, "Dictionary Encoding", number 8). The page stands for the column of the slots of the path, keys of
/// null entries being null: its levels, and behind a byte with the least width that holds them the places of the values' entries as runs;
/// of no value that byte alone, 0. Its header has statistics exactly where they are wanted: the pairs without a value are counted, and the
/// bounds are those of all entries that are not null, whether a key names them or not (parquet.thrift: `Statistics`). The dictionary page of the
/// entries is `dictionary_page`. `reaches_entries` tells paths whose keys number entries.
///
/// # Errors
///
/// - `NotYetImplemented(N5)` exactly where entries of the type are not written under the physical type (`is_entry`).
/// - `Overflow(V3)` exactly where they are, and the room of the page or that of the dictionary page passes 2^31 - 1.
/// - `Memory`.
pub fn index_page(
    alloc: Global,
    array: &DictionaryArray,
    type_: PrimitiveType,
    nested: &[Nested],
    form: PageForm,
) -> Result<DataPage>
    requires well { IsPath (parts_of nested.now) }
    requires parts { length nested.now ≤ 128 }
    requires leaf { tree_len array.now ≡ leaf_count_or 0 (parts_of nested.now) }
    requires rows { AreRowsOf (leaf_type (type_of array.now)) (path_way (parts_of nested.now))
        (path_slots (leaf_slot array.now) (parts_of nested.now)) }
    ensures ok { IfOk result (HoldsIndices form (leaf_type (type_of array.now)) (physical_view type_.physical_type)
        (path_way (parts_of nested.now)) (entries_of (child_of array.now))
        (stored_entries (child_of array.now) (physical_view type_.physical_type))
        (path_slots (leaf_slot array.now) (parts_of nested.now)) type_) }
    ensures unserved { ComesWhere (NotYetImplemented N5) (is_entry (base (type_of (child_of array.now)))
        (physical_view type_.physical_type) ≡ false) result }
    ensures too_large { ComesWhere (Overflow V3)
        ((is_entry (base (type_of (child_of array.now))) (physical_view type_.physical_type) ≡ true)
        × IsColumnPastRoom (leaf_type (type_of array.now)) (physical_view type_.physical_type)
        (stored_entries (child_of array.now) (physical_view type_.physical_type))
        (column (path_way (parts_of nested.now)) (path_slots (leaf_slot array.now) (parts_of nested.now)))) result }
    ensures err { IfErr result (λ e. (e ≡ Memory) ⊎ (e ≡ NotYetImplemented N5) ⊎ (e ≡ Overflow V3)) }
{
    array.know();
    let Some(entries) = entries_leaf(array.values(), type_.physical_type) else {
        return Err(Error::NotYetImplemented(N::N5));
    };
    if !entries_fit(array.values(), entries, type_.physical_type) {
        return Err(Error::Overflow(V::V3));
    }
    let seen = seen_path(alloc, array, nested)?;
    match seen_page(alloc, array, entries, type_, &seen, form) {
        Ok(page) => Ok(page),
        Err(error) => Err(error),
    }
}
