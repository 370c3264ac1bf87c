//! The statistics of a dictionary's column.
ghost use Rattle.std.specs.Prelude.{◌≡◌, ◌^◌, ◌≤◌, pos, true, List, length, count_by, is_none, option_map, MatchOption, IfOk, IfErr};
ghost use Rattle.shredding.specs.Parts.{IsPath, path_slots, path_way};
ghost use Rattle.shredding.specs.Shred.{Triple, column};
ghost use Rattle.columns_array.specs.Boxed.{boxed};
ghost use Rattle.columns_base.specs.declared.error.Error.TheVariants.{Memory};
ghost use Rattle.columns_core.specs.Shapes.{base, leaf_type};
ghost use Rattle.columns_entries.specs.Entries.{entries_of};
ghost use Rattle.columns_slots.specs.Slots.{child_of, mask_of, tree_len, type_of};
ghost use Rattle.levels.specs.Nested.{parts_of};
ghost use Rattle.levels.specs.Ranges.{leaf_count_or};
ghost use Rattle.nested_paths.specs.Seen.{leaf_slot};
ghost use Rattle.pq_tree.specs.Views.{physical_view, statistics_view};
ghost use Rattle.pq_files.specs.Room.{max_count};
ghost use Rattle.page_statistics.specs.Stated.{AreStated};
ghost use Rattle.dictionary_pages.specs.Entries.{entry_column, is_entry};
ghost use Rattle.dictionary_pages.specs.Keys.{AreRowsOf};
ghost use Rattle.dictionary_pages.specs.Pages.{AreStatedBy};

use crate::entries::entries_leaf;
use crate::reached::reach_along;
use crate::seen_path::seen_path;
use columns_array::{ArrayBox, DictionaryArray};
use columns_base::PhysicalType;
use columns_core::{Bitmap, Result};
use levels::{Nested, num_values};
use pq_tree::Statistics;
use std::alloc::Global;
use write_values::column_statistics;

fn shared(array: &ArrayBox) -> Result<Option<Bitmap>>
    ensures ok { IfOk result (λ mask. mask ≡ mask_of (boxed array.now)) }
    ensures err { IfErr result (λ e. e ≡ Memory) }
{
    match array.validity() {
        Some(mask) => Ok(Some(mask.clone()?)),
        None => Ok(None),
    }
}

// The statistics of entries as a column of their own.
fn entry_statistics(
    alloc: Global,
    entries: &ArrayBox,
    physical_type: PhysicalType,
) -> Result<Option<Statistics>>
    requires { is_entry (base (type_of (boxed entries.now))) (physical_view physical_type) ≡ true }
    ensures ok { IfOk result (λ s. AreStated true (leaf_type (type_of (boxed entries.now)))
        (physical_view physical_type) (entry_column (boxed entries.now)) (option_map statistics_view s)) }
    ensures err { IfErr result (λ e. e ≡ Memory) }
{
    entries.know();
    let mut path = Vec::with_capacity(alloc, 1)?;
    path.push(Nested::Primitive(shared(entries)?, true, entries.len()))?;
    let statistics = column_statistics(alloc, entries, physical_type, &path, true)?;
    Ok(statistics)
}

// A count as statistics state it.
fn stated_count(count: usize) -> Option<i64>
    ensures { MatchOption result (2 ^ 63 ≤ count) (λ n. n ≡ pos count) }
{
    match i64::try_from(count) {
        Ok(count) => Some(count),
        Err(_) => None,
    }
}

// The statistics of a column with so many nulls, whose bounds are those of all entries, where they are wanted. A count past 2^63 - 1 is not
// stated.
pub fn key_statistics(
    alloc: Global,
    entries: &ArrayBox,
    physical_type: PhysicalType,
    nulls: usize,
    is_wanted: bool,
) -> Result<Option<Statistics>>
    requires { is_entry (base (type_of (boxed entries.now))) (physical_view physical_type) ≡ true }
    ensures ok { (ts : List Triple) → (length ts ≤ max_count → nulls ≡ count_by (λ t. is_none t.value) ts)
        → IfOk result (λ s. AreStatedBy is_wanted (leaf_type (type_of (boxed entries.now)))
        (physical_view physical_type) (entries_of (boxed entries.now)) ts (option_map statistics_view s)) }
    ensures err { IfErr result (λ e. e ≡ Memory) }
{
    if !is_wanted {
        return Ok(None);
    }
    entries.know();
    match entry_statistics(alloc, entries, physical_type)? {
        Some(statistics) => Ok(Some(Statistics {
            null_count: stated_count(nulls),
            max_value: statistics.max_value,
            min_value: statistics.min_value,
        })),
        None => Ok(None),
    }
}

/// The statistics of the column of a path over its leaf, a dictionary whose entries are written under the physical type (`is_entry`): exactly where
/// they are wanted (Parquet format, parquet.thrift: `Statistics`, `ColumnOrder`). The pairs without a value are counted, and the bounds are those
/// of all entries that are not null, whether a key names them or not.
///
/// # Errors
///
/// `Memory`.
pub fn dictionary_statistics(
    alloc: Global,
    array: &DictionaryArray,
    physical_type: PhysicalType,
    nested: &[Nested],
    is_wanted: bool,
) -> Result<Option<Statistics>>
    requires well { IsPath (parts_of nested.now) }
    requires leaf { tree_len array.now ≡ leaf_count_or 0 (parts_of nested.now) }
    requires rows { AreRowsOf (leaf_type (type_of array.now)) (path_way (parts_of nested.now))
        (path_slots (leaf_slot array.now) (parts_of nested.now)) }
    requires served { is_entry (base (type_of (child_of array.now))) (physical_view physical_type) ≡ true }
    ensures ok { IfOk result (λ s. AreStatedBy is_wanted (leaf_type (type_of array.now)) (physical_view physical_type)
        (entries_of (child_of array.now)) (column (path_way (parts_of nested.now))
        (path_slots (leaf_slot array.now) (parts_of nested.now))) (option_map statistics_view s)) }
    ensures err { IfErr result (λ e. e ≡ Memory) }
{
    array.know();
    let Some(entries) = entries_leaf(array.values(), physical_type) else {
        unreachable!();
    };
    let seen = seen_path(alloc, array, nested)?;
    let reached = reach_along(array, entries, physical_type, &seen);
    let nulls = num_values(&seen) - reached.values.values;
    let statistics = key_statistics(alloc, array.values(), physical_type, nulls, is_wanted)?;
    Ok(statistics)
}
