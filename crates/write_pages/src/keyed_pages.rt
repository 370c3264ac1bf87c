//! The pages of a dictionary's column, one at a time.
ghost use Rattle.std.specs.Prelude.{◌≡◌, ◌⊎◌, ◌<◌, ◌≤◌, true, false, Some, length, option_map, IfOk, IfErr};
ghost use Rattle.shredding.specs.Parts.{IsPath, path_slots, path_way, slot_count};
ghost use Rattle.shredding.specs.Shred.{column};
ghost use Rattle.columns_base.specs.declared.error.Error.TheVariants.{Memory, Overflow};
ghost use Rattle.columns_base.specs.declared.error.V.TheVariants.{V3};
ghost use Rattle.columns_array.specs.Boxed.{boxed};
ghost use Rattle.columns_core.specs.Shapes.{base, leaf_type};
ghost use Rattle.columns_entries.specs.Entries.{entries_of};
ghost use Rattle.columns_slots.specs.Slots.{child_of, tree_len, type_of};
ghost use Rattle.levels.specs.Nested.{parts_of};
ghost use Rattle.levels.specs.Ranges.{leaf_count_or};
ghost use Rattle.nested_paths.specs.Seen.{leaf_slot};
ghost use Rattle.pq_files.specs.Page.{dictionary};
ghost use Rattle.pq_tree.specs.TreeViews.{leaf_view};
ghost use Rattle.pq_tree.specs.Views.{physical_view, statistics_view};
ghost use Rattle.dictionary_pages.specs.Entries.{is_entry};
ghost use Rattle.dictionary_pages.specs.Keys.{AreRowsOf};
ghost use Rattle.write_pages.specs.Entries.{IsDictionaryPastRoom};
ghost use Rattle.write_pages.specs.Holds.{HoldsRows, IsPagesOf, dictionary_to_give};
ghost use Rattle.write_pages.specs.Refused.{AreWritten, Gives, HoldsEntries, IsPastRoom, RefusesPages};

use crate::fit::MISFIT;
use crate::keyed_column::whole_column;
use crate::keyed_fit::{check_keyed_fit, check_keys_written};
use crate::options::WriteOptions;
use columns_array::{ArrayBox, DictionaryArray};
use columns_core::Result;
use dictionary_pages::{dictionary_page, dictionary_statistics, index_page, reaches_entries};
use levels::{Nested, slot_count};
use pq_pages::{DataPage, DictPage, Page};
use pq_tree::{Encoding, PhysicalType, PrimitiveType, Statistics};
use std::alloc::Global;
use std::marker::Model;
use write_values::PageForm;

/// Gives the pages of a dictionary's column: the page of its entries, and that of all rows, each when it is asked for. It shares the array and its
/// path, and keeps no page. After an error it gives nothing.
#[derive(Drop)]
pub struct DictionaryPages {
    alloc: Global,
    array: DictionaryArray,
    nested: Vec<Nested>,
    type_: PrimitiveType,
    options: WriteOptions,
    owes_entries: bool,
    owes_rows: bool,
    statistics: Option<Statistics>,
}

impl Model for DictionaryPages {
    ghost use Rattle.std.specs.Coded.{codes};
    ghost use Rattle.columns_slots.specs.Tree.{tree_code};
    ghost use Rattle.levels.specs.Nested.{parts_of};
    ghost use Rattle.std.specs.Prelude.{option_map};
    ghost use Rattle.pq_tree.specs.Views.{physical_view, statistics_view};
    ghost use Rattle.write_pages.specs.Holds.{DictionaryState};
    ghost use Rattle.write_pages.specs.Sized.{IsKeyedReady};

    ghost Value = { DictionaryState };

    ghost coded = { Prim.hlevel (codes, tree_code) };

    ghost view = { λ s. record {
      options = s.options;
      type_ = s.type_;
      array = s.array;
      parts = parts_of s.nested.items;
      owes_entries = s.owes_entries;
      owes_rows = s.owes_rows;
      statistics = option_map statistics_view s.statistics;
    } };

    ghost invariant = { λ s. IsKeyedReady s.array (parts_of s.nested.items) (physical_view s.type_.physical_type) };
}

// The dictionary page of the array's entries.
fn entry_page(
    alloc: Global,
    array: &DictionaryArray,
    physical_type: PhysicalType,
) -> Result<DictPage>
    requires { is_entry (base (type_of (child_of array.now))) (physical_view physical_type) ≡ true }
    ensures ok { IfOk result (HoldsEntries (leaf_type (type_of array.now)) (physical_view physical_type)
        (entries_of (child_of array.now))) }
    ensures err { IfErr result (λ e. (e ≡ Memory) ⊎ ((e ≡ Overflow V3)
        × IsDictionaryPastRoom (leaf_type (type_of array.now)) (physical_view physical_type)
        (Some (entries_of (child_of array.now))))) }
{
    array.know();
    dictionary_page(alloc, array.values(), physical_type)
}

// The data page of all rows.
fn rows_page(
    alloc: Global,
    array: &DictionaryArray,
    type_: &PrimitiveType,
    nested: &[Nested],
    options: WriteOptions,
) -> Result<DataPage>
    requires well { IsPath (parts_of nested.now) }
    requires parts { length nested.now ≤ 128 }
    requires leaf { tree_len array.now ≡ leaf_count_or 0 (parts_of nested.now) }
    requires rows { AreRowsOf (leaf_type (type_of array.now)) (path_way (parts_of nested.now))
        (path_slots (leaf_slot array.now) (parts_of nested.now)) }
    requires entries { is_entry (base (type_of (child_of array.now))) (physical_view type_.now.physical_type) ≡ true }
    ensures ok { IfOk result (HoldsRows options dictionary (leaf_type (type_of array.now)) (leaf_view type_.now)
        (physical_view type_.now.physical_type) (path_way (parts_of nested.now))
        (Some (entries_of (child_of array.now))) (path_slots (leaf_slot array.now) (parts_of nested.now))) }
    ensures err { IfErr result (λ e. (e ≡ Memory) ⊎ ((e ≡ Overflow V3)
        × (IsDictionaryPastRoom (leaf_type (type_of array.now)) (physical_view type_.now.physical_type)
        (Some (entries_of (child_of array.now))) ⊎ IsPastRoom (leaf_type (type_of array.now))
        (physical_view type_.now.physical_type) (column (path_way (parts_of nested.now))
        (path_slots (leaf_slot array.now) (parts_of nested.now)))))) }
{
    array.know();
    let type_ = type_.clone(alloc)?;
    let form = PageForm {
        version: options.version,
        with_statistics: options.write_statistics,
        with_deltas: false,
    };
    let page = index_page(alloc, array, type_, nested, form)?;
    Ok(page)
}

impl DictionaryPages {
    /// The page of the entries, then that of all rows, and none at the end, of no rows, or after an error.
    ///
    /// # Errors
    ///
    /// - `Overflow(V3)` exactly where the room of the page, or that of the entries' page, passes 2^31 - 1.
    /// - `Memory`.
    pub fn next_page(&mut self) -> Option<Result<Page>>
        ensures { Gives (dictionary_to_give self.old) (dictionary_to_give self.new) result }
    {
        if self.owes_entries {
            return Some(self.next_entries());
        }
        if !self.owes_rows {
            return None;
        }
        Some(self.next_rows())
    }

    // The page of the entries.
    fn next_entries(&mut self) -> Result<Page>
        requires { self.old.owes_entries ≡ true }
        ensures { Gives (dictionary_to_give self.old) (dictionary_to_give self.new) (Some result) }
    {
        self.owes_entries = false;
        match entry_page(self.alloc, &self.array, self.type_.physical_type) {
            Ok(page) => Ok(Page::Dict(page)),
            Err(error) => {
                self.owes_rows = false;
                Err(error)
            }
        }
    }

    // The page of all rows.
    fn next_rows(&mut self) -> Result<Page>
        requires behind { self.old.owes_entries ≡ false }
        requires owed { self.old.owes_rows ≡ true }
        ensures { Gives (dictionary_to_give self.old) (dictionary_to_give self.new) (Some result) }
    {
        self.owes_rows = false;
        match rows_page(
            self.alloc,
            &self.array,
            &self.type_,
            &self.nested,
            self.options,
        ) {
            Ok(page) => Ok(Page::Data(page)),
            Err(error) => Err(error),
        }
    }

    /// Whether the page of the entries is still to come.
    pub fn owes_dictionary(&self) -> bool
        ensures { result ≡ self.now.owes_entries }
    {
        self.owes_entries
    }

    /// The statistics of the whole column, where they are asked for (Parquet format, parquet.thrift: `ColumnMetaData`). Of a column with
    /// more pairs or entries than a file counts nothing is known.
    pub fn statistics(&self) -> &Option<Statistics>
        ensures { option_map statistics_view result.now ≡ self.now.statistics }
    {
        &self.statistics
    }
}

fn has_rows(nested: &[Nested]) -> bool
    ensures some { result ≡ true → 0 < slot_count (parts_of nested.now) }
    ensures none { result ≡ false → slot_count (parts_of nested.now) ≤ 0 }
{
    slot_count(nested) > 0
}

// The pages of a dictionary's column. The first condition that holds is told.
pub fn keyed_pages(
    alloc: Global,
    array: &ArrayBox,
    keyed: &DictionaryArray,
    type_: PrimitiveType,
    nested: &[Nested],
    options: WriteOptions,
    encoding: Encoding,
) -> Result<DictionaryPages>
    requires same { keyed.now ≡ boxed array.now }
    requires parts { length nested.now ≤ 128 }
    ensures ok { IfOk result (λ it. IsPagesOf options type_ (parts_of nested.now) (boxed array.now) encoding
        (dictionary_to_give it)) }
    ensures fits { IfOk result (λ _. AreWritten options type_ (parts_of nested.now) (boxed array.now) encoding) }
    ensures err { IfErr result (λ e. (e ≡ Memory) ⊎ RefusesPages options type_ (parts_of nested.now)
        (boxed array.now) encoding e) }
{
    keyed.know();
    check_keys_written(keyed, nested, encoding)?;
    check_keyed_fit(array, keyed, &type_, nested)?;
    let whole = whole_column(alloc, array, nested)?;
    if !reaches_entries(&whole.array, &whole.nested) {
        return Err(MISFIT);
    }
    let statistics = dictionary_statistics(
        alloc,
        &whole.array,
        type_.physical_type,
        &whole.nested,
        options.write_statistics,
    )?;
    let some_rows = has_rows(nested);
    Ok(DictionaryPages {
        alloc,
        array: whole.array,
        nested: whole.nested,
        type_,
        options,
        owes_entries: some_rows,
        owes_rows: some_rows,
        statistics,
    })
}
