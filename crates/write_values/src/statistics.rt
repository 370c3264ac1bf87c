//! The statistics of columns whose values are written.
ghost use Rattle.std.specs.Prelude.{◌≡◌, ◌≤◌, true, false, length, map, Some, option_map, IfOk, IfErr};
ghost use Rattle.shredding.specs.Parts.{IsPath};
ghost use Rattle.columns_array.specs.Boxed.{boxed};
ghost use Rattle.columns_base.specs.declared.error.Error.TheVariants.{Memory};
ghost use Rattle.columns_core.specs.Natives.{value_i128};
ghost use Rattle.columns_core.specs.Shapes.{base, leaf_type};
ghost use Rattle.columns_slots.specs.Slots.{tree_len, type_of};
ghost use Rattle.columns_slots.specs.Tree.{leaf_array};
ghost use Rattle.levels.specs.Nested.{nested_column, parts_of};
ghost use Rattle.levels.specs.Ranges.{leaf_count_or};
ghost use Rattle.nested_paths.specs.LeafNulls.{value_at};
ghost use Rattle.pq_tree.specs.Views.{physical_view, statistics_view};
ghost use Rattle.pq_files.specs.Statistics.{has_order};
ghost use Rattle.page_statistics.specs.Stated.{AreStated};
ghost use Rattle.write_values.specs.Decimals.{HasWide, IsForm, form_physical};
ghost use Rattle.write_values.specs.Leaf.{leaf_tree, leaf_physical};
ghost use Rattle.write_values.specs.Nulls.{TellsNulls};
ghost use Rattle.write_values.specs.Pages.{value_column};
ghost use Rattle.write_values.specs.Served.{is_served};

use crate::decimals::{DecimalForm, Decimals};
use crate::fixed::FixedStrings;
use crate::leaf::{Leaf, know_order, leaf_of};
use crate::numbers::Numbers;
use crate::order::OrderedTruths;
use crate::strings::{Strings, Texts};
use crate::values::measure;
use columns_array::ArrayBox;
use columns_base::PhysicalType;
use columns_core::Result;
use columns_leaf::PrimitiveArray;
use levels::Nested;
use page_statistics::{column_statistics as statistics_of, unordered_statistics};
use pq_tree::Statistics;
use std::alloc::Global;

// The statistics of the column of a path over a leaf array whose values have no order: the number of nulls alone.
fn null_statistics(leaf: Leaf<'_>, nested: &[Nested]) -> Statistics
    requires well { IsPath (parts_of nested.now) }
    requires leaf { leaf_count_or 0 (parts_of nested.now) ≤ tree_len (leaf_tree leaf) }
    requires served { is_served (base (type_of (leaf_tree leaf))) (leaf_physical leaf) ≡ true }
    requires nulls { TellsNulls (leaf_tree leaf) (parts_of nested.now) }
    requires unordered { has_order (leaf_type (base (type_of (leaf_tree leaf)))) ≡ false }
    ensures { AreStated true (leaf_type (base (type_of (leaf_tree leaf.entry)))) (leaf_physical leaf.entry)
        (value_column (leaf_tree leaf.entry) nested.now) (Some (statistics_view result)) }
{
    unordered_statistics(nested, measure(leaf, nested).values)
}

// The statistics of the column of a path over an array of decimals, all of which the column holds.
fn decimal_statistics(
    alloc: Global,
    array: &PrimitiveArray<i128>,
    form: DecimalForm,
    nested: &[Nested],
) -> Result<Statistics>
    requires well { IsPath (parts_of nested.now) }
    requires leaf { leaf_count_or 0 (parts_of nested.now) ≤ length array.now.1.0 }
    requires form { IsForm form }
    requires held { ¬ HasWide (leaf_type (base array.now.0)) (form_physical form)
        (nested_column
        (value_at (leaf_array array.now.0 (map (value_i128 (base array.now.0)) array.now.1.0) array.now.1.1))
        nested.now) }
    ensures ok { IfOk result (λ s. AreStated true (leaf_type (base array.now.0)) (form_physical form)
        (nested_column
        (value_at
        (leaf_array array.now.0 (map (value_i128 (base array.now.0)) array.now.1.0) array.now.1.1)) nested.now)
        (Some (statistics_view s))) }
    ensures err { IfErr result (λ e. e ≡ Memory) }
{
    array.know();
    statistics_of(alloc, &Decimals::new(array, form), nested)
}

// The statistics of the column of a path over a leaf array whose values are written, and held.
fn all_statistics(alloc: Global, leaf: Leaf<'_>, nested: &[Nested]) -> Result<Statistics>
    requires well { IsPath (parts_of nested.now) }
    requires leaf { leaf_count_or 0 (parts_of nested.now) ≤ tree_len (leaf_tree leaf) }
    requires served { is_served (base (type_of (leaf_tree leaf))) (leaf_physical leaf) ≡ true }
    requires nulls { TellsNulls (leaf_tree leaf) (parts_of nested.now) }
    requires held { ¬ HasWide (leaf_type (base (type_of (leaf_tree leaf)))) (leaf_physical leaf)
        (value_column (leaf_tree leaf) nested.now) }
    ensures ok { IfOk result (λ s. AreStated true (leaf_type (base (type_of (leaf_tree leaf.entry))))
        (leaf_physical leaf.entry) (value_column (leaf_tree leaf.entry) nested.now) (Some (statistics_view s))) }
    ensures err { IfErr result (λ e. e ≡ Memory) }
{
    know_order(leaf);
    match leaf {
        Leaf::Boolean(array) => statistics_of(alloc, &OrderedTruths { array }, nested),
        Leaf::Int8(a) => statistics_of(alloc, &Numbers::<i8, i32>::new(a), nested),
        Leaf::Int16(a) => statistics_of(alloc, &Numbers::<i16, i32>::new(a), nested),
        Leaf::Int32(a) => statistics_of(alloc, &Numbers::<i32, i32>::new(a), nested),
        Leaf::UInt8(a) => statistics_of(alloc, &Numbers::<u8, i32>::new(a), nested),
        Leaf::UInt16(a) => statistics_of(alloc, &Numbers::<u16, i32>::new(a), nested),
        Leaf::UInt32(a) => statistics_of(alloc, &Numbers::<u32, i32>::new(a), nested),
        Leaf::WideUInt32(a) => statistics_of(alloc, &Numbers::<u32, i64>::new(a), nested),
        Leaf::Int64(a) => statistics_of(alloc, &Numbers::<i64, i64>::new(a), nested),
        Leaf::UInt64(a) => statistics_of(alloc, &Numbers::<u64, i64>::new(a), nested),
        Leaf::Utf8(array) => statistics_of(alloc, &Texts { array }, nested),
        Leaf::LargeUtf8(array) => statistics_of(alloc, &Texts { array }, nested),
        Leaf::Binary(array) => statistics_of(alloc, &Strings { array }, nested),
        Leaf::LargeBinary(array) => statistics_of(alloc, &Strings { array }, nested),
        Leaf::FixedSizeBinary(a) => {
            a.know();
            statistics_of(alloc, &FixedStrings::new(a), nested)
        }
        Leaf::Months(a) => {
            a.know();
            Ok(null_statistics(leaf, nested))
        }
        Leaf::Days(a) => {
            a.know();
            Ok(null_statistics(leaf, nested))
        }
        Leaf::Decimal(a, form) => {
            a.know();
            decimal_statistics(alloc, a, form, nested)
        }
        Leaf::Null(a) => {
            a.know();
            Ok(null_statistics(leaf, nested))
        }
    }
}

// The same, where they are wanted.
pub fn leaf_statistics(
    alloc: Global,
    leaf: Leaf<'_>,
    nested: &[Nested],
    is_wanted: bool,
) -> Result<Option<Statistics>>
    requires well { IsPath (parts_of nested.now) }
    requires leaf { leaf_count_or 0 (parts_of nested.now) ≤ tree_len (leaf_tree leaf) }
    requires served { is_served (base (type_of (leaf_tree leaf))) (leaf_physical leaf) ≡ true }
    requires nulls { TellsNulls (leaf_tree leaf) (parts_of nested.now) }
    requires held { ¬ HasWide (leaf_type (type_of (leaf_tree leaf))) (leaf_physical leaf)
        (value_column (leaf_tree leaf) nested.now) }
    ensures ok { IfOk result (λ s. AreStated is_wanted (leaf_type (type_of (leaf_tree leaf.entry)))
        (leaf_physical leaf.entry) (value_column (leaf_tree leaf.entry) nested.now) (option_map statistics_view s)) }
    ensures err { IfErr result (λ e. e ≡ Memory) }
{
    if !is_wanted {
        return Ok(None);
    }
    let statistics = all_statistics(alloc, leaf, nested)?;
    Ok(Some(statistics))
}

/// The statistics of the column of a path over its leaf array, whose values are written under the physical type, which holds them (`has_wide`):
/// exactly where they are wanted (Parquet format, parquet.thrift: `Statistics`, `ColumnOrder`). Values beneath nulls do not count. The path is well formed, and its
/// nulls are those of its masks: over an array of nulls alone it reaches no place.
///
/// # Errors
///
/// `Memory`.
pub fn column_statistics(
    alloc: Global,
    array: &ArrayBox,
    physical_type: PhysicalType,
    nested: &[Nested],
    is_wanted: bool,
) -> Result<Option<Statistics>>
    requires well { IsPath (parts_of nested.now) }
    requires leaf { tree_len (boxed array.now) ≡ leaf_count_or 0 (parts_of nested.now) }
    requires nulls { TellsNulls (boxed array.now) (parts_of nested.now) }
    requires served { is_served (base (type_of (boxed array.now))) (physical_view physical_type) ≡ true }
    requires held { ¬ HasWide (leaf_type (type_of (boxed array.now))) (physical_view physical_type)
        (value_column (boxed array.now) nested.now) }
    ensures ok { IfOk result (λ s. AreStated is_wanted (leaf_type (type_of (boxed array.now)))
        (physical_view physical_type) (value_column (boxed array.now) nested.now) (option_map statistics_view s)) }
    ensures err { IfErr result (λ e. e ≡ Memory) }
{
    match leaf_of(array, physical_type) {
        Some(leaf) => leaf_statistics(alloc, leaf, nested, is_wanted),
        None => unreachable!(),
    }
}
