//! What is known of the values that a path reaches, before a page of them is made.
ghost use Rattle.std.specs.Prelude.{◌≡◌, ◌≤◌, true, IfOk, IfErr};
ghost use Rattle.shredding.specs.Parts.{IsPath};
ghost use Rattle.columns_array.specs.Boxed.{boxed};
ghost use Rattle.columns_base.specs.declared.error.Error.TheVariants.{Memory};
ghost use Rattle.columns_core.specs.Shapes.{base, leaf_type};
ghost use Rattle.columns_slots.specs.Slots.{tree_len, type_of};
ghost use Rattle.levels.specs.Nested.{parts_of};
ghost use Rattle.levels.specs.Ranges.{leaf_count_or};
ghost use Rattle.pq_tree.specs.Views.{physical_view};
ghost use Rattle.write_values.specs.Decimals.{HasWide};
ghost use Rattle.write_values.specs.Known.{AreKnown};
ghost use Rattle.write_values.specs.Leaf.{leaf_tree, leaf_physical};
ghost use Rattle.write_values.specs.Nulls.{TellsNulls};
ghost use Rattle.write_values.specs.Pages.{value_column};
ghost use Rattle.write_values.specs.Served.{is_served};

use crate::leaf::{Leaf, leaf_of};
use crate::measured::Measured;
use crate::statistics::leaf_statistics;
use crate::values::measure;
use columns_array::ArrayBox;
use columns_base::PhysicalType;
use columns_core::Result;
use levels::Nested;
use pq_tree::Statistics;
use std::alloc::Global;

/// What is known of the values that a path reaches.
#[derive(Drop)]
pub struct Known {
    /// How many there are, and how many bytes they take.
    pub measured: Measured,
    /// Their statistics, where they are wanted.
    pub statistics: Option<Statistics>,
}

// What is known of the values that a path reaches in a leaf array whose values are written, and held.
fn leaf_known(alloc: Global, leaf: Leaf<'_>, nested: &[Nested], is_wanted: bool) -> Result<Known>
    requires well { IsPath (parts_of nested.now) }
    requires leaf { leaf_count_or 0 (parts_of nested.now) ≤ tree_len (leaf_tree leaf) }
    requires served { is_served (base (type_of (leaf_tree leaf))) (leaf_physical leaf) ≡ true }
    requires nulls { TellsNulls (leaf_tree leaf) (parts_of nested.now) }
    requires held { ¬ HasWide (leaf_type (type_of (leaf_tree leaf))) (leaf_physical leaf)
        (value_column (leaf_tree leaf) nested.now) }
    ensures ok { IfOk result (AreKnown is_wanted (leaf_tree leaf.entry) (leaf_physical leaf.entry) nested.now) }
    ensures err { IfErr result (λ e. e ≡ Memory) }
{
    let measured = measure(leaf, nested);
    let statistics = leaf_statistics(alloc, leaf, nested, is_wanted)?;
    Ok(Known {
        measured,
        statistics,
    })
}

/// What is known of the values that a path reaches in its leaf array, whose values are written under the physical type, which holds them
/// (`has_wide`): how many there are and how many bytes their plain spelling has, each up to the largest number, and their statistics exactly where
/// these are wanted (Parquet format, parquet.thrift: `Statistics`). Values beneath nulls do not count. The path is well formed, and its nulls are those of its masks:
/// over an array of nulls alone it reaches no place.
///
/// # Errors
///
/// `Memory`.
pub fn known_values(
    alloc: Global,
    array: &ArrayBox,
    physical_type: PhysicalType,
    nested: &[Nested],
    is_wanted: bool,
) -> Result<Known>
    requires well { IsPath (parts_of nested.now) }
    requires leaf { tree_len (boxed array.now) ≡ leaf_count_or 0 (parts_of nested.now) }
    requires nulls { TellsNulls (boxed array.now) (parts_of nested.now) }
    requires served { is_served (base (type_of (boxed array.now))) (physical_view physical_type) ≡ true }
    requires held { ¬ HasWide (leaf_type (type_of (boxed array.now))) (physical_view physical_type)
        (value_column (boxed array.now) nested.now) }
    ensures ok { IfOk result (AreKnown is_wanted (boxed array.now) (physical_view physical_type) nested.now) }
    ensures err { IfErr result (λ e. e ≡ Memory) }
{
    match leaf_of(array, physical_type) {
        Some(leaf) => leaf_known(alloc, leaf, nested, is_wanted),
        None => unreachable!(),
    }
}
