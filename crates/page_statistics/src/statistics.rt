//! The statistics of a column.
ghost use Rattle.std.specs.Prelude.{pos, ℕ, MatchOption, ◌≡◌, ◌-◌, min, false, ◌≤◌, ◌<◌, ◌^◌, length, option_map, true, IfOk, IfErr};
ghost use Rattle.shredding.specs.Parts.{IsPath};
ghost use Rattle.shredding.specs.Shape.{LeafType};
ghost use Rattle.shredding.specs.Slot.{Value};
ghost use Rattle.columns_base.specs.declared.error.Error.TheVariants.{Memory};
ghost use Rattle.levels.specs.Nested.{parts_of, nested_column};
ghost use Rattle.levels.specs.Ranges.{leaf_count_or};
ghost use Rattle.pq_tree.specs.Physical.{Physical};
ghost use Rattle.pq_tree.specs.Views.{statistics_view};
ghost use Rattle.write_places.specs.Places.{path_places};
ghost use Rattle.pq_files.specs.Statistics.{has_order};
ghost use Rattle.page_statistics.specs.Extremes.{AreWithin};
ghost use Rattle.page_statistics.specs.Stated.{AreStated, AreTextsOf};

use crate::order::{OrderedLeaf, SearchedLeaf};
use crate::seen::Extremes;
use crate::taker::look_along;
use columns_core::Result;
use levels::{Nested, num_values};
use pq_tree::Statistics;
use std::alloc::Global;

// The texts of the extremes.
#[derive(Drop)]
pub struct BoundTexts {
    pub least: Option<Vec<u8>>,
    pub greatest: Option<Vec<u8>>,
}

// The texts of the extremes, if there are some.
fn bound_texts<L: OrderedLeaf>(
    alloc: Global,
    leaf: &L,
    extremes: Option<Extremes>,
) -> Result<BoundTexts>
    requires { AreWithin (L.count leaf.now) extremes }
    ensures ok { IfOk result (λ b. AreTextsOf (L.kind leaf.now) (L.physical leaf.now)
        (L.value leaf.now) extremes b.least b.greatest) }
    ensures err { IfErr result (λ e. e ≡ Memory) }
{
    let Some(extremes) = extremes else {
        return Ok(BoundTexts {
            least: None,
            greatest: None,
        });
    };
    let least = leaf.bound(alloc, extremes.least)?;
    let greatest = leaf.bound(alloc, extremes.greatest)?;
    Ok(BoundTexts {
        least: Some(least),
        greatest: Some(greatest),
    })
}

// A count as statistics state it.
fn stated_count(count: usize) -> Option<i64>
    ensures { MatchOption result (2 ^ 63 ≤ count) (λ n. n ≡ pos count) }
{
    match i64::try_from(count) {
        Ok(count) => Some(count),
        Err(_) => None,
    }
}

/// The statistics of the column of a path over its leaf array: how many of its pairs have no value, and the least and the greatest of the
/// values that the path reaches, where there is one (Parquet format, parquet.thrift: `Statistics`, `ColumnOrder`). Values beneath nulls do
/// not count. The path is well formed, the type of the values has an order. A count past 2^63 - 1 is not
/// stated.
///
/// # Errors
///
/// `Memory`.
pub fn column_statistics<L: SearchedLeaf>(
    alloc: Global,
    leaf: &L,
    nested: &[Nested],
) -> Result<Statistics>
    requires well { IsPath (parts_of nested.now) }
    requires leaf { leaf_count_or 0 (parts_of nested.now) ≤ L.count leaf.now }
    requires ordered { has_order (L.kind leaf.now) ≡ true }
    ensures ok { IfOk result (λ s. AreStated true (L.kind leaf.now) (L.physical leaf.now)
        (nested_column (L.value leaf.now) nested.now) (Some (statistics_view s))) }
    ensures err { IfErr result (λ e. e ≡ Memory) }
{
    let seen = look_along(leaf, nested);
    let nulls = num_values(nested) - seen.values;
    let texts = bound_texts(alloc, leaf, seen.extremes)?;
    Ok(Statistics {
        null_count: stated_count(nulls),
        max_value: texts.greatest,
        min_value: texts.least,
    })
}

/// The statistics of the column of a path whose values have no order, as intervals: how many of its pairs have no value, and no bounds (Parquet
/// format, parquet.thrift: `Statistics`, `ColumnOrder`). The path is well formed, and reaches so many values, up to the largest number. A
/// count past 2^63 - 1 is not stated.
pub fn unordered_statistics(nested: &[Nested], values: usize) -> Statistics
    requires well { IsPath (parts_of nested.now) }
    requires values { values ≡ min (length (path_places (parts_of nested.now))) (2 ^ 64 - 1) }
    ensures { (t : LeafType) (p : Physical) (value : ℕ → Value) → has_order t ≡ false
        → AreStated true t p (nested_column value nested.now) (Some (statistics_view result)) }
{
    let nulls = num_values(nested) - values;
    Statistics {
        null_count: stated_count(nulls),
        max_value: None,
        min_value: None,
    }
}
