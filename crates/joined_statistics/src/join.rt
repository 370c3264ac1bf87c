//! The statistics of values that come behind others.
ghost use Rattle.std.specs.Prelude.{◌≡◌, ◌+◌, ◌++◌, ◌≤◌, ℕ, pos, [], Some, List, length, option_map, IfOk, IfErr};
ghost use Rattle.shredding.specs.Shape.{LeafType};
ghost use Rattle.shredding.specs.Shred.{Triple};
ghost use Rattle.shredding.specs.Slot.{Value};
ghost use Rattle.columns_base.specs.declared.error.Error.TheVariants.{Memory};
ghost use Rattle.pq_files.specs.Room.{max_count};
ghost use Rattle.pq_tree.specs.Physical.{Physical};
ghost use Rattle.pq_tree.specs.Views.{bytes_view, statistics_view};
ghost use Rattle.joined_statistics.specs.Orders.{IsOrderOf};
ghost use Rattle.joined_statistics.specs.Told.{AreTold, IsGreatestText, IsLeastText};

use crate::order::{TextOrder, is_text_less};
use columns_core::Result;
use pq_tree::Statistics;
use std::alloc::Global;

// The least of the texts of the least values of some values and of others behind them.
fn least_text(
    alloc: Global,
    order: TextOrder,
    first: Option<Vec<u8>>,
    second: &Option<Vec<u8>>,
) -> Result<Option<Vec<u8>>>
    ensures ok { IfOk result (λ s. (t : LeafType) (p : Physical) (xs ys : List Value) → IsOrderOf order t
        → IsLeastText t p xs (option_map bytes_view first) → IsLeastText t p ys (option_map bytes_view second.now)
        → IsLeastText t p (xs ++ ys) (option_map bytes_view s)) }
    ensures err { IfErr result (λ e. e ≡ Memory) }
{
    let Some(other) = second else {
        return Ok(first);
    };
    let Some(text) = first else {
        return Ok(Some(Vec::from_slice(alloc, other)?));
    };
    if is_text_less(order, other, &text) {
        return Ok(Some(Vec::from_slice(alloc, other)?));
    }
    Ok(Some(text))
}

// The greatest of those of the greatest values.
fn greatest_text(
    alloc: Global,
    order: TextOrder,
    first: Option<Vec<u8>>,
    second: &Option<Vec<u8>>,
) -> Result<Option<Vec<u8>>>
    ensures ok { IfOk result (λ s. (t : LeafType) (p : Physical) (xs ys : List Value) → IsOrderOf order t
        → IsGreatestText t p xs (option_map bytes_view first)
        → IsGreatestText t p ys (option_map bytes_view second.now)
        → IsGreatestText t p (xs ++ ys) (option_map bytes_view s)) }
    ensures err { IfErr result (λ e. e ≡ Memory) }
{
    let Some(other) = second else {
        return Ok(first);
    };
    let Some(text) = first else {
        return Ok(Some(Vec::from_slice(alloc, other)?));
    };
    if is_text_less(order, &text, other) {
        return Ok(Some(Vec::from_slice(alloc, other)?));
    }
    Ok(Some(text))
}

// The sum of two counts.
fn sum_of(first: Option<i64>, second: Option<i64>) -> Option<i64>
    ensures { (n m : ℕ) → first ≡ Some (pos n) → second ≡ Some (pos m) → n + m ≤ max_count
        → result ≡ Some (pos (n + m)) }
{
    match (first, second) {
        (Some(n), Some(m)) => n.checked_add(m),
        _ => None,
    }
}

/// The statistics of no values.
pub fn no_statistics() -> Statistics
    ensures { (t : LeafType) (p : Physical) → AreTold t p [] (statistics_view result) }
{
    Statistics {
        null_count: Some(0),
        max_value: None,
        min_value: None,
    }
}

/// The statistics of the values of a column and of those that come behind them, from the statistics of both (Parquet format, parquet.thrift:
/// `Statistics`, `ColumnOrder`).
///
/// # Errors
///
/// `Memory`.
pub fn join_statistics(
    alloc: Global,
    order: TextOrder,
    first: Statistics,
    second: &Statistics,
) -> Result<Statistics>
    ensures ok { IfOk result (λ s. (t : LeafType) (p : Physical) (xs ys : List Triple) → IsOrderOf order t
        → length (xs ++ ys) ≤ max_count → AreTold t p xs (statistics_view first)
        → AreTold t p ys (statistics_view second.now) → AreTold t p (xs ++ ys) (statistics_view s)) }
    ensures err { IfErr result (λ e. e ≡ Memory) }
{
    let null_count = sum_of(first.null_count, second.null_count);
    let min_value = least_text(alloc, order, first.min_value, &second.min_value)?;
    let max_value = greatest_text(alloc, order, first.max_value, &second.max_value)?;
    Ok(Statistics {
        null_count,
        max_value,
        min_value,
    })
}
