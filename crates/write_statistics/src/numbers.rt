//! Statistics of arrays of numbers.
ghost use Rattle.std.specs.Prelude.{◌≡◌, [], None, ◌+◌, ◌<◌, ◌≤◌, ◌^◌, All, true, pos, map, take, length, option_map, IfSome, MatchOption};
ghost use Rattle.columns_core.specs.Shapes.{base, leaf_type};
ghost use Rattle.columns_slots.specs.Slots.{nulls_in};
ghost use Rattle.shredding.specs.Slot.{number};
ghost use Rattle.pq_tree.specs.Views.{physical_view};
ghost use Rattle.pq_files.specs.Plain.{IsOne};
ghost use Rattle.pq_files.specs.Statistics.{has_order, HasBounds};
ghost use Rattle.write_statistics.specs.Extremes.{AreExtremes, kept, present, bounds_of};

use crate::extremes::{Extremes, no_extremes, with_number};
use columns_core::Bitmap;
use columns_leaf::PrimitiveArray;
use columns_native::{OrderedNative, PlainNumber, StoredAs};
use pq_tree::{PrimitiveStatistics, PrimitiveType};

// The extremes of all numbers.
fn extremes_of_all<T: OrderedNative>(values: &[T]) -> Extremes<T>
    ensures { AreExtremes T.ordinal values.now result.least result.greatest }
{
    let mut extremes = no_extremes();
    for i in 0..values.len() {
        extremes = with_number(extremes, values[i]);
    }
    extremes
}

// Those of a number more, where the mask is true at its place.
fn with_kept<T: OrderedNative>(
    extremes: Extremes<T>,
    values: &[T],
    mask: &Bitmap,
    i: usize,
) -> Extremes<T>
    requires same { length mask.now ≡ length values.now }
    requires within { i < length values.now }
    ensures { AreExtremes T.ordinal (kept (take i mask.now) (take i values.now)) extremes.least extremes.greatest
        → AreExtremes T.ordinal (kept (take (i + 1) mask.now) (take (i + 1) values.now)) result.least result.greatest }
{
    if mask.get_bit(i) {
        with_number(extremes, values[i])
    } else {
        extremes
    }
}

// The extremes of the numbers where the mask is true.
fn extremes_of_kept<T: OrderedNative>(values: &[T], mask: &Bitmap) -> Extremes<T>
    requires { length mask.now ≡ length values.now }
    ensures { AreExtremes T.ordinal (kept mask.now values.now) result.least result.greatest }
{
    let mut extremes = no_extremes();
    for i in 0..values.len() {
        extremes = with_kept(extremes, values, mask, i);
    }
    extremes
}

// The extremes of the numbers that are not null.
fn extremes_of<T: OrderedNative>(array: &PrimitiveArray<T>) -> Extremes<T>
    ensures { AreExtremes T.ordinal (present array.now.1.1 array.now.1.0) result.least result.greatest }
{
    array.know();
    match array.validity() {
        None => extremes_of_all(array.values()),
        Some(mask) => extremes_of_kept(array.values(), mask),
    }
}

// The number that a column stores for one, where there is one.
fn stored_of<T: StoredAs<P>, P: PlainNumber>(one: Option<T>) -> Option<P>
    requires { IfSome one T.is_storable }
    ensures number { option_map P.plain_number result ≡ option_map T.stored_number one }
    ensures spelled { IfSome result (λ n. IsOne (physical_view P.physical) (P.stored n) (number (P.plain_number n))) }
{
    let Some(one) = one else {
        return None;
    };
    let stored: P = one.to_stored();
    stored.know();
    Some(stored)
}

// A count as statistics state it.
fn stated_count(count: usize) -> Option<i64>
    ensures { MatchOption result (2 ^ 63 ≤ count) (λ n. n ≡ pos count) }
{
    match i64::try_from(count) {
        Ok(count) => Some(count),
        Err(_) => None,
    }
}

/// The statistics of an array of numbers: how many are null, and the least and the greatest of those that are not by the order of their type, as a column of
/// `P` stores them; none where all are null (Parquet format, parquet.thrift: `Statistics`, `ColumnOrder`). Each present decimal fits `P`. Takes no memory.
pub fn build_statistics<T: OrderedNative + StoredAs<P>, P: PlainNumber>(
    array: &PrimitiveArray<T>,
    primitive_type: PrimitiveType,
) -> PrimitiveStatistics<P>
    requires ordered { has_order (leaf_type (base array.now.0)) ≡ true }
    requires storable { All T.is_storable (present array.now.1.1 array.now.1.0) }
    ensures about { result.primitive_type ≡ primitive_type }
    ensures nulls { MatchOption result.null_count (2 ^ 63 ≤ nulls_in array.now.1.1) (λ n. n
        ≡ pos (nulls_in array.now.1.1)) }
    ensures none { present array.now.1.1 array.now.1.0 ≡ [] → (result.min_value ≡ None) × (result.max_value ≡ None) }
    ensures bounds { HasBounds (leaf_type (base array.now.0)) (physical_view P.physical) true
        (bounds_of P.stored result.min_value result.max_value)
        (map (T.value (base array.now.0)) (present array.now.1.1 array.now.1.0)) }
{
    array.know();
    let extremes = extremes_of(array);
    PrimitiveStatistics {
        primitive_type,
        null_count: stated_count(array.null_count()),
        min_value: stored_of::<T, P>(extremes.least),
        max_value: stored_of::<T, P>(extremes.greatest),
    }
}
