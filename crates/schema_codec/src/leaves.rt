//! Types without types within, and a union's ids.

ghost use Rattle.std.specs.Prelude.{◌≡◌, option_map, List, ℤ};
ghost use Rattle.columns_core.specs.View.{type_view};
ghost use Rattle.schema_codec.specs.Parse.{Gives, both, items_at};
ghost use Rattle.schema_codec.specs.Reading.{size_at, id_at, ids_at, leaf_at};

use crate::fault::Refusal;
use crate::numbers::{
    take_count, take_id, take_interval_unit, take_optional_text, take_size, take_truth, take_unit,
};
use crate::tag::Measured;
use columns_core::DataType;
use std::alloc::Global;

fn take_sizes(bytes: &[u8]) -> Result<((usize, usize), &[u8]), Refusal>
    ensures { Gives (λ x. (x.0, x.1.now)) result (both size_at size_at bytes.now) }
{
    let (first, rest) = take_size(bytes)?;
    let (second, rest) = take_size(rest)?;
    Ok(((first, second), rest))
}

/// As many ids as a count states. The count is no ground to reserve memory.
fn take_some_ids(alloc: Global, count: u32, bytes: &[u8]) -> Result<(Vec<i32>, &[u8]), Refusal>
    ensures { Gives (λ x. (x.0.items, x.1.now)) result (items_at id_at count bytes.now) }
{
    let mut ids = Vec::new(alloc);
    let mut rest = bytes;
    'ids: for _ in 0..count {
        let (id, after) = take_id(rest)?;
        ids.push(id)?;
        rest = after;
    }
    Ok((ids, rest))
}

/// The ids of a union's parts, if it has them.
#[tactic(auto, unfolding(crate::specs::Reading::ids_at))]
pub fn take_ids(alloc: Global, bytes: &[u8]) -> Result<(Option<Vec<i32>>, &[u8]), Refusal>
    ensures { Gives (λ x. (option_map (λ v. v.items) x.0, x.1.now)) result (ids_at bytes.now) }
{
    let (are_there, rest) = take_truth(bytes)?;
    if !are_there {
        return Ok((None, rest));
    }
    let (count, rest) = take_count(rest)?;
    let (ids, rest) = take_some_ids(alloc, count, rest)?;
    Ok((Some(ids), rest))
}

/// A type of this tag, from what stands behind it.
pub fn take_leaf(alloc: Global, tag: Measured, bytes: &[u8]) -> Result<(DataType, &[u8]), Refusal>
    ensures { Gives (λ x. (type_view x.0, x.1.now)) result (leaf_at tag bytes.now) }
{
    match tag {
        Measured::Timestamp => {
            let (unit, rest) = take_unit(bytes)?;
            let (zone, rest) = take_optional_text(alloc, rest)?;
            Ok((DataType::Timestamp(unit, zone), rest))
        }
        Measured::Time32 => {
            let (unit, rest) = take_unit(bytes)?;
            Ok((DataType::Time32(unit), rest))
        }
        Measured::Time64 => {
            let (unit, rest) = take_unit(bytes)?;
            Ok((DataType::Time64(unit), rest))
        }
        Measured::Duration => {
            let (unit, rest) = take_unit(bytes)?;
            Ok((DataType::Duration(unit), rest))
        }
        Measured::Interval => {
            let (unit, rest) = take_interval_unit(bytes)?;
            Ok((DataType::Interval(unit), rest))
        }
        Measured::FixedSizeBinary => {
            let (size, rest) = take_size(bytes)?;
            Ok((DataType::FixedSizeBinary(size), rest))
        }
        Measured::Decimal => {
            let ((precision, scale), rest) = take_sizes(bytes)?;
            Ok((DataType::Decimal(precision, scale), rest))
        }
        Measured::Decimal256 => {
            let ((precision, scale), rest) = take_sizes(bytes)?;
            Ok((DataType::Decimal256(precision, scale), rest))
        }
    }
}
