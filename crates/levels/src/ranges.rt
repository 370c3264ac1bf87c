//! What the lists of a path span.
ghost use Rattle.std.specs.Prelude.{◌≡◌, ℕ, ◌+◌, ◌-◌, ◌<◌, ◌≤◌, ◌^◌, ◌∷◌, [], length, min, slice_index};
ghost use Rattle.shredding.specs.Parts.{item_span};
ghost use Rattle.levels.specs.Nested.{part_of, parts_of};
ghost use Rattle.levels.specs.Ranges.{deepest_or, leaf_count_or, leaf_range, span_sum};

use crate::nested::Nested;
use crate::well_formed::span;
use columns_core::{Offset, OffsetsBuffer};

// The first offset and what the offsets span.
fn range_of<O: Offset>(offsets: &OffsetsBuffer<O>) -> (usize, usize)
    ensures { result ≡ (slice_index offsets.now 0, item_span offsets.now) }
{
    let width = span(offsets);
    // there is an offset more than there are lists, so there is a first one
    let _lists = offsets.len_proxy();
    (offsets.place(0), width)
}

/// The number of slots of the leaf of a path, and 0 where the path has none.
pub fn leaf_len(nested: &[Nested]) -> usize
    ensures { result ≡ leaf_count_or 0 (parts_of nested.now) }
{
    let mut parts = nested;
    let mut last = 0;
    while let Some((part, rest)) = parts.split_first() {
        if let Nested::Primitive(_, _, count) = part {
            last = *count;
        }
        parts = rest;
    }
    last
}

/// The slots of the leaf that a path reaches, as the first and their number: the first offset of the deepest list and what its offsets
/// span, or 0 and the leaf's length where the path has no list. The path ends in its leaf.
pub fn slice_nested_leaf(nested: &[Nested]) -> (usize, usize)
    ensures { result ≡ leaf_range (parts_of nested.now) }
{
    let mut parts = nested;
    let mut deepest = (0, leaf_len(nested));
    while let Some((part, rest)) = parts.split_first() {
        match part {
            Nested::List(list) => deepest = range_of(&list.offsets),
            Nested::LargeList(list) => deepest = range_of(&list.offsets),
            Nested::Primitive(..) | Nested::Struct(..) => {}
        }
        parts = rest;
    }
    deepest
}

// What the offsets of a part span, nothing where it is no list.
fn part_span(part: &Nested) -> usize
    ensures { result ≡ span_sum (part_of part.now ∷ []) }
{
    match part {
        Nested::List(list) => span(&list.offsets),
        Nested::LargeList(list) => span(&list.offsets),
        Nested::Primitive(..) | Nested::Struct(..) => 0,
    }
}

/// What all lists of a path span together, the sum of each one's last offset less its first, or `usize::MAX` where that is more.
pub fn get_max_length(nested: &[Nested]) -> usize
    ensures { result ≡ min (span_sum (parts_of nested.now)) (2 ^ 64 - 1) }
{
    let mut parts = nested;
    let mut sum: usize = 0;
    while let Some((part, rest)) = parts.split_first() {
        sum = sum.saturating_add(part_span(part));
        parts = rest;
    }
    sum
}
