//! The number of level pairs of a path in which no null has items, with no look at one list after the other.
ghost use Rattle.std.specs.Prelude.{◌≡◌, ℕ, ◌+◌, ◌-◌, ◌^◌, ◌<◌, ◌≤◌, IsTrue, List, length, min, IfSome, false, slice_index_or};
ghost use Rattle.std.specs.Int.{bit_at};
ghost use Rattle.columns_core.specs.Rising.{IsRising};
ghost use Rattle.shredding.specs.Parts.{FitTogether, MaskFits, is_present, item_count, item_start, item_span, slot_count};
ghost use Rattle.levels.specs.Nested.{parts_of};
ghost use Rattle.levels.specs.Sizes.{total, slot_size, empty_size, HasNoItems};

use crate::nested::Nested;
use columns_core::{Bitmap, Offset, OffsetsBuffer};

// How many of some lists have no items. No list ends the loop, so that several are counted by one instruction.
fn count_some<O: Offset>(offsets: &OffsetsBuffer<O>, place: usize, end: usize) -> u32
    requires ordered { place ≤ end }
    requires few { end < place + 2 ^ 32 }
    requires within { end < length offsets.now }
    ensures { result ≡ total (empty_size offsets.now) place (end - place) }
{
    offsets.know();
    let mut empty: u32 = 0;
    for i in place..end {
        if offsets.place(i) == offsets.place(i + 1) {
            empty += 1;
        }
    }
    empty
}

// How many lists have no items.
fn count_empty<O: Offset>(offsets: &OffsetsBuffer<O>, from: usize, to: usize) -> usize
    requires ordered { from ≤ to }
    requires within { to < length offsets.now }
    ensures { result ≡ total (empty_size offsets.now) from (to - from) }
{
    let mut empty: usize = 0;
    let mut place = from;
    while place < to {
        let end = place + (to - place).min(1 << 16);
        empty += count_some(offsets, place, end) as usize;
        place = end;
    }
    empty
}

// The places of the items of lists side by side, counted from the first offset.
#[tactic(auto, using(crate::proofs::Rising::rising))]
fn items_of<O: Offset>(offsets: &OffsetsBuffer<O>, from: usize, to: usize) -> (usize, usize)
    requires ordered { from ≤ to }
    requires within { to < length offsets.now }
    ensures start { result.0 ≡ item_start offsets.now from }
    ensures end { result.1 ≡ item_start offsets.now to }
    ensures ordered { result.0 ≤ result.1 }
    ensures within { result.1 ≤ item_span offsets.now }
{
    offsets.know();
    let first = offsets.place(0);
    (offsets.place(from) - first, offsets.place(to) - first)
}

// Of lists side by side the places of their items, and how many have none.
fn look_at_lists<O: Offset>(
    offsets: &OffsetsBuffer<O>,
    from: usize,
    to: usize,
) -> (usize, usize, usize)
    requires ordered { from ≤ to }
    requires within { to ≤ length offsets.now - 1 }
    ensures rises { IsRising offsets.now }
    ensures some { to < length offsets.now }
    ensures start { result.0 ≡ item_start offsets.now from }
    ensures end { result.1 ≡ item_start offsets.now to }
    ensures ordered { result.0 ≤ result.1 }
    ensures within { result.1 ≤ item_span offsets.now }
    ensures empty { result.2 ≡ total (empty_size offsets.now) from (to - from) }
{
    offsets.know();
    // there is one offset more than there are lists
    let _lists = offsets.len_proxy();
    let (first, last) = items_of(offsets, from, to);
    (first, last, count_empty(offsets, from, to))
}

// A word whose set bits are the nulls of up to 64 slots, the first in the lowest bit.
fn null_word(mask: &Bitmap, place: usize, count: usize) -> u64
    requires some { 0 < count }
    requires few { count ≤ 64 }
    requires within { place + count ≤ length mask.now }
    ensures low { (i : ℕ) → bit_at result i ≡ 1 → i < count }
    ensures nulls { (i : ℕ) → i < count → slice_index_or mask.now (place + i) false ≡ false → bit_at result i ≡ 1 }
{
    (u64::MAX >> (64 - count)) ^ mask.word_at(place, count)
}

// Whether the lists at the set bits of a word have no items.
fn are_empty<O: Offset>(offsets: &OffsetsBuffer<O>, nulls: u64, place: usize) -> bool
    requires { (i : ℕ) → bit_at nulls i ≡ 1 → place + i + 1 < length offsets.now }
    ensures { IsTrue result → (i : ℕ) → bit_at nulls i ≡ 1 → item_count offsets.now (place + i) ≡ 0 }
{
    // the number of lists fits its type, so places do
    let _lists = offsets.len_proxy();
    let mut left = nulls;
    while left != 0 {
        let i = place + left.trailing_zeros() as usize;
        if offsets.place(i) != offsets.place(i + 1) {
            return false;
        }
        left = left & (left - 1);
    }
    true
}

// Whether the slots at the set bits of a word have no items beneath.
fn have_none(parts: &[Nested], nulls: u64, place: usize) -> bool
    requires fits { FitTogether (parts_of parts.now) }
    requires within { (i : ℕ) → bit_at nulls i ≡ 1 → place + i < slot_count (parts_of parts.now) }
    ensures { IsTrue result → (i : ℕ) → bit_at nulls i ≡ 1 → HasNoItems (parts_of parts.now) (place + i) }
{
    let Some((part, rest)) = parts.split_first() else {
        return true;
    };
    match part {
        Nested::Primitive(..) => true,
        Nested::List(list) => are_empty(&list.offsets, nulls, place),
        Nested::LargeList(list) => are_empty(&list.offsets, nulls, place),
        Nested::Struct(..) => have_none(rest, nulls, place),
    }
}

// Whether no null of a mask has items beneath.
fn nulls_have_none(mask: &Bitmap, parts: &[Nested], from: usize, to: usize) -> bool
    requires mask { length mask.now ≡ slot_count (parts_of parts.now) }
    requires fits { FitTogether (parts_of parts.now) }
    requires within { to ≤ slot_count (parts_of parts.now) }
    ensures { IsTrue result → (i : ℕ) → from ≤ i → i < to → slice_index_or mask.now i false ≡ false
        → HasNoItems (parts_of parts.now) i }
{
    let mut place = from;
    while place < to {
        let count = (to - place).min(64);
        if !have_none(parts, null_word(mask, place, count), place) {
            return false;
        }
        place += count;
    }
    true
}

// The same of a part's mask, which is not looked at where the part is required.
fn absent_have_none(
    is_optional: bool,
    mask: &Option<Bitmap>,
    parts: &[Nested],
    from: usize,
    to: usize,
) -> bool
    requires mask { MaskFits mask.now (slot_count (parts_of parts.now)) }
    requires fits { FitTogether (parts_of parts.now) }
    requires within { to ≤ slot_count (parts_of parts.now) }
    ensures { IsTrue result → (i : ℕ) → from ≤ i → i < to → is_present is_optional mask.now i ≡ false
        → HasNoItems (parts_of parts.now) i }
{
    if !is_optional {
        return true;
    }
    match mask {
        None => true,
        Some(mask) => nulls_have_none(mask, parts, from, to),
    }
}

/// The number of level pairs of the slots from `from` to `to`, or the largest number, where no null has items.
pub(crate) fn count_whole(parts: &[Nested], from: usize, to: usize) -> Option<usize>
    requires fits { FitTogether (parts_of parts.now) }
    requires ordered { from ≤ to }
    requires within { to ≤ slot_count (parts_of parts.now) }
    ensures { IfSome result (λ pairs. pairs ≡ min (total (slot_size (parts_of parts.now)) from (to - from))
        (2 ^ 64 - 1)) }
{
    let (part, rest) = parts.split_first()?;
    match part {
        Nested::Primitive(..) => Some(to - from),
        Nested::List(list) => {
            if !absent_have_none(list.is_optional, &list.validity, parts, from, to) {
                return None;
            }
            let (first, last, empty) = look_at_lists(&list.offsets, from, to);
            let pairs = count_whole(rest, first, last)?;
            Some(pairs.saturating_add(empty))
        }
        Nested::LargeList(list) => {
            if !absent_have_none(list.is_optional, &list.validity, parts, from, to) {
                return None;
            }
            let (first, last, empty) = look_at_lists(&list.offsets, from, to);
            let pairs = count_whole(rest, first, last)?;
            Some(pairs.saturating_add(empty))
        }
        Nested::Struct(mask, is_optional, _) => {
            if !absent_have_none(*is_optional, mask, rest, from, to) {
                return None;
            }
            count_whole(rest, from, to)
        }
    }
}
