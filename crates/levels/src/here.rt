//! What stands at a place of a part.
ghost use Rattle.std.specs.Prelude.{◌≡◌, ℕ, ◌+◌, ◌-◌, ◌<◌, ◌≤◌, ◌==◌, Bool, List, Option, length, slice_index, ◌∷◌};
ghost use Rattle.std.specs.Int.{bit_at};
ghost use Rattle.columns_core.specs.Rising.{IsRising};
ghost use Rattle.shredding.specs.Parts.{MaskFits, is_present, item_start, item_span};
ghost use Rattle.levels.specs.Levels.{bit};
ghost use Rattle.levels.specs.Sizes.{list_size};

use columns_core::{Bitmap, Offset, OffsetsBuffer};

pub(crate) fn bit(b: bool) -> u32
    ensures { result ≡ bit b }
{
    if b { 1 } else { 0 }
}

pub(crate) fn is_present(is_optional: bool, mask: &Option<Bitmap>, count: usize, i: usize) -> bool
    requires fits { MaskFits mask.now count }
    requires within { i < count }
    ensures { result ≡ is_present is_optional mask.now i }
{
    if !is_optional {
        return true;
    }
    match mask {
        None => true,
        Some(mask) => mask.get_bit(i),
    }
}

/// A word whose `count` low bits are set.
#[tactic(auto, using(crate::proofs::Flat::full_bit))]
pub fn full_word(count: usize) -> u64
    requires some { 0 < count }
    requires few { count ≤ 64 }
    ensures { (i : ℕ) → i < count → bit_at result i ≡ 1 }
{
    u64::MAX >> (64 - count)
}

/// Which of up to 64 slots of a part are there, the first in the lowest bit.
pub fn present_word(
    is_optional: bool,
    mask: &Option<Bitmap>,
    slots: usize,
    place: usize,
    count: usize,
) -> u64
    requires fits { MaskFits mask.now slots }
    requires some { 0 < count }
    requires few { count ≤ 64 }
    requires within { place + count ≤ slots }
    ensures { (i : ℕ) → i < count → (bit_at result i == 1) ≡ is_present is_optional mask.now (place + i) }
{
    if !is_optional {
        return full_word(count);
    }
    match mask {
        None => full_word(count),
        Some(mask) => mask.word_at(place, count),
    }
}

// The places of the items of list `i`, counted from the first offset.
#[tactic(auto, using(crate::proofs::Rising::rising))]
pub(crate) fn item_range<O: Offset>(offsets: &OffsetsBuffer<O>, i: usize) -> (usize, usize)
    requires { i + 1 < length offsets.now }
    ensures start { result.0 ≡ item_start offsets.now i }
    ensures end { result.1 ≡ item_start offsets.now (i + 1) }
    ensures ordered { result.0 ≤ result.1 }
    ensures within { result.1 ≤ item_span offsets.now }
{
    offsets.know();
    // the number of lists fits its type, so `i + 1` does
    let _lists = offsets.len_proxy();
    let first = offsets.place(0);
    (offsets.place(i) - first, offsets.place(i + 1) - first)
}

/// The number of level pairs of list `i` above a path without lists.
#[inline(always)]
pub fn list_pairs<O: Offset>(offsets: &OffsetsBuffer<O>, there: bool, i: usize) -> usize
    requires { i + 1 < length offsets.now }
    ensures { (is_optional : Bool) → (mask : Option (List Bool)) → there ≡ is_present is_optional mask i
        → result ≡ list_size is_optional mask offsets.now i }
{
    if !there {
        return 1;
    }
    let (first, last) = item_range(offsets, i);
    (last - first).max(1)
}
