//! The number of level pairs.
ghost use Rattle.std.specs.Prelude.{◌≡◌, ℕ, ◌+◌, ◌-◌, ◌^◌, ◌<◌, ◌≤◌, ◌==◌, Bool, List, Option, length, min, IfSome};
ghost use Rattle.std.specs.Int.{bit_at};
ghost use Rattle.shredding.specs.Slot.{Value};
ghost use Rattle.shredding.specs.Parts.{IsPath, MaskFits, is_present, slot_count};
ghost use Rattle.levels.specs.Nested.{parts_of, nested_column};
ghost use Rattle.levels.specs.Sizes.{total, slot_size, list_size};

use crate::here::{list_pairs, present_word};
use crate::nested::{ListNested, Nested, has_lists, slot_count};
use crate::walk::{Level, Stretch, stretch_at};
use crate::whole::count_whole;
use columns_core::{Offset, OffsetsBuffer};

// The number of level pairs of up to 64 lists above a path without lists, or the largest number. A word tells which lists are there.
fn count_some<O: Offset>(offsets: &OffsetsBuffer<O>, word: u64, place: usize, count: usize) -> usize
    requires few { count ≤ 64 }
    requires within { place + count ≤ length offsets.now - 1 }
    ensures { (is_optional : Bool) → (mask : Option (List Bool))
        → ((i : ℕ) → i < count → (bit_at word i == 1) ≡ is_present is_optional mask (place + i))
        → result ≡ min (total (list_size is_optional mask offsets.now) place count) (2 ^ 64 - 1) }
{
    // the number of lists fits its type, so `place + i` does
    let _lists = offsets.len_proxy();
    let mut sum: usize = 0;
    for i in 0..count {
        let there = (word >> i) & 1 == 1;
        sum = sum.saturating_add(list_pairs(offsets, there, place + i));
    }
    sum
}

// The number of level pairs of lists above a path without lists, or the largest number.
fn count_lists<O: Offset>(list: &ListNested<O>, from: usize, to: usize) -> usize
    requires fits { MaskFits list.now.validity (length list.now.offsets - 1) }
    requires ordered { from ≤ to }
    requires within { to ≤ length list.now.offsets - 1 }
    ensures { result ≡ min (total (list_size list.now.is_optional list.now.validity list.now.offsets) from (to - from))
        (2 ^ 64 - 1) }
{
    let lists = list.offsets.len_proxy();
    let mut sum: usize = 0;
    let mut place = from;
    while place < to {
        let count = (to - place).min(64);
        let word = present_word(list.is_optional, &list.validity, lists, place, count);
        sum = sum.saturating_add(count_some(&list.offsets, word, place, count));
        place += count;
    }
    sum
}

// The number of level pairs where at most the first part is a list, or the largest number.
fn count_at_once(parts: &[Nested], from: usize, to: usize) -> Option<usize>
    requires well { IsPath (parts_of parts.now) }
    requires ordered { from ≤ to }
    requires within { to ≤ slot_count (parts_of parts.now) }
    ensures { IfSome result (λ pairs. pairs ≡ min (total (slot_size (parts_of parts.now)) from (to - from))
        (2 ^ 64 - 1)) }
{
    let Some((part, rest)) = parts.split_first() else {
        return None;
    };
    if has_lists(rest) {
        return None;
    }
    match part {
        Nested::Primitive(..) => Some(to - from),
        Nested::Struct(..) => Some(to - from),
        Nested::List(list) => Some(count_lists(list, from, to)),
        Nested::LargeList(list) => Some(count_lists(list, from, to)),
    }
}

// The number of level pairs of the stretch at a place, or the largest number, and the place behind it.
#[cycle(count)]
fn count_stretch(parts: &[Nested], place: usize, to: usize) -> (usize, usize)
    requires well { IsPath (parts_of parts.now) }
    requires some { place < to }
    requires within { to ≤ slot_count (parts_of parts.now) }
    ensures after { place < result.1 }
    ensures within { result.1 ≤ to }
    ensures pairs { result.0 ≡ min (total (slot_size (parts_of parts.now)) place (result.1 - place)) (2 ^ 64 - 1) }
{
    match stretch_at(parts, Level::Definition, place, to) {
        Stretch::Ends(_, end) => (end - place, end),
        Stretch::Below(rest, _, end) => (count(rest, place, end), end),
        Stretch::Items(rest, _, first, last, end) => (count(rest, first, last), end),
    }
}

// The number of level pairs of the slots from `from` to `to`, or the largest number.
#[cycle(count)]
fn count(parts: &[Nested], from: usize, to: usize) -> usize
    requires well { IsPath (parts_of parts.now) }
    requires ordered { from ≤ to }
    requires within { to ≤ slot_count (parts_of parts.now) }
    ensures { result ≡ min (total (slot_size (parts_of parts.now)) from (to - from)) (2 ^ 64 - 1) }
{
    if let Some(pairs) = count_at_once(parts, from, to) {
        return pairs;
    }
    let mut sum: usize = 0;
    let mut place = from;
    while place < to {
        let (pairs, end) = count_stretch(parts, place, to);
        sum = sum.saturating_add(pairs);
        place = end;
    }
    sum
}

/// The number of level pairs of a path, or `usize::MAX` where there are more. It takes no memory.
pub fn num_values(nested: &[Nested]) -> usize
    requires { IsPath (parts_of nested.now) }
    ensures { (values : ℕ → Value) → result ≡ min (length (nested_column values nested.now)) (2 ^ 64 - 1) }
{
    let slots = slot_count(nested);
    match count_whole(nested, 0, slots) {
        Some(pairs) => pairs,
        None => count(nested, 0, slots),
    }
}
