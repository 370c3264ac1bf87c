//! How many slots of lists above lists are taken at once.
ghost use Rattle.std.specs.Prelude.{◌+◌, ◌-◌, ◌<◌, ◌≤◌};
ghost use Rattle.shredding.specs.Parts.{IsPath, slot_count};
ghost use Rattle.levels.specs.Nested.{parts_of};

use crate::items::item_place;
use columns_core::Offset;
use levels::{Level, ListNested, Nested, Stretch, stretch_at};

// Where the items of some lists begin and end, if there are such lists.
fn items_between<O: Offset>(list: &ListNested<O>, first: usize, last: usize) -> (usize, usize) {
    if first > last {
        return (0, 0);
    }
    if last > list.offsets.len_proxy() {
        return (0, 0);
    }
    (
        item_place(&list.offsets, first),
        item_place(&list.offsets, last),
    )
}

// The slots beneath some slots of a part, and how many of them are items.
fn beneath(part: &Nested, first: usize, last: usize) -> (usize, usize, usize) {
    match part {
        Nested::List(list) => {
            let (from, to) = items_between(list, first, last);
            (from, to, to.saturating_sub(from))
        }
        Nested::LargeList(list) => {
            let (from, to) = items_between(list, first, last);
            (from, to, to.saturating_sub(from))
        }
        Nested::Primitive(..) => (first, last, 0),
        Nested::Struct(..) => (first, last, 0),
    }
}

// How many pairs some slots have at most, and whether no lists have many items each.
fn spans_of(parts: &[Nested], from: usize, to: usize) -> (usize, bool) {
    let mut rest = parts;
    let mut first = from;
    let mut last = to;
    let mut pairs = to.saturating_sub(from);
    let mut are_short = true;
    while let Some((part, others)) = rest.split_first() {
        let (next, end, items) = beneath(part, first, last);
        are_short &= items / 16 <= last.saturating_sub(first);
        pairs = pairs.saturating_add(items);
        first = next;
        last = end;
        rest = others;
    }
    (pairs, are_short)
}

// Whether some slots have few pairs, as the offsets of their lists tell.
fn are_few(parts: &[Nested], from: usize, to: usize) -> bool {
    let (pairs, _) = spans_of(parts, from, to);
    pairs <= 2048
}

// Whether some slots are best told at once: they have few pairs, and no lists have many items each.
pub fn are_short(parts: &[Nested], from: usize, to: usize) -> bool {
    let (pairs, are_short) = spans_of(parts, from, to);
    if pairs > 2048 {
        return false;
    }
    are_short
}

// Where the slots end that are taken at once, from a place on: as many as have few pairs, and at least one.
pub fn block_end(parts: &[Nested], place: usize, to: usize) -> usize
    requires some { place < to }
    ensures after { place < result }
    ensures before { result ≤ to }
{
    let mut count = (to - place).min(256);
    while count > 1 {
        if are_few(parts, place, place + count) {
            break;
        }
        count /= 2;
    }
    place + count
}

// Whether the next 64 slots are alike in a level.
pub fn is_long_stretch(parts: &[Nested], level: Level, place: usize, to: usize) -> bool
    requires well { IsPath (parts_of parts.now) }
    requires some { place < to }
    requires within { to ≤ slot_count (parts_of parts.now) }
{
    if to - place < 64 {
        return false;
    }
    let last = place + 64;
    match stretch_at(parts, level, place, last) {
        Stretch::Ends(_, end) => end == last,
        Stretch::Below(_, _, end) => end == last,
        Stretch::Items(_, _, _, _, end) => end == last,
    }
}
