//! What slots of a path side by side reach.
ghost use Rattle.std.specs.Prelude.{◌≡◌, ℕ, ◌+◌, ◌-◌, ◌^◌, ◌<◌, ◌≤◌, cond, List, ◌∷◌, [], length};
ghost use Rattle.std.specs.Int.{bit_at};
ghost use Rattle.shredding.specs.Parts.{IsPath, item_start, item_span, slot_count};
ghost use Rattle.columns_core.specs.Rising.{IsRising};
ghost use Rattle.levels.specs.Nested.{parts_of};
ghost use Rattle.write_places.specs.Reach.{AreClosed, IsFoot, IsListFoot, IsReach, IsRange};
ghost use Rattle.write_places.specs.There.{there_places, TellThere};
ghost use Rattle.levels.specs.Ranges.{leaf_count_or};

use crate::there::{Masks, full_end, full_word, masked_word, next_run, word_size};
use columns_core::{Offset, OffsetsBuffer};
use levels::{ListNested, Nested};

/// The leaf or list behind the structs in front of a path, and of a list what is beneath it.
#[derive(Clone, Copy, Drop)]
pub enum Foot<'a> {
    /// The leaf.
    Leaf,
    /// A list.
    ListOf(&'a ListNested<i32>, &'a [Nested]),
    /// A list with offsets of 64 bits.
    LargeListOf(&'a ListNested<i64>, &'a [Nested]),
}

/// What slots from one place on reach.
#[derive(Clone, Copy, Drop)]
pub enum Reach<'a> {
    /// To this place the slots are null.
    Nothing(usize),
    /// To this place the slots are a leaf's, at the same positions.
    Leaves(usize),
    /// To this place, at most 64 further, the slots whose bits in the word are set are a leaf's, at the same positions.
    Picked(u64, usize),
    /// The slots of the next part from one place to another; then the place behind.
    Below(&'a [Nested], usize, usize, usize),
}

/// The leaf or list behind the structs in front.
pub fn foot_of(parts: &[Nested]) -> Foot<'_>
    requires { IsPath (parts_of parts.now) }
    ensures { IsFoot (parts_of parts.now) (length parts.now) result }
{
    let Some((part, rest)) = parts.split_first() else {
        unreachable!()
    };
    match part {
        Nested::Primitive(..) => Foot::Leaf,
        Nested::List(list) => Foot::ListOf(list, rest),
        Nested::LargeList(list) => Foot::LargeListOf(list, rest),
        Nested::Struct(..) => foot_of(rest),
    }
}

// What so many slots of a leaf beneath structs reach, by one word of them. Where all are there, more may be.
#[inline(always)]
fn reach_word<'a>(
    masks: Masks<'_>,
    parts: &'a [Nested],
    place: usize,
    count: usize,
    to: usize,
) -> Reach<'a>
    requires well { IsPath (parts_of parts.now) }
    requires tell { TellThere (parts_of parts.now) masks }
    requires leaf { (i : ℕ) → there_places (parts_of parts.now) i ≡ i ∷ [] }
    requires room { slot_count (parts_of parts.now) ≤ leaf_count_or 0 (parts_of parts.now) }
    requires some { 0 < count }
    requires few { count ≤ 64 }
    requires up { place + count ≤ to }
    requires within { to ≤ slot_count (parts_of parts.now) }
    ensures { IsReach (parts_of parts.now) (length parts.now) place to result }
{
    let word = masked_word(masks, parts, place, count);
    if word == 0 {
        Reach::Nothing(place + count)
    } else if word == full_word(count) {
        Reach::Leaves(full_end(masks, parts, place + count, to))
    } else {
        Reach::Picked(word, place + count)
    }
}

// What slots of a leaf beneath structs reach. Where all are there, they are one stretch.
#[inline(always)]
fn reach_leaves<'a>(masks: Masks<'_>, parts: &'a [Nested], place: usize, to: usize) -> Reach<'a>
    requires well { IsPath (parts_of parts.now) }
    requires tell { TellThere (parts_of parts.now) masks }
    requires leaf { (i : ℕ) → there_places (parts_of parts.now) i ≡ i ∷ [] }
    requires room { slot_count (parts_of parts.now) ≤ leaf_count_or 0 (parts_of parts.now) }
    requires some { place < to }
    requires within { to ≤ slot_count (parts_of parts.now) }
    ensures { IsReach (parts_of parts.now) (length parts.now) place to result }
{
    if let Masks::Nowhere = masks {
        return Reach::Leaves(to);
    }
    if to - place < 64 {
        reach_word(masks, parts, place, to - place, to)
    } else {
        reach_word(masks, parts, place, 64, to)
    }
}

// The place in the next part of the first item of list `i`, or behind all items, counted from the first offset.
#[tactic(auto, using(levels::proofs::Rising::rising))]
fn item_place<O: Offset>(offsets: &OffsetsBuffer<O>, i: usize) -> usize
    requires { i < length offsets.now }
    ensures start { result ≡ item_start offsets.now i }
    ensures within { result ≤ item_span offsets.now }
    ensures rises { IsRising offsets.now }
{
    offsets.know();
    let _lists = offsets.len_proxy();
    offsets.place(i) - offsets.place(0)
}

// How many lists from a place on are there or have no items, up to the first that is neither. Those that are there have their bits set.
fn closed_lists<O: Offset>(
    offsets: &OffsetsBuffer<O>,
    place: usize,
    word: u64,
    count: usize,
) -> usize
    requires some { 0 < count }
    requires few { count ≤ 64 }
    requires low { word < 2 ^ count }
    requires within { place + count < length offsets.now }
    ensures few { result ≤ count }
    ensures closed { (i : ℕ) → i < result → bit_at word i ≡ 0 → item_start offsets.now (place + i)
        ≡ item_start offsets.now (place + i + 1) }
{
    let _lists = offsets.len_proxy();
    let mut absent = word ^ full_word(count);
    while absent != 0 {
        let i = absent.trailing_zeros() as usize;
        if offsets.place(place + i) != offsets.place(place + i + 1) {
            return i;
        }
        absent ^= 1 << i;
    }
    count
}

// Where lists from a place on end that are there or have no items.
fn closed_end<O: Offset>(
    masks: Masks<'_>,
    parts: &[Nested],
    offsets: &OffsetsBuffer<O>,
    place: usize,
    to: usize,
) -> usize
    requires well { IsPath (parts_of parts.now) }
    requires tell { TellThere (parts_of parts.now) masks }
    requires lists { slot_count (parts_of parts.now) ≡ length offsets.now - 1 }
    requires ordered { place ≤ to }
    requires within { to ≤ slot_count (parts_of parts.now) }
    ensures after { place ≤ result }
    ensures within { result ≤ to }
    ensures closed { AreClosed (parts_of parts.now) offsets.now place result }
{
    let _lists = offsets.len_proxy();
    let mut end = place;
    while end < to {
        let count = word_size(end, to);
        let word = masked_word(masks, parts, end, count);
        let closed = closed_lists(offsets, end, word, count);
        end += closed;
        if closed < count {
            return end;
        }
    }
    end
}

// The items of lists from a place on that lie side by side, and the place behind the lists.
fn next_range<O: Offset>(
    masks: Masks<'_>,
    parts: &[Nested],
    list: &ListNested<O>,
    rest: &[Nested],
    place: usize,
    to: usize,
) -> (usize, usize, usize)
    requires well { IsPath (parts_of parts.now) }
    requires tell { TellThere (parts_of parts.now) masks }
    requires foot { IsListFoot (parts_of parts.now) (length parts.now) list.now.offsets (parts_of rest.now)
        (length rest.now) }
    requires some { place < to }
    requires within { to ≤ slot_count (parts_of parts.now) }
    ensures { IsRange (parts_of parts.now) (parts_of rest.now)
        (item_span list.now.offsets) place to result.0 result.1 result.2 }
{
    let end = closed_end(masks, parts, &list.offsets, place, to);
    if end == place {
        let (start, end) = next_run(masks, parts, place, to);
        let first = item_place(&list.offsets, start);
        return (first, item_place(&list.offsets, end), end);
    }
    let first = item_place(&list.offsets, place);
    (first, item_place(&list.offsets, end), end)
}

// What slots of a list beneath structs reach. The items of lists side by side lie side by side, be some of them empty.
#[inline(always)]
fn reach_lists<'a, O: Offset>(
    masks: Masks<'_>,
    parts: &[Nested],
    list: &ListNested<O>,
    rest: &'a [Nested],
    place: usize,
    to: usize,
) -> Reach<'a>
    requires well { IsPath (parts_of parts.now) }
    requires tell { TellThere (parts_of parts.now) masks }
    requires foot { IsListFoot (parts_of parts.now) (length parts.now) list.now.offsets (parts_of rest.now)
        (length rest.now) }
    requires some { place < to }
    requires within { to ≤ slot_count (parts_of parts.now) }
    ensures { IsReach (parts_of parts.now) (length parts.now) place to result }
{
    let (first, behind, end) = next_range(masks, parts, list, rest, place, to);
    Reach::Below(rest, first, behind, end)
}

/// What the slots of a path from a place on reach, to a place not behind `to`.
#[inline(always)]
pub fn reach_at<'a>(
    foot: Foot<'a>,
    masks: Masks<'_>,
    parts: &'a [Nested],
    place: usize,
    to: usize,
) -> Reach<'a>
    requires well { IsPath (parts_of parts.now) }
    requires foot { IsFoot (parts_of parts.now) (length parts.now) foot }
    requires tell { TellThere (parts_of parts.now) masks }
    requires some { place < to }
    requires within { to ≤ slot_count (parts_of parts.now) }
    ensures { IsReach (parts_of parts.now) (length parts.now) place to result }
{
    match foot {
        Foot::Leaf => reach_leaves(masks, parts, place, to),
        Foot::ListOf(list, rest) => reach_lists(masks, parts, list, rest, place, to),
        Foot::LargeListOf(list, rest) => reach_lists(masks, parts, list, rest, place, to),
    }
}
