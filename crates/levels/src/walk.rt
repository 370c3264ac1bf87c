//! Slots of a path that are alike in one of their levels, taken at once.
ghost use Rattle.std.specs.Prelude.{◌≡◌, List, ℕ, ◌+◌, ◌-◌, ◌<◌, ◌≤◌, ◌∷◌, length, slice_index_or, false};
ghost use Rattle.shredding.specs.Parts.{Part, IsPath, FitsAbove, FitTogether, MaskFits, is_present, leaf_part, list_part, slot_count};
ghost use Rattle.levels.specs.Nested.{parts_of};
ghost use Rattle.levels.specs.Stretch.{AreAlike, AreFull, IsStretch};

use crate::here::{bit, is_present, item_range};
use crate::items::items_end;
use crate::nested::{ListNested, Nested};
use columns_core::{Bitmap, Offset};

/// Which level of a pair is asked for.
#[derive(Clone, Copy, Debug, PartialEq, Eq, Drop)]
pub enum Level {
    /// The repetition level.
    Repetition,
    /// The definition level.
    Definition,
}

/// Slots of a path from one place on that are alike in the level that is asked for, each with the definition levels that they add.
#[derive(Clone, Copy, Drop)]
pub enum Stretch<'a> {
    /// To this place each slot has one pair: nulls, values, or a list without items.
    Ends(u32, usize),
    /// To this place the slots go on in the next part, at the same places.
    Below(&'a [Nested], u32, usize),
    /// Lists with items, to the place named last: the slots of the next part from one place to another.
    Items(&'a [Nested], u32, usize, usize, usize),
}

// Where bits that are alike end.
fn alike_end(mask: &Bitmap, there: bool, from: usize, to: usize) -> usize
    requires ordered { from ≤ to }
    requires within { to ≤ length mask.now }
    ensures after { from ≤ result }
    ensures within { result ≤ to }
    ensures alike { AreAlike (λ i. slice_index_or mask.now i false) there from result }
{
    mask.run_end(from, to, there)
}

// Whether the slot at a place is there, and where those end that are like it.
fn alike(
    is_optional: bool,
    mask: &Option<Bitmap>,
    count: usize,
    place: usize,
    to: usize,
) -> (bool, usize)
    requires fits { MaskFits mask.now count }
    requires some { place < to }
    requires within { to ≤ count }
    ensures after { place < result.1 }
    ensures within { result.1 ≤ to }
    ensures alike { AreAlike (λ i. is_present is_optional mask.now i) result.0 place result.1 }
{
    if !is_optional {
        return (true, to);
    }
    match mask {
        None => (true, to),
        Some(mask) => {
            let there = mask.get_bit(place);
            (there, alike_end(mask, there, place + 1, to))
        }
    }
}

// Where lists end that are there and have items, from one that is so.
fn full_end<O: Offset>(list: &ListNested<O>, place: usize, to: usize) -> usize
    requires fits { MaskFits list.now.validity (length list.now.offsets - 1) }
    requires some { place < to }
    requires within { to ≤ length list.now.offsets - 1 }
    requires full { AreFull list.now.is_optional list.now.validity list.now.offsets place (place + 1) }
    ensures after { place < result }
    ensures within { result ≤ to }
    ensures full { AreFull list.now.is_optional list.now.validity list.now.offsets place result }
{
    let lists = list.offsets.len_proxy();
    let (_, end) = alike(list.is_optional, &list.validity, lists, place, to);
    items_end(&list.offsets, place + 1, end)
}

// The stretch at a place of lists with items. The items of lists side by side lie side by side, so their definition levels are taken at
// once; repetition levels tell one list from the next.
#[inline(always)]
fn stretch_of_items<'a, O: Offset>(
    list: &ListNested<O>,
    rest: &'a [Nested],
    level: Level,
    place: usize,
    to: usize,
) -> Stretch<'a>
    requires fits { FitsAbove (list_part list.now.is_optional list.now.validity list.now.offsets) (parts_of rest.now) }
    requires beneath { FitTogether (parts_of rest.now) }
    requires some { place < to }
    requires within { to ≤ length list.now.offsets - 1 }
    requires full { AreFull list.now.is_optional list.now.validity list.now.offsets place (place + 1) }
    ensures { IsStretch level (list_part list.now.is_optional list.now.validity list.now.offsets ∷ parts_of rest.now)
        (length rest.now + 1) place to result }
{
    let up = bit(list.is_optional) + 1;
    let end = match level {
        Level::Repetition => place + 1,
        Level::Definition => full_end(list, place, to),
    };
    let (first, _) = item_range(&list.offsets, place);
    let (_, last) = item_range(&list.offsets, end - 1);
    Stretch::Items(rest, up, first, last, end)
}

// The stretch at a place of a list over the rest of its path.
#[inline(always)]
fn stretch_of_list<'a, O: Offset>(
    list: &ListNested<O>,
    rest: &'a [Nested],
    level: Level,
    place: usize,
    to: usize,
) -> Stretch<'a>
    requires fits { FitsAbove (list_part list.now.is_optional list.now.validity list.now.offsets) (parts_of rest.now) }
    requires beneath { FitTogether (parts_of rest.now) }
    requires some { place < to }
    requires within { to ≤ length list.now.offsets - 1 }
    ensures { IsStretch level (list_part list.now.is_optional list.now.validity list.now.offsets ∷ parts_of rest.now)
        (length rest.now + 1) place to result }
{
    let lists = list.offsets.len_proxy();
    if !is_present(list.is_optional, &list.validity, lists, place) {
        let (_, end) = alike(list.is_optional, &list.validity, lists, place, to);
        return Stretch::Ends(0, end);
    }
    let (first, end) = item_range(&list.offsets, place);
    if first == end {
        Stretch::Ends(bit(list.is_optional), place + 1)
    } else {
        stretch_of_items(list, rest, level, place, to)
    }
}

// The stretch at a place of a leaf. The values and nulls of a leaf have the same repetition levels.
#[inline(always)]
fn stretch_of_leaf<'a>(
    is_optional: bool,
    mask: &Option<Bitmap>,
    count: usize,
    level: Level,
    place: usize,
    to: usize,
) -> Stretch<'a>
    requires fits { MaskFits mask.now count }
    requires some { place < to }
    requires within { to ≤ count }
    ensures { (parts : List Part) → (n : ℕ)
        → IsStretch level (leaf_part is_optional mask.now count ∷ parts) n place to result }
{
    match level {
        Level::Repetition => Stretch::Ends(0, to),
        Level::Definition => {
            let (there, end) = alike(is_optional, mask, count, place, to);
            if there {
                Stretch::Ends(bit(is_optional), end)
            } else {
                Stretch::Ends(0, end)
            }
        }
    }
}

/// The stretch of a path from a place on, which ends at a place not behind `to`, as to a level.
#[inline(always)]
pub fn stretch_at(parts: &[Nested], level: Level, place: usize, to: usize) -> Stretch<'_>
    requires well { IsPath (parts_of parts.now) }
    requires some { place < to }
    requires within { to ≤ slot_count (parts_of parts.now) }
    ensures { IsStretch level (parts_of parts.now) (length parts.now) place to result }
{
    let Some((part, rest)) = parts.split_first() else {
        unreachable!()
    };
    match part {
        Nested::Primitive(mask, is_optional, count) => {
            stretch_of_leaf(*is_optional, mask, *count, level, place, to)
        }
        Nested::List(list) => stretch_of_list(list, rest, level, place, to),
        Nested::LargeList(list) => stretch_of_list(list, rest, level, place, to),
        Nested::Struct(mask, is_optional, count) => {
            let (there, end) = alike(*is_optional, mask, *count, place, to);
            if there {
                Stretch::Below(rest, bit(*is_optional), end)
            } else {
                Stretch::Ends(0, end)
            }
        }
    }
}
