//! Stretches of lists of few items.
ghost use Rattle.std.specs.Prelude.{◌≡◌, ◌+◌, ◌-◌, ◌<◌, ◌≤◌, ◌∷◌, length};
ghost use Rattle.shredding.specs.Parts.{FitsAbove, FitTogether, IsPath, MaskFits, is_present, list_part, slot_count};
ghost use Rattle.levels.specs.Nested.{parts_of};
ghost use Rattle.levels.specs.Stretch.{AreFull, IsStretch};

use crate::block::step_of;
use crate::items::item_place;
use columns_core::{Bitmap, Offset};
use levels::{Level, ListNested, Nested, Stretch, stretch_at};

// Whether list `i` is there.
#[inline(always)]
pub fn is_there(is_optional: bool, mask: &Option<Bitmap>, lists: usize, i: usize) -> bool
    requires fits { MaskFits mask.now lists }
    requires within { i < lists }
    ensures { result ≡ is_present is_optional mask.now i }
{
    if !is_optional {
        return true;
    }
    match mask {
        None => true,
        Some(mask) => mask.get_bit(i),
    }
}

// Where lists end that are there and have items, from one that is so, list by list.
#[inline(always)]
fn full_end<O: Offset>(list: &ListNested<O>, place: usize, to: usize) -> usize
    requires fits { MaskFits list.now.validity (length list.now.offsets - 1) }
    requires some { place < to }
    requires within { to ≤ length list.now.offsets - 1 }
    requires full { AreFull list.now.is_optional list.now.validity list.now.offsets place (place + 1) }
    ensures after { place < result }
    ensures before { result ≤ to }
    ensures full { AreFull list.now.is_optional list.now.validity list.now.offsets place result }
{
    let lists = list.offsets.len_proxy();
    let mut end = place + 1;
    while end < to {
        if !is_there(list.is_optional, &list.validity, lists, end) {
            break;
        }
        if item_place(&list.offsets, end) == item_place(&list.offsets, end + 1) {
            break;
        }
        end += 1;
    }
    end
}

// The stretch at a place of lists with items.
#[inline(always)]
fn stretch_of_items<'a, O: Offset>(
    list: &ListNested<O>,
    rest: &'a [Nested],
    level: Level,
    place: usize,
    to: usize,
) -> Stretch<'a>
    requires fits { FitsAbove (list_part list.now.is_optional list.now.validity list.now.offsets) (parts_of rest.now) }
    requires beneath { FitTogether (parts_of rest.now) }
    requires some { place < to }
    requires within { to ≤ length list.now.offsets - 1 }
    requires full { AreFull list.now.is_optional list.now.validity list.now.offsets place (place + 1) }
    ensures { IsStretch level (list_part list.now.is_optional list.now.validity list.now.offsets ∷ parts_of rest.now)
        (length rest.now + 1) place to result }
{
    let up = step_of(list.is_optional) + 1;
    let first = item_place(&list.offsets, place);
    match level {
        Level::Repetition => {
            let last = item_place(&list.offsets, place + 1);
            Stretch::Items(rest, up, first, last, place + 1)
        }
        Level::Definition => {
            let end = full_end(list, place, to);
            let last = item_place(&list.offsets, end);
            Stretch::Items(rest, up, first, last, end)
        }
    }
}

// The stretch at a place of a list over the rest of its path. Lists without items are taken one by one.
#[inline(always)]
fn stretch_of_list<'a, O: Offset>(
    list: &ListNested<O>,
    rest: &'a [Nested],
    level: Level,
    place: usize,
    to: usize,
) -> Stretch<'a>
    requires fits { FitsAbove (list_part list.now.is_optional list.now.validity list.now.offsets) (parts_of rest.now) }
    requires beneath { FitTogether (parts_of rest.now) }
    requires some { place < to }
    requires within { to ≤ length list.now.offsets - 1 }
    ensures { IsStretch level (list_part list.now.is_optional list.now.validity list.now.offsets ∷ parts_of rest.now)
        (length rest.now + 1) place to result }
{
    let lists = list.offsets.len_proxy();
    if !is_there(list.is_optional, &list.validity, lists, place) {
        return Stretch::Ends(0, place + 1);
    }
    let first = item_place(&list.offsets, place);
    let last = item_place(&list.offsets, place + 1);
    if first == last {
        return Stretch::Ends(step_of(list.is_optional), place + 1);
    }
    stretch_of_items(list, rest, level, place, to)
}

// The stretch of a path from a place on, as to a level. Lists are looked at one by one.
#[inline(always)]
pub fn next_stretch(parts: &[Nested], level: Level, place: usize, to: usize) -> Stretch<'_>
    requires well { IsPath (parts_of parts.now) }
    requires some { place < to }
    requires within { to ≤ slot_count (parts_of parts.now) }
    ensures { IsStretch level (parts_of parts.now) (length parts.now) place to result }
{
    let Some((part, rest)) = parts.split_first() else {
        unreachable!()
    };
    match part {
        Nested::List(list) => stretch_of_list(list, rest, level, place, to),
        Nested::LargeList(list) => stretch_of_list(list, rest, level, place, to),
        Nested::Primitive(..) => stretch_at(parts, level, place, to),
        Nested::Struct(..) => stretch_at(parts, level, place, to),
    }
}
