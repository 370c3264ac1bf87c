//! Levels of lists above lists, some slots at once, as bytes.
ghost use Rattle.std.specs.Prelude.{◌≡◌, ℕ, ◌+◌, ◌-◌, ◌<◌, ◌≤◌, ◌++◌, IfSome, IsTrue, length, map, take};
ghost use Rattle.std.specs.Int.{to_le_bytes, w32};
ghost use Rattle.shredding.specs.Parts.{IsPath, MaskFits, path_way, slot_count};
ghost use Rattle.shredding.specs.Shred.{max_repetition};
ghost use Rattle.levels.specs.Nested.{parts_of};
ghost use Rattle.levels.specs.Sizes.{list_size};
ghost use Rattle.levels.specs.Stretch.{level_of, like_pairs};
ghost use Rattle.level_sections.specs.Blocks.{Reaches, flat_level, levels_from};
ghost use Rattle.level_sections.specs.Lists.{reps_from};
ghost use Rattle.level_sections.specs.Planes.{plane_numbers};
ghost use Rattle.level_sections.specs.Walk.{IsLow, walked};

use crate::level_bytes::LevelBytes;
use crate::list_stretch::{is_there, next_stretch};
use crate::pieces::{Pieces, tell_pieces};
use crate::planes::{BitPlanes, one_plane, put_four, spread_at, with_parts};
use crate::spans::are_short;
use crate::walk::{Above, Shape, shape_of};
use columns_core::Offset;
use levels::{Level, ListNested, Nested, Stretch, full_word, list_pairs};

// Four numbers from a place on as four bytes, each with so much more, the first lowest.
#[inline(always)]
fn four_levels(low: u32, planes: BitPlanes, at: usize) -> u32
    requires place { at < 64 }
    requires low { low ≤ 248 }
    ensures { to_le_bytes w32 result ≡ plane_numbers low planes at 4 }
{
    let ones = spread_at(planes.ones, at) as u32;
    let twos = spread_at(planes.twos, at) as u32;
    let fours = spread_at(planes.fours, at) as u32;
    low * 0x0101_0101 + (ones + 2 * twos + 4 * fours)
}

// The numbers of so many places as bytes, each with so much more, four at a time.
#[inline(always)]
fn bytes_of(low: u32, planes: BitPlanes, count: usize) -> [u8; 64]
    requires low { low ≤ 248 }
    requires few { count ≤ 64 }
    ensures { take count result ≡ plane_numbers low planes 0 count }
{
    let mut bytes = [0; 64];
    for i in 0..(count + 3) / 4 {
        put_four(
            &mut bytes,
            4 * i,
            four_levels(low, planes, 4 * i).to_le_bytes(),
        );
    }
    bytes
}

// The definition levels of up to 64 slots of a path without lists.
#[inline(always)]
fn flat_bytes(parts: &[Nested], def: u32, place: usize, count: usize) -> [u8; 64]
    requires reaches { Reaches (place + count) (parts_of parts.now) }
    requires some { 0 < count }
    requires few { count ≤ 64 }
    requires parts { length parts.now ≤ 7 }
    requires low { def ≤ 248 }
    ensures { take count result ≡ levels_from (flat_level (parts_of parts.now) def) place count }
{
    let planes = with_parts(one_plane(0), parts, full_word(count), place, count);
    bytes_of(def, planes, count)
}

// The definition levels of the slots of a path without lists, which has few parts.
#[inline(never)]
fn tell_levels(told: &mut LevelBytes, parts: &[Nested], def: u32, from: usize, to: usize) -> bool
    requires reaches { Reaches to (parts_of parts.now) }
    requires parts { length parts.now ≤ 7 }
    requires low { def ≤ 248 }
    requires ordered { from ≤ to }
    ensures { IsTrue result → told.new ≡ told.old ++ levels_from (flat_level (parts_of parts.now) def) from
        (to - from) }
{
    let mut place = from;
    while place < to {
        let count = (to - place).min(64);
        let bytes = flat_bytes(parts, def, place, count);
        if !told.push_block(bytes, count) {
            return false;
        }
        place += count;
    }
    true
}

// The levels of so many slots of one pair each.
#[inline(always)]
fn tell_pairs(told: &mut LevelBytes, level: Level, above: Above, count: usize) -> bool
    requires some { 0 < count }
    requires first { above.rep ≤ above.depth }
    requires def { above.def < 256 }
    requires depth { above.depth < 256 }
    ensures { IsTrue result → told.new ≡ told.old ++ map (level_of level)
        (like_pairs above.rep above.depth above.def count) }
{
    match level {
        Level::Definition => told.push_copies(above.def, count),
        Level::Repetition => told.push_first(above.rep, above.depth, count),
    }
}

// The levels of the slots of a path without lists.
pub fn tell_flat(
    told: &mut LevelBytes,
    level: Level,
    parts: &[Nested],
    above: Above,
    from: usize,
    to: usize,
) -> bool
    requires well { IsPath (parts_of parts.now) }
    requires flat { max_repetition (path_way (parts_of parts.now)) ≡ 0 }
    requires some { from < to }
    requires within { to ≤ slot_count (parts_of parts.now) }
    requires low { IsLow above (length parts.now) }
    ensures { IsTrue result → told.new ≡ told.old ++ walked level (parts_of parts.now) above from (to - from) }
{
    match level {
        Level::Repetition => tell_pairs(told, level, above, to - from),
        Level::Definition => {
            if parts.len() > 7 {
                return false;
            }
            if above.def > 248 {
                return false;
            }
            tell_levels(told, parts, above.def, from, to)
        }
    }
}

// The number of level pairs of list `i` above a path without lists.
#[inline(always)]
fn pairs_at<O: Offset>(list: &ListNested<O>, i: usize) -> usize
    requires fits { MaskFits list.now.validity (length list.now.offsets - 1) }
    requires within { i < length list.now.offsets - 1 }
    ensures some { 1 ≤ result }
    ensures size { result ≡ list_size list.now.is_optional list.now.validity list.now.offsets i }
{
    let lists = list.offsets.len_proxy();
    let there = is_there(list.is_optional, &list.validity, lists, i);
    list_pairs(&list.offsets, there, i).max(1)
}

// The repetition levels of lists above a path without lists.
#[inline(never)]
fn tell_lists<O: Offset>(
    told: &mut LevelBytes,
    list: &ListNested<O>,
    above: Above,
    from: usize,
    to: usize,
) -> bool
    requires fits { MaskFits list.now.validity (length list.now.offsets - 1) }
    requires ordered { from ≤ to }
    requires within { to ≤ length list.now.offsets - 1 }
    requires first { above.rep ≤ above.depth }
    requires low { above.depth < 255 }
    ensures { IsTrue result → told.new ≡ told.old ++ reps_from
        (list_size list.now.is_optional list.now.validity list.now.offsets) above.rep above.depth from (to - from) }
{
    let mut rep = above.rep;
    let mut place = from;
    while place < to {
        let pairs = pairs_at(list, place);
        if !told.push_first(rep, above.depth + 1, pairs) {
            return false;
        }
        rep = above.depth;
        place += 1;
    }
    true
}

// The levels of the stretch at a place, and the place behind it.
#[cycle(tell)]
#[inline(always)]
fn tell_stretch(
    told: &mut LevelBytes,
    level: Level,
    parts: &[Nested],
    above: Above,
    place: usize,
    to: usize,
) -> Option<usize>
    requires well { IsPath (parts_of parts.now) }
    requires some { place < to }
    requires within { to ≤ slot_count (parts_of parts.now) }
    requires low { IsLow above (length parts.now) }
    ensures after { IfSome result (λ next. (place < next) × (next ≤ to)) }
    ensures told { IfSome result (λ next. told.new ≡ told.old ++ walked level (parts_of parts.now) above place
        (next - place)) }
{
    match next_stretch(parts, level, place, to) {
        Stretch::Ends(up, end) => {
            let here = Above {
                def: above.def + up,
                ..above
            };
            if !tell_pairs(told, level, here, end - place) {
                return None;
            }
            Some(end)
        }
        Stretch::Below(rest, up, end) => {
            let here = Above {
                def: above.def + up,
                ..above
            };
            if !tell(told, level, rest, here, place, end) {
                return None;
            }
            Some(end)
        }
        Stretch::Items(rest, up, first, last, end) => {
            let here = Above {
                rep: above.rep,
                def: above.def + up,
                depth: above.depth + 1,
            };
            if !tell(told, level, rest, here, first, last) {
                return None;
            }
            Some(end)
        }
    }
}

// The levels of the slots from one place to another, stretch by stretch.
#[cycle(tell)]
#[inline(always)]
fn tell_stretches(
    told: &mut LevelBytes,
    level: Level,
    parts: &[Nested],
    above: Above,
    from: usize,
    to: usize,
) -> bool
    requires well { IsPath (parts_of parts.now) }
    requires ordered { from ≤ to }
    requires within { to ≤ slot_count (parts_of parts.now) }
    requires low { IsLow above (length parts.now) }
    ensures { IsTrue result → told.new ≡ told.old ++ walked level (parts_of parts.now) above from (to - from) }
{
    let mut place = from;
    let mut here = above;
    while place < to {
        match tell_stretch(told, level, parts, here, place, to) {
            None => return false,
            Some(next) => place = next,
        }
        here.rep = here.depth;
    }
    true
}

// The levels of some slots behind those that wait. They have no room, or are better told in another way, where the answer is no.
#[cycle(tell)]
pub fn tell(
    told: &mut LevelBytes,
    level: Level,
    parts: &[Nested],
    above: Above,
    from: usize,
    to: usize,
) -> bool
    requires well { IsPath (parts_of parts.now) }
    requires some { from < to }
    requires within { to ≤ slot_count (parts_of parts.now) }
    requires low { IsLow above (length parts.now) }
    ensures { IsTrue result → told.new ≡ told.old ++ walked level (parts_of parts.now) above from (to - from) }
{
    match shape_of(level, parts) {
        Shape::Flat => tell_flat(told, level, parts, above, from, to),
        Shape::Lists(list) => tell_lists(told, list, above, from, to),
        Shape::LargeLists(list) => tell_lists(told, list, above, from, to),
        Shape::Items | Shape::Stretches => tell_stretches(told, level, parts, above, from, to),
    }
}

// The levels of some slots alone. They are better told in another way where the answer is no.
pub fn tell_block(
    upper: &mut Pieces,
    lower: &mut Pieces,
    level: Level,
    parts: &[Nested],
    above: Above,
    from: usize,
    to: usize,
) -> bool
    requires well { IsPath (parts_of parts.now) }
    requires some { from < to }
    requires within { to ≤ slot_count (parts_of parts.now) }
    requires low { IsLow above (length parts.now) }
    ensures { IsTrue result → upper.new.told ≡ walked level (parts_of parts.now) above from (to - from) }
{
    if !are_short(parts, from, to) {
        return false;
    }
    if above.rep == above.depth {
        if tell_pieces(upper, lower, level, parts, above, from, to) {
            return true;
        }
    }
    upper.told.clear();
    tell(&mut upper.told, level, parts, above, from, to)
}
