//! Definition levels of lists above a path without lists, up to 64 at once.
ghost use Rattle.std.specs.Prelude.{◌≡◌, ℕ, ◌+◌, ◌-◌, ◌^◌, ◌<◌, ◌≤◌, ◌==◌, ◌++◌, List, Bool, Option, All, cond, length, max, OnOk, IfOk, IfSome};
ghost use Rattle.std.specs.Int.{bit_at};
ghost use Rattle.columns_core.specs.Rising.{IsRising};
ghost use Rattle.shredding.specs.Parts.{IsPath, MaskFits, Part, is_present, item_count, item_span, item_start, path_way, slot_count};
ghost use Rattle.levels.specs.Levels.{bit};
ghost use Rattle.levels.specs.Nested.{parts_of};
ghost use Rattle.pq_runs.specs.Writing.{Extends, Keeps};
ghost use Rattle.level_sections.specs.Blocks.{flat_level, Reaches};
ghost use Rattle.level_sections.specs.Definitions.{IsFollowed, IsWindow, levels_or, list_definitions, listed_from, pending_levels};
ghost use Rattle.level_sections.specs.Walk.{AreItems, IsOfItems, Goes, IsLow, walked};
ghost use Rattle.shredding.specs.Shred.{max_definition};

use crate::block::{Front, are_required, front_at, push_flat, step_of};
use crate::planes::{BitPlanes, Pending, item_planes, push_planes, with_number, with_others};
use crate::walk::Above;
use columns_core::{Offset, OffsetsBuffer};
use levels::{Level, ListNested, Nested, present_word};
use pq_runs::RunWriter;
use std::alloc::AllocError;

// What is known of up to 64 slots beneath lists: what they add to the level of a null list.
#[derive(Clone, Copy, Drop)]
pub struct Window {
    pub planes: BitPlanes,
    pub first: usize,
    pub end: usize,
}

const NONE: Pending = Pending {
    planes: BitPlanes {
        ones: 0,
        twos: 0,
        fours: 0,
    },
    count: 0,
};

// The place of the first item of list `i`, or behind all items, counted from the first offset.
#[inline(always)]
#[tactic(auto, using(levels::proofs::Rising::rising))]
pub fn item_place<O: Offset>(offsets: &OffsetsBuffer<O>, i: usize) -> usize
    requires { i < length offsets.now }
    ensures start { result ≡ item_start offsets.now i }
    ensures within { result ≤ item_span offsets.now }
    ensures rises { IsRising offsets.now }
{
    offsets.know();
    let _lists = offsets.len_proxy();
    offsets.place(i) - offsets.place(0)
}

// Where the items of list `i` begin and end; it has none where it is not there.
#[inline(always)]
#[tactic(auto, using(levels::proofs::Rising::rising))]
fn items_of<O: Offset>(offsets: &OffsetsBuffer<O>, there: bool, i: usize) -> (usize, usize)
    requires { i + 1 < length offsets.now }
    ensures first { result.0 ≡ item_start offsets.now i }
    ensures ordered { result.0 ≤ result.1 }
    ensures count { result.1 - result.0 ≡ cond there (item_count offsets.now i) 0 }
    ensures within { result.1 ≤ item_span offsets.now }
{
    offsets.know();
    // the number of lists fits its type, so `i + 1` does
    let _lists = offsets.len_proxy();
    let first = item_place(offsets, i);
    if !there {
        return (first, first);
    }
    (first, item_place(offsets, i + 1))
}

// Where the items of list `i` end, which begin at a place.
#[inline(always)]
#[tactic(auto, using(levels::proofs::Rising::rising))]
fn item_end<O: Offset>(offsets: &OffsetsBuffer<O>, i: usize, at: usize) -> usize
    requires within { i + 1 < length offsets.now }
    requires start { at ≡ item_start offsets.now i }
    ensures end { result ≡ item_start offsets.now (i + 1) }
    ensures ordered { at ≤ result }
    ensures count { result - at ≡ item_count offsets.now i }
{
    offsets.know();
    // the number of lists fits its type, so `i + 1` does
    let _lists = offsets.len_proxy();
    item_place(offsets, i + 1)
}

// Up to where items that begin at a place are known and have room behind so many levels that wait.
#[inline(always)]
fn edge_of(end: usize, at: usize, count: usize) -> usize
    requires ordered { at ≤ end }
    requires room { count ≤ 64 }
    ensures known { result ≤ end }
    ensures room { result + count ≤ at + 64 }
{
    at + (end - at).min(64 - count)
}

// What a list without items adds to the level of a null one: one where it is optional and there.
#[inline(always)]
fn step_at(is_optional: bool, there: bool) -> u64
    ensures value { result ≡ cond there (bit is_optional) 0 }
    ensures most { result ≤ 1 }
{
    if !there {
        return 0;
    }
    u64::from(step_of(is_optional))
}

// What up to 64 slots beneath a list add to a level.
fn window_at(is_optional: bool, rest: &[Nested], first: usize, to: usize) -> Window
    requires reaches { Reaches to (parts_of rest.now) }
    requires parts { length rest.now ≤ 5 }
    requires ordered { first ≤ to }
    ensures ordered { result.first ≤ result.end }
    ensures within { result.end ≤ to }
    ensures all { to ≤ first + 64 → result.end ≡ to }
    ensures first { result.first ≡ first }
    ensures levels { (def : ℕ) → IsWindow def (flat_level (parts_of rest.now) (def + bit is_optional + 1)) result }
{
    let count = (to - first).min(64);
    if count == 0 {
        return Window {
            planes: NONE.planes,
            first,
            end: first,
        };
    }
    Window {
        planes: item_planes(is_optional, rest, first, count),
        first,
        end: first + count,
    }
}

// Takes the levels of a list that has room behind those that wait: those of its items, which stand there already, or so much more than a null
// list's where it has none.
#[inline(always)]
fn with_list(pending: Pending, window: Window, empty: u64, first: usize, items: usize) -> Pending
    requires room { pending.count + max items 1 ≤ 64 }
    requires some { empty ≤ 1 }
    requires followed { IsFollowed pending window first }
    requires after { window.first ≤ first }
    requires before { first + items ≤ window.end }
    ensures count { result.count ≡ pending.count + max items 1 }
    ensures few { result.count ≤ 64 }
    ensures followed { IsFollowed result window (first + items) }
    ensures levels { (def : ℕ) → (level : ℕ → ℕ) → IsWindow def level window
        → pending_levels def result ≡ pending_levels def pending ++ levels_or (def + empty) level first items }
{
    if items == 0 {
        return with_number(pending, empty);
    }
    Pending {
        planes: pending.planes,
        count: pending.count + items,
    }
}

// Takes the levels of a list whose items lie from a place to another behind those that wait, and gives up to where others have room then. None where
// it has no room, its items are not known or there are some and it is not there.
#[inline(always)]
fn with_next(
    pending: Pending,
    window: Window,
    is_optional: bool,
    there: bool,
    at: usize,
    next: usize,
    edge: usize,
) -> Option<(Pending, usize)>
    requires few { pending.count ≤ 64 }
    requires followed { IsFollowed pending window at }
    requires after { window.first ≤ at }
    requires ordered { at ≤ next }
    requires known { at ≤ window.end }
    requires edge { edge ≤ window.end }
    requires room { edge + pending.count ≤ at + 64 }
    ensures few { IfSome result (λ r. r.0.count ≤ 64) }
    ensures known { IfSome result (λ r. next ≤ window.end) }
    ensures edge { IfSome result (λ r. r.1 ≤ window.end) }
    ensures room { IfSome result (λ r. r.1 + r.0.count ≤ next + 64) }
    ensures there { IfSome result (λ r. next - at ≡ cond there (next - at) 0) }
    ensures followed { IfSome result (λ r. IsFollowed r.0 window next) }
    ensures levels { IfSome result (λ r. (def : ℕ) → (level : ℕ → ℕ) → IsWindow def level window
        → pending_levels def r.0 ≡ pending_levels def pending
        ++ levels_or (def + cond there (bit is_optional) 0) level at (next - at)) }
{
    let empty = step_at(is_optional, there);
    if next == at {
        if pending.count == 64 {
            return None;
        }
        let after = with_list(pending, window, empty, at, 0);
        return Some((after, edge_of(window.end, at, after.count)));
    }
    if !there {
        return None;
    }
    if next > edge {
        return None;
    }
    Some((with_list(pending, window, empty, at, next - at), edge))
}

// Takes some of up to 64 lists, as long as they have room behind the levels that wait and their items are known and lie side by side, and gives
// how many. A word tells which are there.
#[inline(never)]
fn take_lists<O: Offset>(
    pending: Pending,
    window: Window,
    list: &ListNested<O>,
    word: u64,
    place: usize,
    count: usize,
) -> (Pending, usize)
    requires room { pending.count ≤ 64 }
    requires ordered { window.first ≤ window.end }
    requires lists { count ≤ 64 }
    requires within { place + count ≤ length list.now.offsets - 1 }
    requires bits { (i : ℕ) → i < count → (bit_at word i == 1) ≡ is_present list.now.is_optional list.now.validity
        (place + i) }
    ensures few { result.0.count ≤ 64 }
    ensures before { result.1 ≤ count }
    ensures levels { (rest : List Part) → (def : ℕ) → IsWindow def
        (flat_level rest (def + bit list.now.is_optional + 1)) window
        → pending_levels def result.0 ≡ pending_levels def pending
        ++ listed_from
        (list_definitions list.now.is_optional list.now.validity list.now.offsets rest def) place result.1 }
{
    // the number of lists fits its type, so `place + i` does
    let _lists = list.offsets.len_proxy();
    let mut after = with_others(pending, window.planes);
    let mut at = item_place(&list.offsets, place);
    if at != window.first {
        return (after, 0);
    }
    let mut edge = edge_of(window.end, at, after.count);
    let mut i = 0;
    while i < count {
        let there = (word >> i) & 1 == 1;
        let next = item_end(&list.offsets, place + i, at);
        match with_next(after, window, list.is_optional, there, at, next, edge) {
            None => break,
            Some((more, end)) => {
                after = more;
                edge = end;
            }
        }
        at = next;
        i += 1;
    }
    (after, i)
}

// Tells what waits, and takes a list behind it.
fn push_list<O: Offset>(
    out: &mut Vec<u8>,
    writer: &mut RunWriter,
    pending: Pending,
    list: &ListNested<O>,
    rest: &[Nested],
    def: u32,
    there: bool,
    i: usize,
) -> Result<Pending, AllocError>
    requires room { pending.count ≤ 64 }
    requires reaches { Reaches (item_span list.now.offsets) (parts_of rest.now) }
    requires parts { length rest.now ≤ 5 }
    requires low { def + length rest.now + 2 ≤ 256 }
    requires within { i + 1 < length list.now.offsets }
    requires there { there ≡ is_present list.now.is_optional list.now.validity i }
    requires waits { All (λ v. v < 2 ^ writer.old.width) (pending_levels def pending) }
    requires holds { (j : ℕ) → flat_level (parts_of rest.now) (def + bit list.now.is_optional + 1) j
        < 2 ^ writer.old.width }
    ensures width { writer.new.width ≡ writer.old.width }
    ensures few { IfOk result (λ after. after.count ≤ 64) }
    ensures waits { IfOk result (λ after. All (λ v. v < 2 ^ writer.old.width) (pending_levels def after)) }
    ensures added { IfOk result (λ after. (start left whole : List ℕ)
        → Goes start out.old.items writer.old
        (pending_levels def pending
        ++
        (list_definitions list.now.is_optional list.now.validity list.now.offsets (parts_of rest.now) def i
        ++ left)) whole → Goes start out.new.items writer.new (pending_levels def after ++ left) whole) }
    ensures kept { Extends out.old.items out.new.items }
{
    push_planes(out, writer, def, pending.planes, pending.count)?;
    let (first, last) = items_of(&list.offsets, there, i);
    let items = last - first;
    if items > 64 {
        let above = def + step_of(list.is_optional) + 1;
        push_flat(out, writer, rest, above, first, last)?;
        return Ok(NONE);
    }
    let window = window_at(list.is_optional, rest, first, last);
    let empty = step_at(list.is_optional, there);
    let pending = with_others(NONE, window.planes);
    Ok(with_list(pending, window, empty, first, items))
}

// Takes as many lists as have room behind the levels that wait, and one more, for which they are told. Gives the place behind them.
fn push_some<O: Offset>(
    out: &mut Vec<u8>,
    writer: &mut RunWriter,
    pending: Pending,
    list: &ListNested<O>,
    rest: &[Nested],
    def: u32,
    place: usize,
    to: usize,
) -> Result<(Pending, usize), AllocError>
    requires room { pending.count ≤ 64 }
    requires fits { MaskFits list.now.validity (length list.now.offsets - 1) }
    requires reaches { Reaches (item_span list.now.offsets) (parts_of rest.now) }
    requires parts { length rest.now ≤ 5 }
    requires low { def + length rest.now + 2 ≤ 256 }
    requires some { place < to }
    requires within { to ≤ length list.now.offsets - 1 }
    requires waits { All (λ v. v < 2 ^ writer.old.width) (pending_levels def pending) }
    requires holds { (j : ℕ) → flat_level (parts_of rest.now) (def + bit list.now.is_optional + 1) j
        < 2 ^ writer.old.width }
    ensures width { writer.new.width ≡ writer.old.width }
    ensures few { IfOk result (λ after. after.0.count ≤ 64) }
    ensures after { IfOk result (λ after. place < after.1) }
    ensures before { IfOk result (λ after. after.1 ≤ to) }
    ensures waits { IfOk result (λ after. All (λ v. v < 2 ^ writer.old.width) (pending_levels def after.0)) }
    ensures added { IfOk result (λ after. (start whole : List ℕ) → Goes start out.old.items writer.old
        (pending_levels def pending
        ++ listed_from
        (list_definitions list.now.is_optional list.now.validity list.now.offsets (parts_of rest.now) def) place
        (to - place)) whole → Goes start out.new.items writer.new
        (pending_levels def after.0 ++ listed_from
        (list_definitions list.now.is_optional list.now.validity list.now.offsets (parts_of rest.now) def) after.1
        (to - after.1)) whole) }
    ensures kept { Extends out.old.items out.new.items }
{
    let lists = list.offsets.len_proxy();
    let count = (to - place).min(64);
    let word = present_word(list.is_optional, &list.validity, lists, place, count);
    let first = item_place(&list.offsets, place);
    let end = item_place(&list.offsets, place + count);
    let window = window_at(list.is_optional, rest, first, end);
    let (after, taken) = take_lists(pending, window, list, word, place, count);
    if taken == count {
        return Ok((after, place + taken));
    }
    let there = (word >> taken) & 1 == 1;
    let after = push_list(out, writer, after, list, rest, def, there, place + taken)?;
    Ok((after, place + taken + 1))
}

// The definition levels of lists from one place to another.
pub fn push_items<O: Offset>(
    out: &mut Vec<u8>,
    writer: &mut RunWriter,
    list: &ListNested<O>,
    rest: &[Nested],
    def: u32,
    from: usize,
    to: usize,
) -> Result<(), AllocError>
    requires fits { MaskFits list.now.validity (length list.now.offsets - 1) }
    requires reaches { Reaches (item_span list.now.offsets) (parts_of rest.now) }
    requires parts { length rest.now ≤ 5 }
    requires low { def + length rest.now + 2 ≤ 256 }
    requires ordered { from ≤ to }
    requires within { to ≤ length list.now.offsets - 1 }
    requires holds { (j : ℕ) → flat_level (parts_of rest.now) (def + bit list.now.is_optional + 1) j
        < 2 ^ writer.old.width }
    ensures width { writer.new.width ≡ writer.old.width }
    ensures added { OnOk result ((start xs : List ℕ) → Keeps start out.old.items writer.old xs
        → Keeps start out.new.items writer.new (xs ++ listed_from
        (list_definitions list.now.is_optional list.now.validity list.now.offsets (parts_of rest.now) def) from
        (to - from))) }
    ensures kept { Extends out.old.items out.new.items }
{
    let mut pending = NONE;
    let mut place = from;
    while place < to {
        let (after, next) = push_some(out, writer, pending, list, rest, def, place, to)?;
        pending = after;
        place = next;
    }
    push_planes(out, writer, def, pending.planes, pending.count)
}

// How many of some lists have no items. No list ends the loop, so that several are looked at by one instruction.
fn count_empty<O: Offset>(offsets: &OffsetsBuffer<O>, place: usize, end: usize) -> usize
    requires ordered { place ≤ end }
    requires within { end < length offsets.now }
    ensures { result ≤ end - place }
{
    offsets.know();
    let mut empty = 0;
    for i in place..end {
        empty += usize::from(offsets.place(i) == offsets.place(i + 1));
    }
    empty
}

// Whether some of the next slots of a path are null.
fn has_nulls(parts: &[Nested], from: usize, to: usize) -> bool
    requires reaches { Reaches to (parts_of parts.now) }
    requires parts { length parts.now ≤ 5 }
    requires ordered { from ≤ to }
{
    let count = (to - from).min(64);
    if count == 0 {
        return false;
    }
    match front_at(parts, 0, from, count) {
        Front::Even(_) => false,
        Front::Mixed(..) => true,
    }
}

// Where lists end that are best taken one by one, from a place on: of the next ones neither few nor nearly all have no items, and the others have
// few, of which some are null or none can be. Else there are none.
fn lists_end<O: Offset>(list: &ListNested<O>, rest: &[Nested], place: usize, to: usize) -> usize
    requires reaches { Reaches (item_span list.now.offsets) (parts_of rest.now) }
    requires parts { length rest.now ≤ 5 }
    requires some { place < to }
    requires within { to ≤ length list.now.offsets - 1 }
    ensures after { place ≤ result }
    ensures before { result ≤ to }
{
    let _lists = list.offsets.len_proxy();
    let count = (to - place).min(64);
    let empty = count_empty(&list.offsets, place, place + count);
    if 10 * empty < count {
        return place;
    }
    if 8 * empty > 7 * count {
        return place;
    }
    let first = item_place(&list.offsets, place);
    let last = item_place(&list.offsets, place + count);
    if first > last {
        return place;
    }
    if last - first > 8 * count {
        return place;
    }
    let end = place + (to - place).min(1024);
    if are_required(rest) {
        return end;
    }
    if has_nulls(rest, first, last) {
        return end;
    }
    place
}

// Where lists above a path without lists end that are best taken one by one, from a place on.
pub fn mixed_end(parts: &[Nested], place: usize, to: usize) -> usize
    requires well { IsPath (parts_of parts.now) }
    requires items { IsOfItems (parts_of parts.now) }
    requires some { place < to }
    requires within { to ≤ slot_count (parts_of parts.now) }
    ensures after { place ≤ result }
    ensures before { result ≤ to }
{
    let Some((part, rest)) = parts.split_first() else {
        return place;
    };
    match part {
        Nested::List(list) => lists_end(list, rest, place, to),
        Nested::LargeList(list) => lists_end(list, rest, place, to),
        Nested::Primitive(..) => place,
        Nested::Struct(..) => place,
    }
}

// The definition levels of lists above a path without lists.
pub fn walk_items(
    out: &mut Vec<u8>,
    writer: &mut RunWriter,
    level: Level,
    parts: &[Nested],
    above: Above,
    from: usize,
    to: usize,
) -> Result<(), AllocError>
    requires well { IsPath (parts_of parts.now) }
    requires items { AreItems level (parts_of parts.now) }
    requires ordered { from ≤ to }
    requires within { to ≤ slot_count (parts_of parts.now) }
    requires low { IsLow above (length parts.now) }
    requires holds { above.def + max_definition (path_way (parts_of parts.now)) < 2 ^ writer.old.width }
    ensures width { writer.new.width ≡ writer.old.width }
    ensures added { OnOk result ((start xs : List ℕ) → Keeps start out.old.items writer.old xs
        → Keeps start out.new.items writer.new (xs ++ walked level (parts_of parts.now) above from (to - from))) }
    ensures kept { Extends out.old.items out.new.items }
{
    let Some((part, rest)) = parts.split_first() else {
        unreachable!()
    };
    match part {
        Nested::List(list) => push_items(out, writer, list, rest, above.def, from, to),
        Nested::LargeList(list) => push_items(out, writer, list, rest, above.def, from, to),
        Nested::Primitive(..) => unreachable!(),
        Nested::Struct(..) => unreachable!(),
    }
}
