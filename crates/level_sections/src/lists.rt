//! Repetition levels of lists above a path without lists, in one loop over the offsets.
ghost use Rattle.std.specs.Prelude.{◌≡◌, ℕ, ◌+◌, ◌-◌, ◌^◌, ◌<◌, ◌≤◌, ◌==◌, ◌++◌, [], List, Bool, Option, cond, length, max, OnOk, IfOk, true};
ghost use Rattle.std.specs.Int.{bit_at};
ghost use Rattle.shredding.specs.Parts.{MaskFits, is_present};
ghost use Rattle.levels.specs.Sizes.{list_size};
ghost use Rattle.pq_runs.specs.Writing.{Extends, Keeps};
ghost use Rattle.level_sections.specs.Lists.{IsOpen, list_levels, pending, reps_from};
ghost use Rattle.level_sections.specs.Walk.{Goes};

use crate::walk::Above;
use columns_core::{Offset, OffsetsBuffer};
use levels::{ListNested, full_word, list_pairs, present_word};
use pq_runs::RunWriter;
use std::alloc::AllocError;

// Levels that wait for their writer, at most 64: a bit is 0 where a list starts, and 1 where it goes on. All bits behind them are 1.
#[derive(Clone, Copy, Drop)]
pub struct Starts {
    pub word: u64,
    pub count: usize,
}

const NONE: Starts = Starts {
    word: u64::MAX,
    count: 0,
};

// The number of level pairs of list `i`, which is there or not.
#[inline(always)]
fn pairs_at<O: Offset>(offsets: &OffsetsBuffer<O>, there: bool, i: usize) -> usize
    requires { i + 1 < length offsets.now }
    ensures some { 1 ≤ result }
    ensures size { (is_optional : Bool) (mask : Option (List Bool)) → there ≡ is_present is_optional mask i
        → result ≡ list_size is_optional mask offsets.now i }
{
    list_pairs(offsets, there, i).max(1)
}

// The number of level pairs of a list whose items lie from a place to another, and which is there or not.
#[inline(always)]
fn pairs_between(there: bool, first: usize, last: usize) -> usize
    requires ordered { first ≤ last }
    ensures some { 1 ≤ result }
    ensures size { result ≡ cond there (max (last - first) 1) 1 }
{
    if !there {
        return 1;
    }
    (last - first).max(1)
}

// The levels of a list that has room behind those that wait.
#[inline(always)]
fn with_list(starts: Starts, pairs: usize) -> Starts
    requires open { IsOpen starts }
    requires some { 1 ≤ pairs }
    requires room { starts.count + pairs ≤ 64 }
    ensures open { IsOpen result }
    ensures count { result.count ≡ starts.count + pairs }
    ensures levels { (depth : ℕ) → pending depth result ≡ pending depth starts ++ list_levels depth depth pairs }
{
    Starts {
        word: starts.word & !(1 << starts.count),
        count: starts.count + pairs,
    }
}

// Tells what waits, and takes a list that has no room behind it.
fn push_long(
    out: &mut Vec<u8>,
    writer: &mut RunWriter,
    starts: Starts,
    depth: u32,
    pairs: usize,
) -> Result<Starts, AllocError>
    requires open { IsOpen starts }
    requires some { 1 ≤ pairs }
    requires low { depth < 256 }
    requires holds { depth + 1 < 2 ^ writer.old.width }
    ensures width { writer.new.width ≡ writer.old.width }
    ensures open { IfOk result (λ after. IsOpen after) }
    ensures added { IfOk result (λ after. (start rest whole : List ℕ)
        → Goes start out.old.items writer.old (pending depth starts ++ (list_levels depth depth pairs ++ rest)) whole
        → Goes start out.new.items writer.new (pending depth after ++ rest) whole) }
    ensures kept { Extends out.old.items out.new.items }
{
    writer.push_bits(out, depth, starts.word, starts.count)?;
    if pairs <= 64 {
        return Ok(with_list(NONE, pairs));
    }
    writer.push(out, depth, 1)?;
    writer.push(out, depth + 1, pairs - 1)?;
    Ok(NONE)
}

// Takes some lists from one on that are all there, as long as they have items and room behind the levels that wait, and gives the first that is
// left. Where a list starts follows from its offset alone. Nothing is told, and no caller has the loop among its own, so that it stays in registers.
#[inline(never)]
fn take_full<O: Offset>(
    starts: Starts,
    offsets: &OffsetsBuffer<O>,
    place: usize,
    to: usize,
) -> (Starts, usize)
    requires open { IsOpen starts }
    requires ordered { place ≤ to }
    requires within { to ≤ length offsets.now - 1 }
    ensures open { IsOpen result.0 }
    ensures after { place ≤ result.1 }
    ensures before { result.1 ≤ to }
    ensures levels { (depth : ℕ) (is_optional : Bool) (mask : Option (List Bool))
        → ((i : ℕ) → place ≤ i → i < to → is_present is_optional mask i ≡ true)
        → pending depth starts ++ reps_from (list_size is_optional mask offsets.now) depth depth place (to - place)
        ≡ pending depth result.0 ++ reps_from (list_size is_optional mask offsets.now) depth depth result.1
        (to - result.1) }
{
    offsets.know();
    // the number of lists fits its type, so `i + 1` does
    let _lists = offsets.len_proxy();
    let first = offsets.place(place);
    let room = 64 - starts.count;
    let mut after = starts;
    let mut i = place;
    while i < to {
        let items = offsets.place(i + 1) - first;
        if items > room {
            break;
        }
        let end = starts.count + items;
        if end == after.count {
            break;
        }
        after = with_list(after, end - after.count);
        i += 1;
    }
    (after, i)
}

// Takes some of up to 64 lists from one on, as long as they have room behind the levels that wait, and gives the first that is left.
#[inline(never)]
fn take_lists<O: Offset>(
    starts: Starts,
    offsets: &OffsetsBuffer<O>,
    word: u64,
    place: usize,
    from: usize,
    count: usize,
) -> (Starts, usize)
    requires open { IsOpen starts }
    requires few { count ≤ 64 }
    requires ordered { from ≤ count }
    requires within { place + count ≤ length offsets.now - 1 }
    ensures open { IsOpen result.0 }
    ensures after { from ≤ result.1 }
    ensures before { result.1 ≤ count }
    ensures levels { (depth : ℕ) (is_optional : Bool) (mask : Option (List Bool))
        → ((i : ℕ) → i < count → (bit_at word i == 1) ≡ is_present is_optional mask (place + i))
        → pending depth starts ++ reps_from (list_size is_optional mask offsets.now) depth depth (place + from)
        (count - from) ≡ pending depth result.0 ++ reps_from (list_size is_optional mask offsets.now) depth depth
        (place + result.1) (count - result.1) }
{
    offsets.know();
    // the number of lists fits its type, so `place + i` does
    let _lists = offsets.len_proxy();
    let mut after = starts;
    let mut at = offsets.place(place + from);
    let mut i = from;
    while i < count {
        let there = (word >> i) & 1 == 1;
        let next = offsets.place(place + i + 1);
        let pairs = pairs_between(there, at, next);
        if pairs > 64 - after.count {
            break;
        }
        after = with_list(after, pairs);
        at = next;
        i += 1;
    }
    (after, i)
}

// Takes as many of up to 64 lists as have room, from one on, and gives the first that is left.
#[inline(always)]
fn take_some<O: Offset>(
    starts: Starts,
    offsets: &OffsetsBuffer<O>,
    word: u64,
    place: usize,
    from: usize,
    count: usize,
) -> (Starts, usize)
    requires open { IsOpen starts }
    requires few { count ≤ 64 }
    requires some { from < count }
    requires within { place + count ≤ length offsets.now - 1 }
    ensures open { IsOpen result.0 }
    ensures after { from ≤ result.1 }
    ensures before { result.1 ≤ count }
    ensures levels { (depth : ℕ) (is_optional : Bool) (mask : Option (List Bool))
        → ((i : ℕ) → i < count → (bit_at word i == 1) ≡ is_present is_optional mask (place + i))
        → pending depth starts ++ reps_from (list_size is_optional mask offsets.now) depth depth (place + from)
        (count - from) ≡ pending depth result.0 ++ reps_from (list_size is_optional mask offsets.now) depth depth
        (place + result.1) (count - result.1) }
{
    // the number of lists fits its type, so `place + from` does
    let _lists = offsets.len_proxy();
    if word != full_word(count) {
        return take_lists(starts, offsets, word, place, from, count);
    }
    let (full, end) = take_full(starts, offsets, place + from, place + count);
    if end == place + count {
        return (full, count);
    }
    if full.count == 64 {
        return (full, end - place);
    }
    take_lists(full, offsets, word, place, end - place, count)
}

// Takes as many lists as have room, and one more, for which what waits is told.
fn push_word<O: Offset>(
    out: &mut Vec<u8>,
    writer: &mut RunWriter,
    starts: Starts,
    depth: u32,
    offsets: &OffsetsBuffer<O>,
    word: u64,
    place: usize,
    from: usize,
    count: usize,
) -> Result<(Starts, usize), AllocError>
    requires open { IsOpen starts }
    requires few { count ≤ 64 }
    requires some { from < count }
    requires within { place + count ≤ length offsets.now - 1 }
    requires low { depth < 256 }
    requires holds { depth + 1 < 2 ^ writer.old.width }
    ensures width { writer.new.width ≡ writer.old.width }
    ensures open { IfOk result (λ after. IsOpen after.0) }
    ensures after { IfOk result (λ after. from < after.1) }
    ensures before { IfOk result (λ after. after.1 ≤ count) }
    ensures added { IfOk result (λ after. (is_optional : Bool) (mask : Option (List Bool))
        → ((i : ℕ) → i < count → (bit_at word i == 1) ≡ is_present is_optional mask (place + i))
        → (start rest whole : List ℕ) → Goes start out.old.items writer.old
        (pending depth starts
        ++
        (reps_from (list_size is_optional mask offsets.now) depth depth (place + from) (count - from) ++ rest)) whole
        → Goes start out.new.items writer.new (pending depth after.0
        ++ (reps_from (list_size is_optional mask offsets.now) depth depth (place + after.1) (count - after.1)
        ++ rest)) whole) }
    ensures kept { Extends out.old.items out.new.items }
{
    // the number of lists fits its type, so `place + next` does
    let _lists = offsets.len_proxy();
    let (after, next) = take_some(starts, offsets, word, place, from, count);
    if next == count {
        return Ok((after, next));
    }
    let there = (word >> next) & 1 == 1;
    let pairs = pairs_at(offsets, there, place + next);
    let after = push_long(out, writer, after, depth, pairs)?;
    Ok((after, next + 1))
}

// The levels of up to 64 lists beneath so many lists, behind others that wait. A word tells which are there.
fn push_some<O: Offset>(
    out: &mut Vec<u8>,
    writer: &mut RunWriter,
    starts: Starts,
    depth: u32,
    offsets: &OffsetsBuffer<O>,
    word: u64,
    place: usize,
    count: usize,
) -> Result<Starts, AllocError>
    requires open { IsOpen starts }
    requires few { count ≤ 64 }
    requires within { place + count ≤ length offsets.now - 1 }
    requires low { depth < 256 }
    requires holds { depth + 1 < 2 ^ writer.old.width }
    ensures width { writer.new.width ≡ writer.old.width }
    ensures open { IfOk result (λ after. IsOpen after) }
    ensures added { IfOk result (λ after. (is_optional : Bool) (mask : Option (List Bool))
        → ((i : ℕ) → i < count → (bit_at word i == 1) ≡ is_present is_optional mask (place + i))
        → (start rest whole : List ℕ) → Goes start out.old.items writer.old
        (pending depth starts
        ++ (reps_from (list_size is_optional mask offsets.now) depth depth place count ++ rest)) whole
        → Goes start out.new.items writer.new (pending depth after ++ rest) whole) }
    ensures kept { Extends out.old.items out.new.items }
{
    let mut after = starts;
    let mut i = 0;
    while i < count {
        let (next, taken) = push_word(out, writer, after, depth, offsets, word, place, i, count)?;
        after = next;
        i = taken;
    }
    Ok(after)
}

// The levels of lists from one place to another, beneath so many lists.
pub fn push_lists<O: Offset>(
    out: &mut Vec<u8>,
    writer: &mut RunWriter,
    list: &ListNested<O>,
    depth: u32,
    from: usize,
    to: usize,
) -> Result<(), AllocError>
    requires fits { MaskFits list.now.validity (length list.now.offsets - 1) }
    requires ordered { from ≤ to }
    requires within { to ≤ length list.now.offsets - 1 }
    requires low { depth < 256 }
    requires holds { depth + 1 < 2 ^ writer.old.width }
    ensures width { writer.new.width ≡ writer.old.width }
    ensures added { OnOk result ((start xs : List ℕ) → Keeps start out.old.items writer.old xs
        → Keeps start out.new.items writer.new (xs ++ reps_from
        (list_size list.now.is_optional list.now.validity list.now.offsets) depth depth from (to - from))) }
    ensures kept { Extends out.old.items out.new.items }
{
    let lists = list.offsets.len_proxy();
    let mut starts = NONE;
    let mut place = from;
    while place < to {
        let count = (to - place).min(64);
        let word = present_word(list.is_optional, &list.validity, lists, place, count);
        starts = push_some(
            out,
            writer,
            starts,
            depth,
            &list.offsets,
            word,
            place,
            count,
        )?;
        place += count;
    }
    writer.push_bits(out, depth, starts.word, starts.count)
}

// The levels of some lists, the first of which begins with the level above it.
fn push_lists_from<O: Offset>(
    out: &mut Vec<u8>,
    writer: &mut RunWriter,
    list: &ListNested<O>,
    above: Above,
    from: usize,
    to: usize,
) -> Result<(), AllocError>
    requires fits { MaskFits list.now.validity (length list.now.offsets - 1) }
    requires some { from < to }
    requires within { to ≤ length list.now.offsets - 1 }
    requires first { above.rep ≤ above.depth }
    requires low { above.depth < 256 }
    requires holds { above.depth + 1 < 2 ^ writer.old.width }
    ensures width { writer.new.width ≡ writer.old.width }
    ensures added { OnOk result ((start xs : List ℕ) → Keeps start out.old.items writer.old xs
        → Keeps start out.new.items writer.new (xs ++ reps_from
        (list_size list.now.is_optional list.now.validity list.now.offsets) above.rep above.depth from (to - from))) }
    ensures kept { Extends out.old.items out.new.items }
{
    let lists = list.offsets.len_proxy();
    let word = present_word(list.is_optional, &list.validity, lists, from, 1);
    let pairs = pairs_at(&list.offsets, word % 2 == 1, from);
    writer.push(out, above.rep, 1)?;
    writer.push(out, above.depth + 1, pairs - 1)?;
    push_lists(out, writer, list, above.depth, from + 1, to)
}

// The levels of lists from one place to another, beneath what lies above.
pub fn walk_lists<O: Offset>(
    out: &mut Vec<u8>,
    writer: &mut RunWriter,
    list: &ListNested<O>,
    above: Above,
    from: usize,
    to: usize,
) -> Result<(), AllocError>
    requires fits { MaskFits list.now.validity (length list.now.offsets - 1) }
    requires ordered { from ≤ to }
    requires within { to ≤ length list.now.offsets - 1 }
    requires first { above.rep ≤ above.depth }
    requires low { above.depth < 256 }
    requires holds { above.depth + 1 < 2 ^ writer.old.width }
    ensures width { writer.new.width ≡ writer.old.width }
    ensures added { OnOk result ((start xs : List ℕ) → Keeps start out.old.items writer.old xs
        → Keeps start out.new.items writer.new (xs ++ reps_from
        (list_size list.now.is_optional list.now.validity list.now.offsets) above.rep above.depth from (to - from))) }
    ensures kept { Extends out.old.items out.new.items }
{
    if from == to {
        return Ok(());
    }
    if above.rep == above.depth {
        return push_lists(out, writer, list, above.depth, from, to);
    }
    push_lists_from(out, writer, list, above, from, to)
}
