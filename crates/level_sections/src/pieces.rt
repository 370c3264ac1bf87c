//! Levels of lists above lists, part by part from the leaf up.
ghost use Rattle.std.specs.Prelude.{◌≡◌, ◌≢◌, ℕ, ◌+◌, ◌-◌, ◌<◌, ◌≤◌, ◌++◌, ◌∷◌, ◌==◌, IsTrue, true, List, drop, length, slice_index, take};
ghost use Rattle.std.specs.Int.{bit_at};
ghost use Rattle.columns_core.specs.Rising.{IsRising};
ghost use Rattle.shredding.specs.Parts.{IsPath, MaskFits, is_present, item_span, item_start, list_part, path_way, slot_count, struct_part};
ghost use Rattle.shredding.specs.Shred.{max_repetition};
ghost use Rattle.levels.specs.Nested.{parts_of};
ghost use Rattle.levels.specs.Stretch.{level_of};
ghost use Rattle.level_sections.specs.Pieces.{AreTold, above_fields, above_items, with_first};
ghost use Rattle.level_sections.specs.Walk.{IsLow, walked};

use crate::block::step_of;
use crate::items::item_place;
use crate::level_bytes::LevelBytes;
use crate::raising::{full_lists, item_edges, push_full, push_present, set_run};
use crate::tell::tell_flat;
use crate::walk::Above;
use columns_core::{Bitmap, Offset};
use levels::{Level, ListNested, Nested, has_lists, present_word};

// Levels of up to 2,048 slots side by side, and where those of each slot begin.
#[derive(Drop)]
pub struct Pieces {
    pub told: LevelBytes,
    pub starts: [u16; 2112],
}

impl Pieces {
    pub fn new() -> Self {
        Pieces {
            told: LevelBytes::new(),
            starts: [0; 2112],
        }
    }
}

// The level of a slot that is one pair.
#[inline(always)]
fn level_at(level: Level, def: u32, depth: u32) -> u32
    requires def { def < 256 }
    requires depth { depth < 256 }
    ensures value { result ≡ level_of level (depth, def) }
    ensures low { result < 256 }
{
    match level {
        Level::Definition => def,
        Level::Repetition => depth,
    }
}

// The next slot begins behind the levels that are told.
#[inline(always)]
fn mark(pieces: &mut Pieces, i: usize)
    requires few { i ≤ 2048 }
    ensures told { pieces.new.told ≡ pieces.old.told }
    ensures here { slice_index pieces.new.starts i ≡ length pieces.old.told }
    ensures others { (j : ℕ) → j < i → slice_index pieces.new.starts j ≡ slice_index pieces.old.starts j }
{
    pieces.starts[i] = pieces.told.len() as u16;
}

// So many places, one after another.
fn count_up(starts: &mut [u16], count: usize)
    requires few { count ≤ 2049 }
    requires room { count ≤ length starts.old }
    ensures len { length starts.new ≡ length starts.old }
    ensures each { (i : ℕ) → i < count → slice_index starts.new i ≡ i }
{
    for i in 0..count {
        starts[i] = i as u16;
    }
}

// The levels of the slots of a path without lists.
fn tell_flats(
    upper: &mut Pieces,
    level: Level,
    parts: &[Nested],
    above: Above,
    from: usize,
    to: usize,
) -> bool
    requires well { IsPath (parts_of parts.now) }
    requires flat { max_repetition (path_way (parts_of parts.now)) ≡ 0 }
    requires ordered { from ≤ to }
    requires within { to ≤ slot_count (parts_of parts.now) }
    requires low { IsLow above (length parts.now) }
    ensures { IsTrue result → AreTold (λ n. walked level (parts_of parts.now) above from n) (to - from) upper.new }
{
    upper.told.clear();
    mark(upper, 0);
    if from == to {
        return true;
    }
    if to - from > 2048 {
        return false;
    }
    count_up(&mut upper.starts, to - from + 1);
    tell_flat(&mut upper.told, level, parts, above, from, to)
}

// The first of the last levels, where it is a repetition level.
#[inline(always)]
pub fn set_first(told: &mut LevelBytes, level: Level, at: usize, depth: u32)
    requires within { at < length told.old }
    requires low { depth < 256 }
    ensures { (front piece : List ℕ) → told.old ≡ front ++ piece → length front ≡ at → 0 < length piece
        → told.new ≡ front ++ with_first level depth piece }
{
    match level {
        Level::Definition => (),
        Level::Repetition => told.set(at, depth),
    }
}

// The levels of some slots beneath one, the first with its repetition level.
#[inline(always)]
fn push_beneath(
    told: &mut LevelBytes,
    lower: &Pieces,
    level: Level,
    depth: u32,
    first: usize,
    last: usize,
) -> bool
    requires ordered { first ≤ last }
    requires places { last ≤ 2048 }
    requires rising { slice_index lower.now.starts first < slice_index lower.now.starts last }
    requires within { slice_index lower.now.starts last ≤ length lower.now.told }
    requires low { depth < 256 }
    ensures { IsTrue result → told.new ≡ told.old ++ with_first level depth
        (take (slice_index lower.now.starts last - slice_index lower.now.starts first)
        (drop (slice_index lower.now.starts first) lower.now.told)) }
{
    let from = lower.starts[first] as usize;
    let to = lower.starts[last] as usize;
    let at = told.len();
    if !told.push_part(&lower.told, from, to) {
        return false;
    }
    set_first(told, level, at, depth);
    true
}

// Where the items of some lists begin and end.
#[inline(always)]
#[tactic(auto, using(levels::proofs::Rising::rising))]
fn items_between<O: Offset>(list: &ListNested<O>, from: usize, to: usize) -> (usize, usize)
    requires ordered { from ≤ to }
    requires within { to ≤ length list.now.offsets - 1 }
    ensures first { result.0 ≡ item_start list.now.offsets from }
    ensures last { result.1 ≡ item_start list.now.offsets to }
    ensures ordered { result.0 ≤ result.1 }
    ensures within { result.1 ≤ item_span list.now.offsets }
{
    // a list of offsets is not empty
    let _lists = list.offsets.len_proxy();
    (
        item_place(&list.offsets, from),
        item_place(&list.offsets, to),
    )
}

// The levels of a list, by those of the items of some lists from one on, of which its own stand from one to another. What is beneath the list is named
// for the contract alone.
#[inline(always)]
fn push_list<O: Offset>(
    told: &mut LevelBytes,
    lower: &Pieces,
    level: Level,
    list: &ListNested<O>,
    rest: &[Nested],
    above: Above,
    there: bool,
    from: usize,
    place: usize,
    start: usize,
    stop: usize,
    last: usize,
) -> bool
    requires after { from ≤ place }
    requires within { place < length list.now.offsets - 1 }
    requires rises { IsRising list.now.offsets }
    requires there { there ≡ is_present list.now.is_optional list.now.validity place }
    requires start { start ≡ item_start list.now.offsets place - item_start list.now.offsets from }
    requires stop { stop ≡ item_start list.now.offsets (place + 1) - item_start list.now.offsets from }
    requires before { item_start list.now.offsets (place + 1) ≤ last }
    requires same { above.rep ≡ above.depth }
    requires def { above.def < 255 }
    requires depth { above.depth < 256 }
    requires beneath { AreTold (λ n. walked level (parts_of rest.now) (above_items above list.now.is_optional)
        (item_start list.now.offsets from) n) (last - item_start list.now.offsets from) lower.now }
    ensures { IsTrue result → told.new ≡ told.old ++ walked level
        (list_part list.now.is_optional list.now.validity list.now.offsets ∷ parts_of rest.now) above place 1 }
{
    let _beneath = rest;
    let _named = (from, place, last);
    if !there {
        return told.push_level(level_at(level, above.def, above.depth));
    }
    if start == stop {
        let def = above.def + step_of(list.is_optional);
        return told.push_level(level_at(level, def, above.depth));
    }
    push_beneath(told, lower, level, above.depth, start, stop)
}

// The levels of a struct, by those of what is beneath some structs from one on.
#[inline(always)]
fn push_struct(
    told: &mut LevelBytes,
    lower: &Pieces,
    level: Level,
    mask: &Option<Bitmap>,
    is_optional: bool,
    slots: usize,
    rest: &[Nested],
    above: Above,
    there: bool,
    place: usize,
    from: usize,
    to: usize,
) -> bool
    requires after { from ≤ place }
    requires before { place < to }
    requires there { there ≡ is_present is_optional mask.now place }
    requires same { above.rep ≡ above.depth }
    requires def { above.def < 255 }
    requires depth { above.depth < 256 }
    requires beneath { AreTold (λ n. walked level (parts_of rest.now) (above_fields above is_optional) from n)
        (to - from) lower.now }
    ensures { IsTrue result → told.new ≡ told.old ++ walked level
        (struct_part is_optional mask.now slots ∷ parts_of rest.now) above place 1 }
{
    let _mask = mask;
    let _beneath = rest;
    let _named = (is_optional, slots, to);
    if !there {
        return told.push_level(level_at(level, above.def, above.depth));
    }
    push_beneath(
        told,
        lower,
        level,
        above.depth,
        place - from,
        place - from + 1,
    )
}

// The levels of the next lists of a word: those with items side by side, or one. Answers how many these are, none where they have no room.
#[inline(always)]
fn raise_some_lists<O: Offset>(
    upper: &mut Pieces,
    lower: &Pieces,
    level: Level,
    list: &ListNested<O>,
    rest: &[Nested],
    above: Above,
    word: u64,
    full: u64,
    edges: &[u16; 65],
    from: usize,
    place: usize,
    at: usize,
    count: usize,
    last: usize,
) -> usize
    requires after { from ≤ place }
    requires next { at < count }
    requires few { count ≤ 64 }
    requires room { place + count - from ≤ 2048 }
    requires within { place + count ≤ length list.now.offsets - 1 }
    requires bits { (i : ℕ) → i < count → (bit_at word i == 1) ≡ is_present list.now.is_optional list.now.validity
        (place + i) }
    requires full { (i : ℕ) → i < 64 → (bit_at full i == 1) ≡ true → ((bit_at word i == 1) ≡ true)
        × (slice_index edges.now i ≢ slice_index edges.now (i + 1)) }
    requires edges { (k : ℕ) → k ≤ count → slice_index edges.now k ≡ item_start list.now.offsets (place + k)
        - item_start list.now.offsets from }
    requires rises { IsRising list.now.offsets }
    requires before { item_start list.now.offsets (place + count) ≤ last }
    requires same { above.rep ≡ above.depth }
    requires def { above.def < 255 }
    requires depth { above.depth < 256 }
    requires beneath { AreTold (λ n. walked level (parts_of rest.now) (above_items above list.now.is_optional)
        (item_start list.now.offsets from) n) (last - item_start list.now.offsets from) lower.now }
    requires told { AreTold (λ n. walked level
        (list_part list.now.is_optional list.now.validity list.now.offsets ∷ parts_of rest.now) above from n)
        (place + at - from) upper.old }
    ensures within { at + result ≤ count }
    ensures told { 0 < result
        → AreTold (λ n. walked level
        (list_part list.now.is_optional list.now.validity list.now.offsets ∷ parts_of rest.now) above from n)
        (place + (at + result) - from) upper.new }
{
    let some = set_run(full, at, count);
    if some > 0 {
        let is_told = push_full(
            upper, lower, level, list, rest, above, edges, from, place, at, some, last,
        );
        return if is_told { some } else { 0 };
    }
    // the number of lists fits its type, so `place + at` does
    let _lists = list.offsets.len_proxy();
    let there = (word >> at) & 1 == 1;
    if !push_list(
        &mut upper.told,
        lower,
        level,
        list,
        rest,
        above,
        there,
        from,
        place + at,
        edges[at] as usize,
        edges[at + 1] as usize,
        last,
    ) {
        return 0;
    }
    mark(upper, place + at + 1 - from);
    1
}

// The levels of up to 64 lists, behind those of the lists before them, by those of the items. A word tells which are there.
#[inline(never)]
fn raise_word<O: Offset>(
    upper: &mut Pieces,
    lower: &Pieces,
    level: Level,
    list: &ListNested<O>,
    rest: &[Nested],
    above: Above,
    word: u64,
    from: usize,
    place: usize,
    count: usize,
    last: usize,
) -> bool
    requires after { from ≤ place }
    requires few { count ≤ 64 }
    requires room { place + count - from ≤ 2048 }
    requires within { place + count ≤ length list.now.offsets - 1 }
    requires bits { (i : ℕ) → i < count → (bit_at word i == 1) ≡ is_present list.now.is_optional list.now.validity
        (place + i) }
    requires before { item_start list.now.offsets (place + count) ≤ last }
    requires same { above.rep ≡ above.depth }
    requires def { above.def < 255 }
    requires depth { above.depth < 256 }
    requires beneath { AreTold (λ n. walked level (parts_of rest.now) (above_items above list.now.is_optional)
        (item_start list.now.offsets from) n) (last - item_start list.now.offsets from) lower.now }
    requires told { AreTold (λ n. walked level
        (list_part list.now.is_optional list.now.validity list.now.offsets ∷ parts_of rest.now) above from n)
        (place - from) upper.old }
    ensures { IsTrue result
        → AreTold (λ n. walked level
        (list_part list.now.is_optional list.now.validity list.now.offsets ∷ parts_of rest.now) above from n)
        (place + count - from) upper.new }
{
    list.offsets.know();
    // the number of lists fits its type, so `place + i` does
    let _lists = list.offsets.len_proxy();
    let edges = item_edges(&list.offsets, from, place, count);
    let full = full_lists(&edges, word);
    let mut i = 0;
    while i < count {
        let some = raise_some_lists(
            upper, lower, level, list, rest, above, word, full, &edges, from, place, i, count, last,
        );
        if some == 0 {
            return false;
        }
        i += some;
    }
    true
}

// The levels of lists, by those of their items.
#[inline(never)]
fn raise_lists<O: Offset>(
    upper: &mut Pieces,
    lower: &Pieces,
    level: Level,
    list: &ListNested<O>,
    rest: &[Nested],
    above: Above,
    from: usize,
    to: usize,
) -> bool
    requires fits { MaskFits list.now.validity (length list.now.offsets - 1) }
    requires ordered { from ≤ to }
    requires within { to ≤ length list.now.offsets - 1 }
    requires same { above.rep ≡ above.depth }
    requires def { above.def < 255 }
    requires depth { above.depth < 256 }
    requires beneath { AreTold (λ n. walked level (parts_of rest.now) (above_items above list.now.is_optional)
        (item_start list.now.offsets from) n)
        (item_start list.now.offsets to - item_start list.now.offsets from) lower.now }
    ensures { IsTrue result
        → AreTold (λ n. walked level
        (list_part list.now.is_optional list.now.validity list.now.offsets ∷ parts_of rest.now) above from n)
        (to - from) upper.new }
{
    upper.told.clear();
    mark(upper, 0);
    if to - from > 2048 {
        return false;
    }
    let lists = list.offsets.len_proxy();
    let last = item_place(&list.offsets, to);
    let mut place = from;
    while place < to {
        let count = (to - place).min(64);
        let word = present_word(list.is_optional, &list.validity, lists, place, count);
        if !raise_word(
            upper, lower, level, list, rest, above, word, from, place, count, last,
        ) {
            return false;
        }
        place += count;
    }
    true
}

// The levels of the next structs of a word: those that are there side by side, or one that is not. Answers how many these are, none where they have no
// room.
#[inline(always)]
fn raise_some_structs(
    upper: &mut Pieces,
    lower: &Pieces,
    level: Level,
    mask: &Option<Bitmap>,
    is_optional: bool,
    slots: usize,
    rest: &[Nested],
    above: Above,
    word: u64,
    from: usize,
    place: usize,
    at: usize,
    count: usize,
    to: usize,
) -> usize
    requires after { from ≤ place }
    requires next { at < count }
    requires few { count ≤ 64 }
    requires room { to - from ≤ 2048 }
    requires within { place + count ≤ to }
    requires bits { (i : ℕ) → i < count → (bit_at word i == 1) ≡ is_present is_optional mask.now (place + i) }
    requires same { above.rep ≡ above.depth }
    requires def { above.def < 255 }
    requires depth { above.depth < 256 }
    requires beneath { AreTold (λ n. walked level (parts_of rest.now) (above_fields above is_optional) from n)
        (to - from) lower.now }
    requires told { AreTold (λ n. walked level
        (struct_part is_optional mask.now slots ∷ parts_of rest.now) above from n) (place + at - from) upper.old }
    ensures within { at + result ≤ count }
    ensures told { 0 < result
        → AreTold (λ n. walked level (struct_part is_optional mask.now slots ∷ parts_of rest.now) above from n)
        (place + (at + result) - from) upper.new }
{
    let some = set_run(word, at, count);
    if some > 0 {
        let is_told = push_present(
            upper,
            lower,
            level,
            mask,
            is_optional,
            slots,
            rest,
            above,
            from,
            place + at,
            some,
            to,
        );
        return if is_told { some } else { 0 };
    }
    if !push_struct(
        &mut upper.told,
        lower,
        level,
        mask,
        is_optional,
        slots,
        rest,
        above,
        false,
        place + at,
        from,
        to,
    ) {
        return 0;
    }
    mark(upper, place + at + 1 - from);
    1
}

// The levels of up to 64 structs, behind those of the structs before them, by those of what is beneath them. A word tells which are there.
#[inline(never)]
fn raise_struct_word(
    upper: &mut Pieces,
    lower: &Pieces,
    level: Level,
    mask: &Option<Bitmap>,
    is_optional: bool,
    slots: usize,
    rest: &[Nested],
    above: Above,
    word: u64,
    from: usize,
    place: usize,
    count: usize,
    to: usize,
) -> bool
    requires after { from ≤ place }
    requires few { count ≤ 64 }
    requires room { to - from ≤ 2048 }
    requires within { place + count ≤ to }
    requires bits { (i : ℕ) → i < count → (bit_at word i == 1) ≡ is_present is_optional mask.now (place + i) }
    requires same { above.rep ≡ above.depth }
    requires def { above.def < 255 }
    requires depth { above.depth < 256 }
    requires beneath { AreTold (λ n. walked level (parts_of rest.now) (above_fields above is_optional) from n)
        (to - from) lower.now }
    requires told { AreTold (λ n. walked level
        (struct_part is_optional mask.now slots ∷ parts_of rest.now) above from n) (place - from) upper.old }
    ensures { IsTrue result
        → AreTold (λ n. walked level (struct_part is_optional mask.now slots ∷ parts_of rest.now) above from n)
        (place + count - from) upper.new }
{
    let mut i = 0;
    while i < count {
        let some = raise_some_structs(
            upper,
            lower,
            level,
            mask,
            is_optional,
            slots,
            rest,
            above,
            word,
            from,
            place,
            i,
            count,
            to,
        );
        if some == 0 {
            return false;
        }
        i += some;
    }
    true
}

// The levels of structs, by those of what is beneath them.
#[inline(never)]
fn raise_structs(
    upper: &mut Pieces,
    lower: &Pieces,
    level: Level,
    mask: &Option<Bitmap>,
    is_optional: bool,
    slots: usize,
    rest: &[Nested],
    above: Above,
    from: usize,
    to: usize,
) -> bool
    requires fits { MaskFits mask.now slots }
    requires ordered { from ≤ to }
    requires within { to ≤ slots }
    requires same { above.rep ≡ above.depth }
    requires def { above.def < 255 }
    requires depth { above.depth < 256 }
    requires beneath { AreTold (λ n. walked level (parts_of rest.now) (above_fields above is_optional) from n)
        (to - from) lower.now }
    ensures { IsTrue result
        → AreTold (λ n. walked level (struct_part is_optional mask.now slots ∷ parts_of rest.now) above from n)
        (to - from) upper.new }
{
    upper.told.clear();
    mark(upper, 0);
    if to - from > 2048 {
        return false;
    }
    let mut place = from;
    while place < to {
        let count = (to - place).min(64);
        let word = present_word(is_optional, mask, slots, place, count);
        if !raise_struct_word(
            upper,
            lower,
            level,
            mask,
            is_optional,
            slots,
            rest,
            above,
            word,
            from,
            place,
            count,
            to,
        ) {
            return false;
        }
        place += count;
    }
    true
}

// What lies above what is in structs.
#[inline(always)]
fn beneath_struct(above: Above, is_optional: bool) -> Above
    requires def { above.def < 255 }
    ensures { result ≡ above_fields above is_optional }
{
    Above {
        def: above.def + step_of(is_optional),
        ..above
    }
}

// What lies above the items of lists.
#[inline(always)]
fn beneath_list(above: Above, is_optional: bool) -> Above
    requires def { above.def < 255 }
    requires depth { above.depth < 255 }
    ensures { result ≡ above_items above is_optional }
{
    Above {
        rep: above.depth + 1,
        def: above.def + step_of(is_optional) + 1,
        depth: above.depth + 1,
    }
}

// The levels of some slots, from the leaf up.
pub fn tell_pieces(
    upper: &mut Pieces,
    lower: &mut Pieces,
    level: Level,
    parts: &[Nested],
    above: Above,
    from: usize,
    to: usize,
) -> bool
    requires well { IsPath (parts_of parts.now) }
    requires ordered { from ≤ to }
    requires within { to ≤ slot_count (parts_of parts.now) }
    requires low { IsLow above (length parts.now) }
    requires same { above.rep ≡ above.depth }
    ensures { IsTrue result → AreTold (λ n. walked level (parts_of parts.now) above from n) (to - from) upper.new }
{
    if !has_lists(parts) {
        return tell_flats(upper, level, parts, above, from, to);
    }
    let Some((part, rest)) = parts.split_first() else {
        return false;
    };
    match part {
        Nested::Primitive(..) => false,
        Nested::Struct(mask, is_optional, slots) => {
            let here = beneath_struct(above, *is_optional);
            tell_pieces(lower, upper, level, rest, here, from, to)
                && raise_structs(
                    upper,
                    lower,
                    level,
                    mask,
                    *is_optional,
                    *slots,
                    rest,
                    above,
                    from,
                    to,
                )
        }
        Nested::List(list) => {
            let (first, last) = items_between(list, from, to);
            let here = beneath_list(above, list.is_optional);
            tell_pieces(lower, upper, level, rest, here, first, last)
                && raise_lists(upper, lower, level, list, rest, above, from, to)
        }
        Nested::LargeList(list) => {
            let (first, last) = items_between(list, from, to);
            let here = beneath_list(above, list.is_optional);
            tell_pieces(lower, upper, level, rest, here, first, last)
                && raise_lists(upper, lower, level, list, rest, above, from, to)
        }
    }
}
