//! Whether pairs may follow one another.
ghost use Rattle.std.specs.Prelude.{◌≡◌, ◌==◌, true, ℕ, ◌<◌, ◌≤◌, ◌^◌, OnOk, IfErr, IsTrue, IfSome, Some, Option, List, length, replicate, slice_index};
ghost use Rattle.std.specs.Int.{bit_at};
ghost use Rattle.pq_numbers.specs.Bits.{digits_of};
ghost use Rattle.shredding.specs.Shred.{max_definition, max_repetition};
ghost use Rattle.shredding.specs.Local.{inside};
ghost use Rattle.read_laws.specs.State.{kept_way};
ghost use Rattle.read_walk.specs.Order.{zipped, Follows, MayCome, WhyNot, OneMayNot, PlainlyFollow, IsInside, level_before, MayComeAt, AreLevels, MayTake};

use crate::folds::{all_bits, are_from, are_within};
use crate::narrow::{are_bytes, are_told_within, narrowed};
use columns_base::{Error, Result, S};
use read_state::{BlockLevels, NestedState, levels_at, levels_from};

/// The greatest levels of the way to a leaf, and the definition level from which pairs lie inside its innermost list.
#[derive(Clone, Copy, Drop)]
pub struct WayLevels {
    pub lists: usize,
    pub top: usize,
    pub floor: usize,
}

/// Those of a state's way.
pub fn way_levels(nested: &NestedState) -> WayLevels
    ensures { AreLevels (kept_way nested.now) result.lists result.top result.floor }
{
    let lists = nested.max_repetition();
    WayLevels {
        lists,
        top: nested.max_definition(),
        floor: nested.inside(lists),
    }
}

// Whether a pair that repeats and the one before it lie inside the list that it repeats in.
fn check_repeated(nested: &NestedState, before: usize, rep: usize, level: usize) -> Result<()>
    requires { 0 < rep }
    ensures ok { OnOk result (MayCome (kept_way nested.now) (Some before) (rep, level)) }
    ensures err { IfErr result (WhyNot (kept_way nested.now) (Some before) (rep, level)) }
{
    let inside = nested.inside(rep);
    if before < inside {
        return Err(Error::OutOfSpec(S::S10));
    }
    if level < inside {
        return Err(Error::OutOfSpec(S::S10));
    }
    Ok(())
}

// Whether a pair may come behind one of the definition level `before`.
fn check_pair(
    nested: &NestedState,
    before: Option<usize>,
    rep: usize,
    level: usize,
    lists: usize,
    top: usize,
    floor: usize,
) -> Result<()>
    requires lists { lists ≡ max_repetition (kept_way nested.now) }
    requires top { top ≡ max_definition (kept_way nested.now) }
    requires floor { floor ≡ inside (kept_way nested.now) lists }
    ensures ok { OnOk result ((rep ≤ max_repetition (kept_way nested.now))
        × (level ≤ max_definition (kept_way nested.now)) × MayCome (kept_way nested.now) before (rep, level)) }
    ensures err { IfErr result (WhyNot (kept_way nested.now) before (rep, level)) }
{
    if rep > lists {
        return Err(Error::OutOfSpec(S::S4));
    }
    if level > top {
        return Err(Error::OutOfSpec(S::S4));
    }
    if rep == 0 {
        return Ok(());
    }
    match before {
        Some(before) => {
            if floor <= before.min(level) {
                return Ok(());
            }
            check_repeated(nested, before, rep, level)
        }
        None => Err(Error::OutOfSpec(S::S5)),
    }
}

// Whether each pair may come, one by one.
fn check_each(
    nested: &NestedState,
    before: Option<usize>,
    reps: &[u32],
    defs: &[u32],
    lists: usize,
    top: usize,
    floor: usize,
) -> Result<()>
    requires defs { length defs.now ≡ length reps.now }
    requires lists { lists ≡ max_repetition (kept_way nested.now) }
    requires top { top ≡ max_definition (kept_way nested.now) }
    requires floor { floor ≡ inside (kept_way nested.now) lists }
    ensures ok { OnOk result (Follows (kept_way nested.now) before (zipped reps.now defs.now)) }
    ensures err { IfErr result (OneMayNot (kept_way nested.now) before (zipped reps.now defs.now)) }
{
    let mut last = before;
    for j in 0..reps.len() {
        let level = defs[j] as usize;
        match check_pair(nested, last, reps[j] as usize, level, lists, top, floor) {
            Ok(()) => last = Some(level),
            Err(error) => return Err(error),
        }
    }
    Ok(())
}

/// Whether so many equal pairs may come behind one of the definition level `before`.
///
/// # Errors
///
/// As `check_order`.
pub fn check_copies(
    nested: &NestedState,
    levels: WayLevels,
    before: Option<usize>,
    rep: usize,
    level: usize,
    count: usize,
) -> Result<()>
    requires levels { AreLevels (kept_way nested.now) levels.lists levels.top levels.floor }
    requires some { 0 < count }
    ensures ok { OnOk result (Follows (kept_way nested.now) before
        (zipped (replicate count rep) (replicate count level))) }
    ensures err { IfErr result (OneMayNot (kept_way nested.now) before
        (zipped (replicate count rep) (replicate count level))) }
{
    let (lists, top, floor) = (levels.lists, levels.top, levels.floor);
    match check_pair(nested, before, rep, level, lists, top, floor) {
        Ok(()) => {}
        Err(error) => return Err(error),
    }
    if count == 1 {
        return Ok(());
    }
    check_pair(nested, Some(level), rep, level, lists, top, floor)
}

// Whether there was a pair, of this definition level or a greater one.
fn reaches(before: Option<usize>, level: usize) -> bool
    ensures { IsTrue result → (b : ℕ) × (before ≡ Some b) × (level ≤ b) }
{
    match before {
        Some(before) => level <= before,
        None => false,
    }
}

// A bit for each of 64 pairs of this definition level or a greater one behind one that is, too.
fn inner_word(before: Option<usize>, defs: &BlockLevels, floor: usize) -> u64
    requires { length defs.now ≡ 64 }
    ensures { (k : ℕ) → k < 64 → (bit_at result k == 1) ≡ true → (floor ≤ slice_index defs.now k)
        × IsInside floor (level_before before defs.now k) }
{
    if floor > 255 {
        return 0;
    }
    let inner = defs.from(floor as u8);
    let behind = inner % 0x8000_0000_0000_0000 * 2 + u64::from(reaches(before, floor));
    inner & behind
}

// The same, and none where all pairs begin a row.
#[inline(always)]
fn inner_behind(begun: u64, before: Option<usize>, defs: &BlockLevels, floor: usize) -> u64
    requires { length defs.now ≡ 64 }
    ensures { (k : ℕ) → k < 64 → (bit_at result k == 1) ≡ true → (floor ≤ slice_index defs.now k)
        × IsInside floor (level_before before defs.now k) }
{
    if begun == u64::MAX {
        return 0;
    }
    inner_word(before, defs, floor)
}

// A bit for each of 64 pairs that begins a row, or lies inside the innermost list behind one that does.
fn plain_word(
    nested: &NestedState,
    before: Option<usize>,
    reps: &BlockLevels,
    defs: &BlockLevels,
    lists: usize,
    floor: usize,
) -> u64
    requires reps { length reps.now ≡ 64 }
    requires defs { length defs.now ≡ 64 }
    requires lists { lists ≡ max_repetition (kept_way nested.now) }
    requires floor { floor ≡ inside (kept_way nested.now) lists }
    requires within { (k : ℕ) → k < 64 → slice_index reps.now k ≤ lists }
    ensures { (k : ℕ) → k < 64 → (bit_at result k == 1) ≡ true
        → MayComeAt (kept_way nested.now) before reps.now defs.now k }
{
    let begun = reps.at(0);
    begun | inner_behind(begun, before, defs, floor)
}

// A bit for each of 64 pairs that repeats in the list of this number and lies inside it, behind one that does.
fn list_word(
    nested: &NestedState,
    before: Option<usize>,
    reps: &BlockLevels,
    defs: &BlockLevels,
    list: usize,
) -> u64
    requires reps { length reps.now ≡ 64 }
    requires defs { length defs.now ≡ 64 }
    requires few { list ≤ 255 }
    ensures { (k : ℕ) → k < 64 → (bit_at result k == 1) ≡ true
        → MayComeAt (kept_way nested.now) before reps.now defs.now k }
{
    let floor = nested.inside(list);
    reps.at(list as u8) & inner_word(before, defs, floor)
}

// Whether each of 64 pairs may come: the plain ones first, and then those of one list after another, the outermost last.
fn all_may_come(
    nested: &NestedState,
    before: Option<usize>,
    reps: &BlockLevels,
    defs: &BlockLevels,
    lists: usize,
    floor: usize,
) -> bool
    requires reps { length reps.now ≡ 64 }
    requires defs { length defs.now ≡ 64 }
    requires lists { lists ≡ max_repetition (kept_way nested.now) }
    requires floor { floor ≡ inside (kept_way nested.now) lists }
    requires within { (k : ℕ) → k < 64 → slice_index reps.now k ≤ lists }
    requires few { lists ≤ 255 }
    ensures { IsTrue result → (k : ℕ) → k < 64 → MayComeAt (kept_way nested.now) before reps.now defs.now k }
{
    let mut known = plain_word(nested, before, reps, defs, lists, floor);
    let mut list = lists;
    while known != u64::MAX && list > 1 {
        list -= 1;
        known = known | list_word(nested, before, reps, defs, list);
    }
    known == u64::MAX
}

// Whether 64 pairs may come, told by words of bits.
fn told_follow(
    nested: &NestedState,
    before: Option<usize>,
    reps: &BlockLevels,
    defs: &BlockLevels,
    lists: usize,
    top: usize,
    floor: usize,
) -> bool
    requires reps { length reps.now ≡ 64 }
    requires defs { length defs.now ≡ 64 }
    requires lists { lists ≡ max_repetition (kept_way nested.now) }
    requires top { top ≡ max_definition (kept_way nested.now) }
    requires floor { floor ≡ inside (kept_way nested.now) lists }
    requires few { lists ≤ 255 }
    requires low { top ≤ 255 }
    ensures { IsTrue result → Follows (kept_way nested.now) before (zipped reps.now defs.now) }
{
    if !are_told_within(reps, lists as u8) {
        return false;
    }
    if !are_told_within(defs, top as u8) {
        return false;
    }
    all_may_come(nested, before, reps, defs, lists, floor)
}

// The same of levels that may be above 255.
fn may_follow(
    nested: &NestedState,
    before: Option<usize>,
    reps: &[u32],
    defs: &[u32],
    lists: usize,
    top: usize,
    floor: usize,
) -> bool
    requires reps { length reps.now ≡ 64 }
    requires defs { length defs.now ≡ 64 }
    requires lists { lists ≡ max_repetition (kept_way nested.now) }
    requires top { top ≡ max_definition (kept_way nested.now) }
    requires floor { floor ≡ inside (kept_way nested.now) lists }
    requires few { lists ≤ 255 }
    requires low { top ≤ 255 }
    ensures { IsTrue result → Follows (kept_way nested.now) before (zipped reps.now defs.now) }
{
    if !are_bytes(reps) {
        return false;
    }
    if !are_bytes(defs) {
        return false;
    }
    let reps = BlockLevels::of_bytes(narrowed(reps));
    let defs = BlockLevels::of_bytes(narrowed(defs));
    told_follow(nested, before, &reps, &defs, lists, top, floor)
}

// The same as `inner_word` of levels that may be above 255.
fn inner_bits(before: Option<usize>, defs: &[u32], floor: usize) -> u64
    requires { length defs.now ≡ 64 }
    ensures { (k : ℕ) → k < 64 → (bit_at result k == 1) ≡ true → (floor ≤ slice_index defs.now k)
        × IsInside floor (level_before before defs.now k) }
{
    if floor >= 0x1_0000_0000 {
        return 0;
    }
    let inner = levels_from(defs, floor as u32);
    let behind = inner % 0x8000_0000_0000_0000 * 2 + u64::from(reaches(before, floor));
    inner & behind
}

// The same as `plain_word` of levels that may be above 255.
fn plain_bits(
    nested: &NestedState,
    before: Option<usize>,
    reps: &[u32],
    defs: &[u32],
    lists: usize,
    floor: usize,
) -> u64
    requires reps { length reps.now ≡ 64 }
    requires defs { length defs.now ≡ 64 }
    requires lists { lists ≡ max_repetition (kept_way nested.now) }
    requires floor { floor ≡ inside (kept_way nested.now) lists }
    requires within { (k : ℕ) → k < 64 → slice_index reps.now k ≤ lists }
    ensures { (k : ℕ) → k < 64 → (bit_at result k == 1) ≡ true
        → MayComeAt (kept_way nested.now) before reps.now defs.now k }
{
    levels_at(reps, 0) | inner_bits(before, defs, floor)
}

// Whether 64 pairs may come, where only the plain ones are told: all that may come behind one list.
fn may_plainly_follow(
    nested: &NestedState,
    before: Option<usize>,
    reps: &[u32],
    defs: &[u32],
    lists: usize,
    top: usize,
    floor: usize,
) -> bool
    requires reps { length reps.now ≡ 64 }
    requires defs { length defs.now ≡ 64 }
    requires lists { lists ≡ max_repetition (kept_way nested.now) }
    requires top { top ≡ max_definition (kept_way nested.now) }
    requires floor { floor ≡ inside (kept_way nested.now) lists }
    ensures { IsTrue result → Follows (kept_way nested.now) before (zipped reps.now defs.now) }
{
    if !are_within(reps, lists) {
        return false;
    }
    if !are_within(defs, top) {
        return false;
    }
    plain_bits(nested, before, reps, defs, lists, floor) == u64::MAX
}

// Whether the pairs plainly may come: each begins a row, or lies inside the innermost list behind one that does.
fn plainly_follow(
    before: Option<usize>,
    reps: &[u32],
    defs: &[u32],
    lists: usize,
    top: usize,
    floor: usize,
) -> bool
    requires defs { length defs.now ≡ length reps.now }
    ensures { IsTrue result → PlainlyFollow before reps.now defs.now lists top floor }
{
    if !are_within(reps, lists) {
        return false;
    }
    if !are_within(defs, top) {
        return false;
    }
    if all_bits(reps) == 0 {
        return true;
    }
    are_from(defs, floor) && reaches(before, floor)
}

/// Whether the pairs may come behind one of the definition level `before`, one after another, by the levels of the way.
///
/// # Errors
///
/// As `check_order`.
pub fn check_pairs(
    nested: &NestedState,
    levels: WayLevels,
    before: Option<usize>,
    reps: &[u32],
    defs: &[u32],
) -> Result<()>
    requires levels { AreLevels (kept_way nested.now) levels.lists levels.top levels.floor }
    requires defs { length defs.now ≡ length reps.now }
    ensures ok { OnOk result (Follows (kept_way nested.now) before (zipped reps.now defs.now)) }
    ensures err { IfErr result (OneMayNot (kept_way nested.now) before (zipped reps.now defs.now)) }
{
    let (lists, top, floor) = (levels.lists, levels.top, levels.floor);
    if reps.len() == 64 && lists == 1 {
        if may_plainly_follow(nested, before, reps, defs, lists, top, floor) {
            return Ok(());
        }
    } else if reps.len() == 64 && 0 < lists && lists <= 255 && top <= 255 {
        if may_follow(nested, before, reps, defs, lists, top, floor) {
            return Ok(());
        }
    } else if plainly_follow(before, reps, defs, lists, top, floor) {
        return Ok(());
    }
    check_each(nested, before, reps, defs, lists, top, floor)
}

/// Whether 64 pairs whose levels are told as bits or bytes may come behind one of the definition level `before`, and are taken so. Where the answer is
/// no, they may come or not.
pub fn may_take(
    nested: &NestedState,
    levels: WayLevels,
    before: Option<usize>,
    reps: &BlockLevels,
    defs: &BlockLevels,
) -> bool
    requires levels { AreLevels (kept_way nested.now) levels.lists levels.top levels.floor }
    requires reps { length reps.now ≡ 64 }
    requires defs { length defs.now ≡ 64 }
    ensures { IsTrue result → MayTake nested.now levels.top before reps.now defs.now }
{
    let (lists, top, floor) = (levels.lists, levels.top, levels.floor);
    if nested.depth() >= 64 {
        return false;
    }
    if lists > 255 {
        return false;
    }
    if top > 255 {
        return false;
    }
    told_follow(nested, before, reps, defs, lists, top, floor)
}

/// The same of pairs that begin a row each.
pub fn may_begin(nested: &NestedState, levels: WayLevels, defs: &BlockLevels) -> bool
    requires levels { AreLevels (kept_way nested.now) levels.lists levels.top levels.floor }
    requires defs { length defs.now ≡ 64 }
    ensures { IsTrue result → (before : Option ℕ) (reps : List ℕ) → reps ≡ replicate 64 0
        → MayTake nested.now levels.top before reps defs.now }
{
    let top = levels.top;
    if nested.depth() >= 64 {
        return false;
    }
    if top > 255 {
        return false;
    }
    are_told_within(defs, top as u8)
}

/// Whether the pairs may come behind one of the definition level `before`, one after another.
///
/// # Errors
///
/// Of one of the pairs: S4 where a level is above its greatest, S5 where it goes on with a row and no pair came before, S10 where it or the pair
/// before it does not lie inside the list that it repeats in.
pub fn check_order(
    nested: &NestedState,
    before: Option<usize>,
    reps: &[u32],
    defs: &[u32],
) -> Result<()>
    requires defs { length defs.now ≡ length reps.now }
    ensures ok { OnOk result (Follows (kept_way nested.now) before (zipped reps.now defs.now)) }
    ensures err { IfErr result (OneMayNot (kept_way nested.now) before (zipped reps.now defs.now)) }
{
    check_pairs(nested, way_levels(nested), before, reps, defs)
}
