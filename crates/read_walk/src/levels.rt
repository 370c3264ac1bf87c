//! Level pairs in blocks of 64.
ghost use Rattle.std.specs.Prelude.{◌≡◌, ℕ, ◌+◌, ◌-◌, ◌/◌, ◌<◌, ◌≤◌, ◌^◌, ◌||◌, ◌&&◌, ◌++◌, [], true, false, length, take, drop, slice_index, Ok, Some, IfSome, MatchOption, IsTrue};
ghost use Rattle.pq_numbers.specs.Bits.{digits_of};
ghost use Rattle.pq_numbers.specs.Texts.{number_of};
ghost use Rattle.pq_runs.specs.Hybrid.{given};
ghost use Rattle.read_laws.specs.State.{kept_way};
ghost use Rattle.read_walk.specs.LevelRuns.{runs_left, IsReading};
ghost use Rattle.read_walk.specs.Levels.{levels_left, ArePacked, IsLevels, IsFlatNext, IsUsedUp};
ghost use Rattle.read_walk.specs.Order.{AreLevels, MayTake};
ghost use Rattle.read_walk.specs.Pairs.{TakesBlock, TakesCopies, TakesRun, is_within, rows_in};

use crate::bits::put_bytes;
use crate::block::{PairBlock, fill_flat};
use crate::folds::{are_within, count_zeros};
use crate::narrow::{are_bytes, narrowed};
use crate::order::{WayLevels, may_begin, may_take};
use crate::runs::{LevelRuns, copied, drop_copies, drop_packed, fill, fill_whole, stop_runs};
use crate::words::take_word;
use columns_base::{Error, Result, S};
use pq_runs::low_bytes;
use read_state::{BlockLevels, NestedState};

/// The levels that were unpacked, from one place of a block to another, those that were not, and whether a fault stands behind the block.
#[derive(Drop)]
pub struct Levels<'a> {
    pub reps: LevelRuns<'a>,
    pub defs: LevelRuns<'a>,
    pub max_rep: usize,
    pub max_def: usize,
    pub rep_block: [u32; 64],
    pub def_block: [u32; 64],
    pub at: usize,
    pub end: usize,
    pub failed: bool,
}

fn any(a: bool, b: bool, c: bool) -> bool
    ensures { result ≡ (a || (b || c)) }
{
    a || (b || c)
}

fn either(a: bool, b: bool) -> bool
    ensures { result ≡ (a || b) }
{
    a || b
}

fn is_within(rep: usize, def: usize, max_rep: usize, max_def: usize) -> bool
    ensures { result ≡ is_within max_rep max_def (rep, def) }
{
    rep <= max_rep && def <= max_def
}

// The same one by one.
fn first_above(reps: &[u32], defs: &[u32], end: usize, max_rep: usize, max_def: usize) -> usize
    requires reps { end ≤ length reps.now }
    requires defs { end ≤ length defs.now }
    ensures within { result ≤ end }
    ensures before { (k : ℕ) → k < result → is_within max_rep max_def (slice_index reps.now k, slice_index defs.now k)
        ≡ true }
    ensures next { result < end → is_within max_rep max_def (slice_index reps.now result, slice_index defs.now result)
        ≡ false }
{
    for i in 0..end {
        if !is_within(reps[i] as usize, defs[i] as usize, max_rep, max_def) {
            return i;
        }
    }
    end
}

// How many pairs from the front on have no level above its greatest.
fn count_within(reps: &[u32], defs: &[u32], end: usize, max_rep: usize, max_def: usize) -> usize
    requires reps { end ≤ length reps.now }
    requires defs { end ≤ length defs.now }
    ensures within { result ≤ end }
    ensures before { (k : ℕ) → k < result → is_within max_rep max_def (slice_index reps.now k, slice_index defs.now k)
        ≡ true }
    ensures next { result < end → is_within max_rep max_def (slice_index reps.now result, slice_index defs.now result)
        ≡ false }
{
    if are_within(part_of(reps, 0, end), max_rep) {
        if are_within(part_of(defs, 0, end), max_def) {
            return end;
        }
    }
    first_above(reps, defs, end, max_rep, max_def)
}

// Unpacks the next block.
fn refill<'a>(levels: &mut Levels<'a>)
    requires is { IsLevels levels.old }
    requires used { levels.old.at ≡ levels.old.end }
    requires goes_on { levels.old.failed ≡ false }
    ensures is { IsLevels levels.new }
    ensures same { levels_left levels.new ≡ levels_left levels.old }
    ensures ended { levels.new.at ≡ levels.new.end → levels.new.failed ≡ false → levels_left levels.new ≡ [] }
{
    let (reps, no_rep) = fill(&mut levels.reps, &mut levels.rep_block);
    let (defs, no_def) = fill(&mut levels.defs, &mut levels.def_block);
    let end = reps.min(defs);
    levels.at = 0;
    levels.end = count_within(
        &levels.rep_block,
        &levels.def_block,
        end,
        levels.max_rep,
        levels.max_def,
    );
    levels.failed = either(any(no_rep, no_def, reps != defs), levels.end < end);
}

// Unpacks a block where the last one is used up.
fn prepare<'a>(levels: &mut Levels<'a>)
    requires is { IsLevels levels.old }
    ensures is { IsLevels levels.new }
    ensures same { levels_left levels.new ≡ levels_left levels.old }
    ensures ended { levels.new.at ≡ levels.new.end → levels.new.failed ≡ false → levels_left levels.new ≡ [] }
{
    if levels.at == levels.end {
        if !levels.failed {
            refill(levels);
        }
    }
}

// The same one by one.
fn first_rows(reps: &[u32], rows: usize) -> (usize, usize)
    ensures within { result.0 ≤ length reps.now }
    ensures begun { result.1 ≡ rows_in (take result.0 reps.now) }
    ensures few { result.1 ≤ rows }
    ensures stops { result.0 < length reps.now → (slice_index reps.now result.0 ≡ 0) × (result.1 ≡ rows) }
{
    let mut begun = 0;
    for i in 0..reps.len() {
        if reps[i] == 0 {
            if begun == rows {
                return (i, begun);
            }
            begun += 1;
        }
    }
    (reps.len(), begun)
}

// How many of the pairs come before one that begins a row too many, and how many of them begin a row.
fn cut_rows(reps: &[u32], rows: usize) -> (usize, usize)
    requires short { length reps.now ≤ 64 }
    ensures within { result.0 ≤ length reps.now }
    ensures begun { result.1 ≡ rows_in (take result.0 reps.now) }
    ensures few { result.1 ≤ rows }
    ensures stops { result.0 < length reps.now → (slice_index reps.now result.0 ≡ 0) × (result.1 ≡ rows) }
{
    let begun = count_zeros(reps);
    if begun <= rows {
        return (reps.len(), begun);
    }
    first_rows(reps, rows)
}

// The levels from a place to another.
fn part_of(levels: &[u32], at: usize, end: usize) -> &[u32]
    requires ordered { at ≤ end }
    requires within { end ≤ length levels.now }
    ensures { result.now ≡ take (end - at) (drop at levels.now) }
{
    &levels[at..end]
}

// Whether no unpacked pair is left, the next 64 repetition levels are 0 in copies, and so many rows are wanted.
fn is_flat_next<'a>(levels: &Levels<'a>, rows: usize) -> bool
    ensures { IsTrue result → IsFlatNext levels.now rows }
{
    if levels.at < levels.end {
        return false;
    }
    if levels.failed {
        return false;
    }
    if levels.reps.copies < 64 {
        return false;
    }
    if levels.reps.number > 0 {
        return false;
    }
    if rows < 64 { false } else { true }
}

// Takes 64 pairs that begin a row each, if they come next and no definition level is above its greatest.
fn next_flat<'a>(levels: &mut Levels<'a>, rows: usize, block: &mut PairBlock) -> bool
    requires is { IsLevels levels.old }
    ensures is { IsLevels levels.new }
    ensures taken { IsTrue result → TakesBlock rows (levels_left levels.old) (Some (Ok 64)) block.new.0 block.new.1
        (levels_left levels.new) }
    ensures same { result ≡ false → levels_left levels.new ≡ levels_left levels.old }
{
    if !is_flat_next(levels, rows) {
        return false;
    }
    let mut runs = copied(&levels.defs);
    if !fill_flat(block, &mut runs) {
        return false;
    }
    if !are_within(block.defs(), levels.max_def) {
        return false;
    }
    drop_copies(&mut levels.reps, 64);
    levels.defs = runs;
    true
}

// Whether the next 64 levels stand packed, of one bit each from a whole byte on, or of two or three bits each.
fn are_packed<'a>(runs: &LevelRuns<'a>) -> bool
    ensures { IsTrue result → ArePacked runs.now }
{
    let width = runs.runs.num_bits;
    if runs.copies > 0 {
        return false;
    }
    if runs.standing < 64 {
        return false;
    }
    if width < 1 {
        return false;
    }
    if width > 3 {
        return false;
    }
    if width < 2 && runs.shift > 0 {
        false
    } else {
        true
    }
}

// The next 64 levels, which stand packed, as bits or in a byte each.
fn tell_packed<'a>(runs: &LevelRuns<'a>, told: &mut BlockLevels)
    requires is { IsReading runs.now }
    requires packed { ArePacked runs.now }
    ensures { told.new ≡ digits_of (2 ^ runs.now.runs.num_bits) 64
        (number_of runs.now.packed.now / 2 ^ runs.now.shift) }
{
    let width = runs.runs.num_bits;
    if width == 1 {
        told.set_word(low_bytes(runs.packed) >> runs.shift);
        return;
    }
    let mut bytes = [0; 64];
    put_bytes(&mut bytes, runs.packed, runs.shift, width, 8);
    told.set_bytes(bytes);
}

// The next 64 levels in a byte each. False where they cannot be had so.
fn tell_bytes<'a>(runs: &mut LevelRuns<'a>, told: &mut BlockLevels) -> bool
    requires is { IsReading runs.old }
    ensures is { IsReading runs.new }
    ensures size { IsTrue result → length told.new ≡ 64 }
    ensures taken { IsTrue result → runs_left runs.old ≡ given told.new ++ runs_left runs.new }
{
    let mut block = [0; 64];
    if !fill_whole(runs, &mut block) {
        return false;
    }
    if !are_bytes(&block) {
        return false;
    }
    told.set_bytes(narrowed(&block));
    true
}

// The next 64 levels as bits or bytes. False where they cannot be had so.
fn tell<'a>(runs: &mut LevelRuns<'a>, told: &mut BlockLevels) -> bool
    requires is { IsReading runs.old }
    ensures is { IsReading runs.new }
    ensures size { IsTrue result → length told.new ≡ 64 }
    ensures taken { IsTrue result → runs_left runs.old ≡ given told.new ++ runs_left runs.new }
{
    if are_packed(runs) {
        tell_packed(runs, told);
        drop_packed(runs, 64);
        return true;
    }
    if runs.runs.num_bits > 1 {
        return tell_bytes(runs, told);
    }
    match take_word(runs) {
        Some(word) => {
            told.set_word(word);
            true
        }
        None => false,
    }
}

// How many of 64 pairs begin a row.
fn begun_in(reps: &BlockLevels) -> usize
    requires { length reps.now ≡ 64 }
    ensures { result ≡ rows_in reps.now }
{
    reps.at(0).count_ones() as usize
}

// Whether no unpacked pair is left, no fault stands behind them, and the greatest levels are not below those of a way.
fn is_used_up<'a>(levels: &Levels<'a>, way: WayLevels) -> bool
    ensures { IsTrue result → IsUsedUp levels.now way.lists way.top }
{
    if levels.at < levels.end {
        return false;
    }
    if levels.failed {
        return false;
    }
    if levels.max_rep < way.lists {
        return false;
    }
    if levels.max_def < way.top {
        false
    } else {
        true
    }
}

// Takes the next 64 pairs, which begin a row each, as bits or bytes, where they may come. None, and nothing taken, where they cannot be had so.
fn next_rows<'a>(
    levels: &mut Levels<'a>,
    rows: usize,
    nested: &NestedState,
    way: WayLevels,
    before: Option<usize>,
    reps: &mut BlockLevels,
    defs: &mut BlockLevels,
) -> Option<usize>
    requires is { IsLevels levels.old }
    requires way { AreLevels (kept_way nested.now) way.lists way.top way.floor }
    requires used { IsUsedUp levels.old way.lists way.top }
    requires flat { IsFlatNext levels.old rows }
    ensures is { IsLevels levels.new }
    ensures taken { MatchOption result (levels_left levels.new ≡ levels_left levels.old)
        (λ begun. TakesBlock rows (levels_left levels.old) (Some (Ok begun)) reps.new defs.new
        (levels_left levels.new)) }
    ensures may { IfSome result (λ begun. MayTake nested.now way.top before reps.new defs.new) }
{
    reps.set_word(0);
    if are_packed(&levels.defs) {
        tell_packed(&levels.defs, defs);
        if !may_begin(nested, way, defs) {
            return None;
        }
        drop_copies(&mut levels.reps, 64);
        drop_packed(&mut levels.defs, 64);
        return Some(64);
    }
    let mut next_defs = copied(&levels.defs);
    if !tell(&mut next_defs, defs) {
        return None;
    }
    if !may_begin(nested, way, defs) {
        return None;
    }
    drop_copies(&mut levels.reps, 64);
    levels.defs = next_defs;
    Some(64)
}

// Takes the next 64 pairs, whose levels stand packed, as bits or bytes, where they may come and at most `rows` begin a row. None, and nothing taken, where
// they cannot be had so.
fn next_packed<'a>(
    levels: &mut Levels<'a>,
    rows: usize,
    nested: &NestedState,
    way: WayLevels,
    before: Option<usize>,
    reps: &mut BlockLevels,
    defs: &mut BlockLevels,
) -> Option<usize>
    requires is { IsLevels levels.old }
    requires way { AreLevels (kept_way nested.now) way.lists way.top way.floor }
    requires used { IsUsedUp levels.old way.lists way.top }
    requires reps { ArePacked levels.old.reps }
    requires defs { ArePacked levels.old.defs }
    ensures is { IsLevels levels.new }
    ensures taken { MatchOption result (levels_left levels.new ≡ levels_left levels.old)
        (λ begun. TakesBlock rows (levels_left levels.old) (Some (Ok begun)) reps.new defs.new
        (levels_left levels.new)) }
    ensures may { IfSome result (λ begun. MayTake nested.now way.top before reps.new defs.new) }
{
    tell_packed(&levels.reps, reps);
    tell_packed(&levels.defs, defs);
    let begun = begun_in(reps);
    if begun > rows {
        return None;
    }
    if !may_take(nested, way, before, reps, defs) {
        return None;
    }
    drop_packed(&mut levels.reps, 64);
    drop_packed(&mut levels.defs, 64);
    Some(begun)
}

/// Takes the next 64 pairs as bits or bytes, where they may come and at most `rows` begin a row, and gives how many do. None, and nothing taken, where
/// they cannot be had so.
pub fn next_told<'a>(
    levels: &mut Levels<'a>,
    rows: usize,
    nested: &NestedState,
    way: WayLevels,
    before: Option<usize>,
    reps: &mut BlockLevels,
    defs: &mut BlockLevels,
) -> Option<usize>
    requires is { IsLevels levels.old }
    requires way { AreLevels (kept_way nested.now) way.lists way.top way.floor }
    ensures is { IsLevels levels.new }
    ensures taken { MatchOption result (levels_left levels.new ≡ levels_left levels.old)
        (λ begun. TakesBlock rows (levels_left levels.old) (Some (Ok begun)) reps.new defs.new
        (levels_left levels.new)) }
    ensures may { IfSome result (λ begun. MayTake nested.now way.top before reps.new defs.new) }
{
    if !is_used_up(levels, way) {
        return None;
    }
    if is_flat_next(levels, rows) {
        return next_rows(levels, rows, nested, way, before, reps, defs);
    }
    if are_packed(&levels.reps) {
        if are_packed(&levels.defs) {
            return next_packed(levels, rows, nested, way, before, reps, defs);
        }
    }
    let mut next_reps = copied(&levels.reps);
    let mut next_defs = copied(&levels.defs);
    if !tell(&mut next_reps, reps) {
        return None;
    }
    if !tell(&mut next_defs, defs) {
        return None;
    }
    let begun = begun_in(reps);
    if begun > rows {
        return None;
    }
    if !may_take(nested, way, before, reps, defs) {
        return None;
    }
    levels.reps = next_reps;
    levels.defs = next_defs;
    Some(begun)
}

// The next pairs of the block that is unpacked.
fn next_unpacked<'a>(
    levels: &mut Levels<'a>,
    rows: usize,
    block: &mut PairBlock,
) -> Option<Result<usize>>
    requires is { IsLevels levels.old }
    ensures is { IsLevels levels.new }
    ensures taken { TakesBlock rows (levels_left levels.old) result block.new.0 block.new.1 (levels_left levels.new) }
{
    prepare(levels);
    if levels.at == levels.end {
        if levels.failed {
            return Some(Err(Error::OutOfSpec(S::S4)));
        }
        return None;
    }
    let reps = part_of(&levels.rep_block, levels.at, levels.end);
    let (count, begun) = cut_rows(reps, rows);
    if count == 0 {
        return None;
    }
    let end = levels.at + count;
    let reps = part_of(&levels.rep_block, levels.at, end);
    let defs = part_of(&levels.def_block, levels.at, end);
    block.copy(reps, defs);
    levels.at = end;
    Some(Ok(begun))
}

/// The next pairs, of which at most `rows` begin a row, and how many do; none where no pair is left or one begins a row too many.
///
/// # Errors
///
/// S4 where a level of the next pair is missing or above its greatest.
pub fn next_block<'a>(
    levels: &mut Levels<'a>,
    rows: usize,
    block: &mut PairBlock,
) -> Option<Result<usize>>
    requires is { IsLevels levels.old }
    ensures is { IsLevels levels.new }
    ensures taken { TakesBlock rows (levels_left levels.old) result block.new.0 block.new.1 (levels_left levels.new) }
{
    if next_flat(levels, rows, block) {
        return Some(Ok(64));
    }
    next_unpacked(levels, rows, block)
}

// How many pairs from a place on are equal.
fn alike(reps: &[u32], defs: &[u32], at: usize, end: usize) -> usize
    requires some { at < end }
    requires reps { end ≤ length reps.now }
    requires defs { end ≤ length defs.now }
    ensures some { 0 < result }
    ensures within { at + result ≤ end }
    ensures alike { (k : ℕ) → k < result → (slice_index reps.now (at + k) ≡ slice_index reps.now at)
        × (slice_index defs.now (at + k) ≡ slice_index defs.now at) }
{
    let rep = reps[at];
    let def = defs[at];
    let mut count = 1;
    while at + count < end {
        if reps[at + count] != rep {
            break;
        }
        if defs[at + count] != def {
            break;
        }
        count += 1;
    }
    count
}

// The least of two copies and a greatest number, and of the rows that are wanted where each pair begins one.
fn count_copies(reps: usize, defs: usize, rep: u32, rows: usize) -> usize
    ensures reps { result ≤ reps }
    ensures defs { result ≤ defs }
    ensures most { result ≤ 2 ^ 31 }
    ensures rows { rep ≡ 0 → result ≤ rows }
{
    let count = reps.min(defs).min(0x8000_0000);
    if rep == 0 { count.min(rows) } else { count }
}

/// The next equal pairs, as their levels and number, where both runs of levels go on with copies: at most 2^31, and of pairs that begin a row at
/// most `rows`. None, and nothing taken, where there are few.
pub fn next_copies<'a>(levels: &mut Levels<'a>, rows: usize) -> Option<(usize, usize, usize)>
    requires is { IsLevels levels.old }
    ensures is { IsLevels levels.new }
    ensures taken { TakesCopies rows (levels_left levels.old) result (levels_left levels.new) }
{
    if levels.failed {
        return None;
    }
    if levels.at < levels.end {
        return None;
    }
    let rep = levels.reps.number;
    let def = levels.defs.number;
    let count = count_copies(levels.reps.copies, levels.defs.copies, rep, rows);
    if count < 16 {
        return None;
    }
    if !is_within(rep as usize, def as usize, levels.max_rep, levels.max_def) {
        return None;
    }
    drop_copies(&mut levels.reps, count);
    drop_copies(&mut levels.defs, count);
    Some((rep as usize, def as usize, count))
}

// Nothing is left.
fn stop<'a>(levels: &mut Levels<'a>)
    requires is { IsLevels levels.old }
    ensures is { IsLevels levels.new }
    ensures none { levels_left levels.new ≡ [] }
{
    stop_runs(&mut levels.reps);
    stop_runs(&mut levels.defs);
    levels.at = 0;
    levels.end = 0;
    levels.failed = false;
}

/// The next equal pairs of a block, at most `limit`; none at the end.
///
/// # Errors
///
/// S4 where a level of the next pair is missing or above its greatest; nothing is left then.
pub fn next_run<'a>(levels: &mut Levels<'a>, limit: usize) -> Option<Result<(u32, u32, usize)>>
    requires is { IsLevels levels.old }
    requires some { 0 < limit }
    ensures is { IsLevels levels.new }
    ensures taken { TakesRun limit (levels_left levels.old) result (levels_left levels.new) }
{
    prepare(levels);
    if levels.at == levels.end {
        if levels.failed {
            stop(levels);
            return Some(Err(Error::OutOfSpec(S::S4)));
        }
        return None;
    }
    let rep = levels.rep_block[levels.at];
    let def = levels.def_block[levels.at];
    let room = limit.min(levels.end - levels.at);
    let end = levels.at + room;
    let count = alike(&levels.rep_block, &levels.def_block, levels.at, end);
    levels.at += count;
    Some(Ok((rep, def, count)))
}
