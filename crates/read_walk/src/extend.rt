//! The walk.
ghost use Rattle.std.specs.Prelude.{◌≡◌, ◌⊎◌, ℕ, ◌*◌, ◌<◌, ◌≤◌, ◌^◌, OnOk, IfErr, IfOk, IfSome, Option, Some, cond, true, false, length, replicate};
ghost use Rattle.read_laws.specs.State.{kept_way, leaf_count, StateFits};
ghost use Rattle.read_state.specs.Ticks.{TicksAtMost};
ghost use Rattle.read_walk.specs.Blocks.{TookBlock, CannotTake};
ghost use Rattle.read_walk.specs.Order.{zipped, last_level, Follows, EndedAt, OneMayNot, AreLevels, MayTake};
ghost use Rattle.read_walk.specs.Walk.{Extends, Refuses};
ghost use Rattle.read_walk.specs.Pairs.{TakesBlock, rows_in};
ghost use Rattle.read_walk.specs.Steps.{TakesStep, CannotStep};
ghost use Rattle.read_walk.specs.Ticks.{TicksEach};

use crate::block::PairBlock;
use crate::order::{WayLevels, check_copies, check_pairs, way_levels};
use crate::page::NestedPage;
use crate::take::{take_copies, take_next};
use crate::traits::NestedDecoder;
use columns_base::Result;
use read_state::{BlockLevels, NestedState, Steps};
use std::sync::ledger::Ledger;

// The definition level of the last pair.
fn last_of(reps: &[u32], defs: &[u32], before: Option<usize>) -> Option<usize>
    requires { length defs.now ≡ length reps.now }
    ensures { result ≡ last_level before (zipped reps.now defs.now) }
{
    if reps.len() == 0 {
        return before;
    }
    Some(defs[reps.len() - 1] as usize)
}

// The same of the next pairs, which are told as bits or bytes or stand in a block.
#[inline(always)]
fn last_next(
    told: bool,
    reps: &BlockLevels,
    defs: &BlockLevels,
    block: &PairBlock,
    before: Option<usize>,
) -> Option<usize>
    requires told { told ≡ true → (length reps.now ≡ 64) × (length defs.now ≡ 64) }
    requires defs { length (cond told defs.now block.now.1) ≡ length (cond told reps.now block.now.0) }
    ensures { result ≡ last_level before (zipped (cond told reps.now block.now.0) (cond told defs.now block.now.1)) }
{
    if told {
        return Some(defs.last());
    }
    last_of(block.reps(), block.defs(), before)
}

// Whether the next pairs may come behind one of the definition level `before`. Those that are told may.
#[inline(always)]
fn check_next(
    nested: &NestedState,
    levels: WayLevels,
    before: Option<usize>,
    told: bool,
    reps: &BlockLevels,
    defs: &BlockLevels,
    block: &PairBlock,
) -> Result<()>
    requires levels { AreLevels (kept_way nested.now) levels.lists levels.top levels.floor }
    requires may { told ≡ true → MayTake nested.now levels.top before reps.now defs.now }
    requires defs { length (cond told defs.now block.now.1) ≡ length (cond told reps.now block.now.0) }
    ensures ok { OnOk result (Follows (kept_way nested.now) before (zipped (cond told reps.now block.now.0)
        (cond told defs.now block.now.1))) }
    ensures err { IfErr result (OneMayNot (kept_way nested.now) before (zipped (cond told reps.now block.now.0)
        (cond told defs.now block.now.1))) }
{
    if told {
        return Ok(());
    }
    check_pairs(nested, levels, before, block.reps(), block.defs())
}

// Takes the next pairs, one or more, behind one of the definition level `before`.
fn walk_next<'a, D: NestedDecoder<'a>, L: Ledger>(
    values: &mut D::State,
    nested: &mut NestedState,
    decoded: &mut D::DecodedState,
    decoder: &D,
    levels: WayLevels,
    before: Option<usize>,
    told: bool,
    reps: &BlockLevels,
    defs: &BlockLevels,
    block: &PairBlock,
    steps: &mut Steps<L>,
) -> Result<()>
    requires levels { AreLevels (kept_way nested.old) levels.lists levels.top levels.floor }
    requires may { told ≡ true → MayTake nested.old levels.top before reps.now defs.now }
    requires reps { length (cond told reps.now block.now.0) ≤ 64 }
    requires defs { length (cond told defs.now block.now.1) ≡ length (cond told reps.now block.now.0) }
    requires fits { StateFits nested.old }
    requires ended { EndedAt before nested.old }
    requires decoded { length (D.slots decoded.old) ≡ leaf_count nested.old }
    requires suits { D.suits decoder.now decoded.old }
    ensures ok { OnOk result (Follows (kept_way nested.old) before (zipped (cond told reps.now block.now.0)
        (cond told defs.now block.now.1))
        × TookBlock before (cond told reps.now block.now.0) (cond told defs.now block.now.1) nested.old nested.new
        (D.slots decoded.old) (D.slots decoded.new) (D.left decoder.now values.old) (D.left decoder.now values.new)) }
    ensures err { IfErr result (λ e. OneMayNot (kept_way nested.old) before
        (zipped (cond told reps.now block.now.0) (cond told defs.now block.now.1)) e
        ⊎ CannotTake D.byte_limit (cond told reps.now block.now.0) (cond told defs.now block.now.1) nested.old
        (D.left decoder.now values.old) (D.slots decoded.old) e) }
    ensures ticked { TicksAtMost (length nested.old) steps.old steps.new }
    ensures suits { D.suits decoder.now decoded.new }
{
    match check_next(nested, levels, before, told, reps, defs, block) {
        Ok(()) => take_next(
            values, nested, decoded, decoder, levels, before, told, reps, defs, block, steps,
        ),
        Err(error) => Err(error),
    }
}

// Takes so many equal pairs, one or more, behind one of the definition level `before`.
fn walk_copies<'a, D: NestedDecoder<'a>, L: Ledger>(
    values: &mut D::State,
    nested: &mut NestedState,
    decoded: &mut D::DecodedState,
    decoder: &D,
    levels: WayLevels,
    before: Option<usize>,
    rep: usize,
    level: usize,
    count: usize,
    steps: &mut Steps<L>,
) -> Result<()>
    requires levels { AreLevels (kept_way nested.old) levels.lists levels.top levels.floor }
    requires some { 0 < count }
    requires few { count ≤ 2 ^ 31 }
    requires fits { StateFits nested.old }
    requires ended { EndedAt before nested.old }
    requires decoded { length (D.slots decoded.old) ≡ leaf_count nested.old }
    requires suits { D.suits decoder.now decoded.old }
    ensures ok { OnOk result (Follows (kept_way nested.old) before
        (zipped (replicate count rep) (replicate count level))
        × TookBlock before (replicate count rep) (replicate count level) nested.old nested.new (D.slots decoded.old)
        (D.slots decoded.new) (D.left decoder.now values.old) (D.left decoder.now values.new)) }
    ensures err { IfErr result (λ e. OneMayNot (kept_way nested.old) before
        (zipped (replicate count rep) (replicate count level)) e
        ⊎ CannotTake D.byte_limit (replicate count rep) (replicate count level) nested.old
        (D.left decoder.now values.old) (D.slots decoded.old) e) }
    ensures ticked { TicksAtMost (length nested.old) steps.old steps.new }
    ensures suits { D.suits decoder.now decoded.new }
{
    match check_copies(nested, levels, before, rep, level, count) {
        Ok(()) => take_copies(
            values, nested, decoded, decoder, levels, before, rep, level, count, steps,
        ),
        Err(error) => Err(error),
    }
}

// How many of so many equal pairs begin a row.
fn begun_by(rep: usize, count: usize) -> usize
    ensures { result ≡ rows_in (replicate count rep) }
{
    if rep == 0 { count } else { 0 }
}

// The next pairs: 64 of them as bits or bytes where they can be had so and may come, else a block. Keeps which.
#[inline(always)]
fn next_pairs<'a>(
    page: &mut NestedPage<'a>,
    rows: usize,
    nested: &NestedState,
    levels: WayLevels,
    before: Option<usize>,
    told: &mut bool,
    reps: &mut BlockLevels,
    defs: &mut BlockLevels,
    block: &mut PairBlock,
) -> Option<Result<usize>>
    requires levels { AreLevels (kept_way nested.now) levels.lists levels.top levels.floor }
    ensures taken { TakesBlock rows page.old result (cond told.new reps.new block.new.0)
        (cond told.new defs.new block.new.1) page.new }
    ensures may { told.new ≡ true → MayTake nested.now levels.top before reps.new defs.new }
{
    match page.next_told(rows, nested, levels, before, reps, defs) {
        Some(begun) => {
            *told = true;
            Some(Ok(begun))
        }
        None => {
            *told = false;
            page.next_block(rows, block)
        }
    }
}

// Takes the next pairs, and keeps how many rows are still wanted and the definition level of the last pair; false where there is none.
fn step_others<'a, 'b, D: NestedDecoder<'b>, L: Ledger>(
    page: &mut NestedPage<'a>,
    values: &mut D::State,
    nested: &mut NestedState,
    decoded: &mut D::DecodedState,
    decoder: &D,
    levels: WayLevels,
    block: &mut PairBlock,
    before: &mut Option<usize>,
    rows: &mut usize,
    steps: &mut Steps<L>,
) -> Result<bool>
    requires levels { AreLevels (kept_way nested.old) levels.lists levels.top levels.floor }
    requires fits { StateFits nested.old }
    requires ended { EndedAt before.old nested.old }
    requires decoded { length (D.slots decoded.old) ≡ leaf_count nested.old }
    requires suits { D.suits decoder.now decoded.old }
    ensures ok { IfOk result (λ more. TakesStep more rows.old rows.new before.old before.new page.old page.new
        (D.left decoder.now values.old) (D.left decoder.now values.new) nested.old nested.new (D.slots decoded.old)
        (D.slots decoded.new)) }
    ensures err { IfErr result (CannotStep D.byte_limit rows.old before.old page.old
        (D.left decoder.now values.old) nested.old (D.slots decoded.old)) }
    ensures ticked { TicksAtMost (length nested.old) steps.old steps.new }
    ensures idle { IfOk result (λ more. more ≡ false → steps.new ≡ steps.old) }
    ensures suits { D.suits decoder.now decoded.new }
{
    let mut told = false;
    let mut reps = BlockLevels::of_word(0);
    let mut defs = BlockLevels::of_word(0);
    let begun = match next_pairs(
        page, *rows, nested, levels, *before, &mut told, &mut reps, &mut defs, block,
    ) {
        None => return Ok(false),
        Some(Err(error)) => return Err(error),
        Some(Ok(begun)) => begun,
    };
    match walk_next(
        values, nested, decoded, decoder, levels, *before, told, &reps, &defs, block, steps,
    ) {
        Ok(()) => {}
        Err(error) => return Err(error),
    }
    *before = last_next(told, &reps, &defs, block, *before);
    *rows -= begun;
    Ok(true)
}

// The same with equal pairs at once where both levels stand in copies.
fn step_pairs<'a, 'b, D: NestedDecoder<'b>, L: Ledger>(
    page: &mut NestedPage<'a>,
    values: &mut D::State,
    nested: &mut NestedState,
    decoded: &mut D::DecodedState,
    decoder: &D,
    levels: WayLevels,
    block: &mut PairBlock,
    before: &mut Option<usize>,
    rows: &mut usize,
    steps: &mut Steps<L>,
) -> Result<bool>
    requires levels { AreLevels (kept_way nested.old) levels.lists levels.top levels.floor }
    requires fits { StateFits nested.old }
    requires ended { EndedAt before.old nested.old }
    requires decoded { length (D.slots decoded.old) ≡ leaf_count nested.old }
    requires suits { D.suits decoder.now decoded.old }
    ensures ok { IfOk result (λ more. TakesStep more rows.old rows.new before.old before.new page.old page.new
        (D.left decoder.now values.old) (D.left decoder.now values.new) nested.old nested.new (D.slots decoded.old)
        (D.slots decoded.new)) }
    ensures err { IfErr result (CannotStep D.byte_limit rows.old before.old page.old
        (D.left decoder.now values.old) nested.old (D.slots decoded.old)) }
    ensures ticked { TicksAtMost (length nested.old) steps.old steps.new }
    ensures idle { IfOk result (λ more. more ≡ false → steps.new ≡ steps.old) }
    ensures suits { D.suits decoder.now decoded.new }
{
    let Some((rep, level, count)) = page.next_copies(*rows) else {
        return step_others(
            page, values, nested, decoded, decoder, levels, block, before, rows, steps,
        );
    };
    match walk_copies(
        values, nested, decoded, decoder, levels, *before, rep, level, count, steps,
    ) {
        Ok(()) => {}
        Err(error) => return Err(error),
    }
    *before = Some(level);
    *rows -= begun_by(rep, count);
    Ok(true)
}

/// Takes pairs of the page until `additional` rows are whole or the page ends. A row is whole where another begins or the page ends. Of each pair
/// at most one step for each part of the state.
///
/// # Errors
///
/// Of the pairs that it would take, S4 where a level is missing or above its greatest, S5 where the first goes on with a row, S10 where a later
/// one or the pair before it does not lie inside the list that it repeats in, V1 where with them a part beneath a list has more slots than
/// offsets of 64 bits count, what the decoder is refused for (S6, S7, V1), and `Memory`. Nothing is said of `page`, `values`, `nested` and
/// `decoded` then; `steps` has those that were made.
pub fn extend_levels<'a, 'b, D: NestedDecoder<'b>, L: Ledger>(
    page: &mut NestedPage<'a>,
    values: &mut D::State,
    nested: &mut NestedState,
    decoded: &mut D::DecodedState,
    decoder: &D,
    additional: usize,
    steps: &mut Steps<L>,
) -> Result<()>
    requires fits { StateFits nested.old }
    requires decoded { length (D.slots decoded.old) ≡ leaf_count nested.old }
    requires suits { D.suits decoder.now decoded.old }
    ensures ok { OnOk result (Extends additional page.old page.new (D.left decoder.now values.old)
        (D.left decoder.now values.new) nested.old nested.new (D.slots decoded.old) (D.slots decoded.new)) }
    ensures err { IfErr result (Refuses D.byte_limit additional page.old (D.left decoder.now values.old) nested.old
        (D.slots decoded.old)) }
    ensures ticked { OnOk result (TicksEach (length nested.old) page.old page.new steps.old steps.new) }
    ensures bounded { TicksAtMost (length nested.old * length page.old) steps.old steps.new }
    ensures suits { D.suits decoder.now decoded.new }
{
    let mut block = PairBlock::new();
    let mut rows = additional;
    let mut before = None;
    let levels = way_levels(nested);
    'pairs: loop {
        match step_pairs(
            page,
            values,
            nested,
            decoded,
            decoder,
            levels,
            &mut block,
            &mut before,
            &mut rows,
            steps,
        ) {
            Ok(true) => {}
            Ok(false) => return Ok(()),
            Err(error) => return Err(error),
        }
    }
}
