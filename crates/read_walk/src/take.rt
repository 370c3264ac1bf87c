//! One block.
ghost use Rattle.std.specs.Prelude.{◌≡◌, ◌⊎◌, ℕ, ◌<◌, ◌≤◌, ◌^◌, OnOk, IfErr, Option, cond, true, false, length, replicate};
ghost use Rattle.columns_base.specs.declared.error.Error.{Error};
ghost use Rattle.columns_base.specs.declared.error.V.{V};
ghost use Rattle.read_laws.specs.State.{kept_way, leaf_count, StateFits};
ghost use Rattle.read_laws.specs.Block.{block as marked, AllFit};
ghost use Rattle.read_state.specs.Kinds.{HasLongItems};
ghost use Rattle.read_state.specs.Marks.{marks_of};
ghost use Rattle.read_state.specs.Ticks.{TicksAtMost};
ghost use Rattle.read_walk.specs.Blocks.{TookBlock, CannotTake};
ghost use Rattle.read_walk.specs.Order.{zipped, Follows, EndedAt, AreLevels, MayTake};

use crate::block::PairBlock;
use crate::decode::{decode_copies, decode_levels, decode_next};
use crate::order::{WayLevels, way_levels};
use crate::traits::NestedDecoder;
use columns_base::Result;
use read_state::{BlockLevels, NestedState, Steps};
use std::sync::ledger::Ledger;

/// Takes a block of pairs that may come behind one of the definition level `before`, by the levels of the way.
///
/// # Errors
///
/// As `take_block`.
pub fn take_pairs<'a, D: NestedDecoder<'a>, L: Ledger>(
    values: &mut D::State,
    nested: &mut NestedState,
    decoded: &mut D::DecodedState,
    decoder: &D,
    levels: WayLevels,
    before: Option<usize>,
    reps: &[u32],
    defs: &[u32],
    steps: &mut Steps<L>,
) -> Result<()>
    requires levels { AreLevels (kept_way nested.old) levels.lists levels.top levels.floor }
    requires reps { length reps.now ≤ 64 }
    requires defs { length defs.now ≡ length reps.now }
    requires fits { StateFits nested.old }
    requires follow { Follows (kept_way nested.old) before (zipped reps.now defs.now) }
    requires ended { EndedAt before nested.old }
    requires decoded { length (D.slots decoded.old) ≡ leaf_count nested.old }
    requires suits { D.suits decoder.now decoded.old }
    ensures ok { OnOk result (TookBlock before reps.now defs.now nested.old nested.new (D.slots decoded.old)
        (D.slots decoded.new) (D.left decoder.now values.old) (D.left decoder.now values.new)) }
    ensures err { IfErr result (CannotTake D.byte_limit reps.now defs.now nested.old (D.left decoder.now values.old)
        (D.slots decoded.old)) }
    ensures ticked { TicksAtMost (length nested.old) steps.old steps.new }
    ensures suits { D.suits decoder.now decoded.new }
{
    match decode_levels(values, decoded, decoder, defs, levels.floor, levels.top) {
        Ok(()) => nested.push_levels(reps, defs, steps),
        Err(error) => Err(error),
    }
}

// Pushes the next pairs, which are told as bits or bytes or stand in a block, to all parts.
#[inline(always)]
fn push_next<L: Ledger>(
    nested: &mut NestedState,
    told: bool,
    reps: &BlockLevels,
    defs: &BlockLevels,
    block: &PairBlock,
    steps: &mut Steps<L>,
) -> Result<()>
    requires told { told ≡ true → (length reps.now ≡ 64) × (length defs.now ≡ 64) × (length nested.old < 64) }
    requires reps { length (cond told reps.now block.now.0) ≤ 64 }
    requires defs { length (cond told defs.now block.now.1) ≡ length (cond told reps.now block.now.0) }
    requires fits { AllFit (marks_of (cond told reps.now block.now.0) (cond told defs.now block.now.1)
        (replicate 64 false)) nested.old }
    ensures ok { OnOk result (nested.new ≡ marked (marks_of (cond told reps.now block.now.0)
        (cond told defs.now block.now.1) (replicate 64 false)) 0 0 nested.old) }
    ensures counted { OnOk result (HasLongItems nested.new → ⊥) }
    ensures err { IfErr result (λ e. (e ≡ Error.Memory) ⊎ ((e ≡ Error.Overflow V.V1)
        × HasLongItems (marked (marks_of (cond told reps.now block.now.0) (cond told defs.now block.now.1)
        (replicate 64 false)) 0 0 nested.old))) }
    ensures ticked { TicksAtMost (length nested.old) steps.old steps.new }
{
    if told {
        return nested.push_block(reps, defs, steps);
    }
    nested.push_levels(block.reps(), block.defs(), steps)
}

/// The same of the next pairs, which are told as bits or bytes or stand in a block.
///
/// # Errors
///
/// As `take_block`.
pub fn take_next<'a, D: NestedDecoder<'a>, L: Ledger>(
    values: &mut D::State,
    nested: &mut NestedState,
    decoded: &mut D::DecodedState,
    decoder: &D,
    levels: WayLevels,
    before: Option<usize>,
    told: bool,
    reps: &BlockLevels,
    defs: &BlockLevels,
    block: &PairBlock,
    steps: &mut Steps<L>,
) -> Result<()>
    requires levels { AreLevels (kept_way nested.old) levels.lists levels.top levels.floor }
    requires may { told ≡ true → MayTake nested.old levels.top before reps.now defs.now }
    requires reps { length (cond told reps.now block.now.0) ≤ 64 }
    requires defs { length (cond told defs.now block.now.1) ≡ length (cond told reps.now block.now.0) }
    requires fits { StateFits nested.old }
    requires follow { Follows (kept_way nested.old) before (zipped (cond told reps.now block.now.0)
        (cond told defs.now block.now.1)) }
    requires ended { EndedAt before nested.old }
    requires decoded { length (D.slots decoded.old) ≡ leaf_count nested.old }
    requires suits { D.suits decoder.now decoded.old }
    ensures ok { OnOk result (TookBlock before (cond told reps.now block.now.0) (cond told defs.now block.now.1)
        nested.old nested.new (D.slots decoded.old) (D.slots decoded.new) (D.left decoder.now values.old)
        (D.left decoder.now values.new)) }
    ensures err { IfErr result (CannotTake D.byte_limit (cond told reps.now block.now.0)
        (cond told defs.now block.now.1) nested.old (D.left decoder.now values.old) (D.slots decoded.old)) }
    ensures ticked { TicksAtMost (length nested.old) steps.old steps.new }
    ensures suits { D.suits decoder.now decoded.new }
{
    match decode_next(
        values,
        decoded,
        decoder,
        told,
        defs,
        block,
        levels.floor,
        levels.top,
    ) {
        Ok(()) => push_next(nested, told, reps, defs, block, steps),
        Err(error) => Err(error),
    }
}

/// Takes a block of pairs that may come behind one of the definition level `before`.
///
/// # Errors
///
/// V1 where with these pairs a part beneath a list has more slots than offsets of 64 bits count, and those of the decoder. Nothing is said of
/// the state and what is decoded then.
pub fn take_block<'a, D: NestedDecoder<'a>, L: Ledger>(
    values: &mut D::State,
    nested: &mut NestedState,
    decoded: &mut D::DecodedState,
    decoder: &D,
    before: Option<usize>,
    reps: &[u32],
    defs: &[u32],
    steps: &mut Steps<L>,
) -> Result<()>
    requires reps { length reps.now ≤ 64 }
    requires defs { length defs.now ≡ length reps.now }
    requires fits { StateFits nested.old }
    requires follow { Follows (kept_way nested.old) before (zipped reps.now defs.now) }
    requires ended { EndedAt before nested.old }
    requires decoded { length (D.slots decoded.old) ≡ leaf_count nested.old }
    requires suits { D.suits decoder.now decoded.old }
    ensures ok { OnOk result (TookBlock before reps.now defs.now nested.old nested.new (D.slots decoded.old)
        (D.slots decoded.new) (D.left decoder.now values.old) (D.left decoder.now values.new)) }
    ensures err { IfErr result (CannotTake D.byte_limit reps.now defs.now nested.old (D.left decoder.now values.old)
        (D.slots decoded.old)) }
    ensures ticked { TicksAtMost (length nested.old) steps.old steps.new }
    ensures suits { D.suits decoder.now decoded.new }
{
    let levels = way_levels(nested);
    take_pairs(
        values, nested, decoded, decoder, levels, before, reps, defs, steps,
    )
}

/// Takes so many equal pairs that may come behind one of the definition level `before`.
///
/// # Errors
///
/// As `take_block`.
pub fn take_copies<'a, D: NestedDecoder<'a>, L: Ledger>(
    values: &mut D::State,
    nested: &mut NestedState,
    decoded: &mut D::DecodedState,
    decoder: &D,
    levels: WayLevels,
    before: Option<usize>,
    rep: usize,
    level: usize,
    count: usize,
    steps: &mut Steps<L>,
) -> Result<()>
    requires levels { AreLevels (kept_way nested.old) levels.lists levels.top levels.floor }
    requires few { count ≤ 2 ^ 31 }
    requires fits { StateFits nested.old }
    requires follow { Follows (kept_way nested.old) before (zipped (replicate count rep) (replicate count level)) }
    requires ended { EndedAt before nested.old }
    requires decoded { length (D.slots decoded.old) ≡ leaf_count nested.old }
    requires suits { D.suits decoder.now decoded.old }
    ensures ok { OnOk result (TookBlock before (replicate count rep) (replicate count level) nested.old nested.new
        (D.slots decoded.old) (D.slots decoded.new) (D.left decoder.now values.old) (D.left decoder.now values.new)) }
    ensures err { IfErr result (CannotTake D.byte_limit (replicate count rep) (replicate count level) nested.old
        (D.left decoder.now values.old) (D.slots decoded.old)) }
    ensures ticked { TicksAtMost (length nested.old) steps.old steps.new }
    ensures suits { D.suits decoder.now decoded.new }
{
    match decode_copies(
        values,
        decoded,
        decoder,
        level,
        count,
        levels.floor,
        levels.top,
    ) {
        Ok(()) => nested.push_equal(rep, level, count, steps),
        Err(error) => Err(error),
    }
}
