//! A block of 64 pairs by words of bits.
ghost use Rattle.std.specs.Prelude.{◌≡◌, ℕ, ◌+◌, ◌*◌, ◌-◌, ◌<◌, ◌^◌, ◌++◌, IfErr, OnOk, IsTrue, count_ones, true, false, Some, List, length, map, nat_lt};
ghost use Rattle.columns_base.specs.declared.error.Error.{Error};
ghost use Rattle.columns_core.specs.Bits.{word_bits};
ghost use Rattle.read_laws.specs.State.{Kept};
ghost use Rattle.read_laws.specs.Step.{bit, is_list, is_struct, gain};
ghost use Rattle.read_laws.specs.Block.{Mark, beneath, pushed_all, block};
ghost use Rattle.read_state.specs.Kinds.{kept_box, all_kept, starts_of, HasLongItems};
ghost use Rattle.read_state.specs.Reach.{chosen, places, reached, AreMarked};
ghost use Rattle.read_state.specs.Ticks.{TicksAtMost};

use crate::block_levels::BlockLevels;
use crate::boxes::NestedBox;
use crate::kinds::{Nested, NestedOptional};
use crate::lists::{ones_of, pick_bits, push_starts};
use crate::parts::{bit, both, first_len};
use crate::pushes::more;
use crate::steps::Steps;
use columns_base::{Error, Result};
use columns_core::MutableBitmap;
use std::sync::ledger::Ledger;

// Pushes to a list; `pushed` has a bit for each pair that pushes to it, and `grown` for each that pushes to the part beneath. Tells whether there
// was memory.
fn push_places(lengths: &mut Vec<i64>, pushed: u64, grown: u64, first: usize) -> bool
    requires { first + 64 < 2 ^ 64 }
    ensures { IsTrue result → starts_of lengths.new.items ≡ starts_of lengths.old.items
        ++ places first (word_bits pushed 64) (word_bits grown 64) }
{
    if lengths.reserve(64).is_err() {
        return false;
    }
    push_starts(lengths, pushed, grown, first);
    true
}

// Pushes to a nullable part beneath `def` definition levels. Tells whether there was memory.
#[inline(always)]
fn push_valid(validity: &mut MutableBitmap, defs: &BlockLevels, pushed: u64, def: usize) -> bool
    requires defs { length defs.now ≡ 64 }
    requires few { def + 2 < 2 ^ 8 }
    ensures { IsTrue result → validity.new.0 ≡ validity.old.0 ++ chosen (word_bits pushed 64)
        (map (λ d. nat_lt def d) defs.now) }
{
    let there = defs.from((def + 1) as u8);
    validity
        .extend_from_word(pick_bits(pushed, there), ones_of(pushed))
        .is_ok()
}

// Pushes to a nullable list.
fn push_list(
    list: &mut NestedOptional,
    defs: &BlockLevels,
    pushed: u64,
    grown: u64,
    def: usize,
    first: usize,
) -> bool
    requires defs { length defs.now ≡ 64 }
    requires few { def + 2 < 2 ^ 8 }
    requires places { first + 64 < 2 ^ 64 }
    ensures validity { IsTrue result → list.new.validity.0 ≡ list.old.validity.0
        ++ chosen (word_bits pushed 64) (map (λ d. nat_lt def d) defs.now) }
    ensures places { IsTrue result → starts_of list.new.lengths.items
        ≡ starts_of list.old.lengths.items ++ places first (word_bits pushed 64) (word_bits grown 64) }
{
    if !push_places(&mut list.lengths, pushed, grown, first) {
        return false;
    }
    push_valid(&mut list.validity, defs, pushed, def)
}

// A number of pushes grows by the set bits of a word. Tells whether a `usize` counts them.
fn push_counted(pushes: &mut usize, pushed: u64) -> bool
    ensures { IsTrue result → pushes.new ≡ pushes.old + count_ones pushed }
{
    match more(*pushes, ones_of(pushed)) {
        Ok(sum) => {
            *pushes = sum;
            true
        }
        Err(_) => false,
    }
}

// Pushes to one part, which lies beneath `def` definition levels. Tells whether there was memory.
fn push_part(
    part: &mut NestedBox,
    defs: &BlockLevels,
    pushed: u64,
    grown: u64,
    def: usize,
    first: usize,
) -> bool
    requires defs { length defs.now ≡ 64 }
    requires places { is_list (kept_box part.old) ≡ true → first < 2 ^ 63 }
    requires few { def + 2 < 2 ^ 8 }
    ensures { (ms : List Mark) (reps : List ℕ) (depth : ℕ) → AreMarked ms reps defs.now pushed depth def
        → (is_list (kept_box part.old) ≡ true
        → AreMarked (map (beneath (kept_box part.old) depth def) ms) reps defs.now grown (depth + 1)
        (def + gain (kept_box part.old))) → IsTrue result → kept_box part.new
        ≡ pushed_all (kept_box part.old) first depth def ms }
{
    match part {
        NestedBox::Primitive(leaf) => push_counted(&mut leaf.pushes, pushed),
        NestedBox::Optional(list) => push_list(list, defs, pushed, grown, def, first),
        NestedBox::Valid(list) => push_places(&mut list.lengths, pushed, grown, first),
        NestedBox::Struct(part) => push_valid(&mut part.validity, defs, pushed, def),
        NestedBox::StructValid(part) => push_counted(&mut part.pushes, pushed),
    }
}

// A bit for each of 64 pairs, set where it pushes to a part beneath `depth` lists and `def` definition levels. No pair lies beneath a null.
#[inline(always)]
fn reached_word(reps: &BlockLevels, defs: &BlockLevels, depth: u8, def: u8) -> u64
    requires reps { length reps.now ≡ 64 }
    requires defs { length defs.now ≡ 64 }
    ensures { word_bits result 64 ≡ reached depth def reps.now defs.now }
{
    reps.to(depth) & defs.from(def)
}

// A bit for each pair that pushes to the part beneath one that `pushed` has a bit for each pair of. A struct is as long as the part beneath it; beneath
// the last part that is no list there is none.
fn beneath_word(
    reps: &BlockLevels,
    defs: &BlockLevels,
    pushed: u64,
    required: bool,
    last: bool,
    depth: usize,
    def: usize,
) -> u64
    requires reps { length reps.now ≡ 64 }
    requires defs { length defs.now ≡ 64 }
    requires deep { depth < 255 }
    requires few { def < 2 ^ 8 }
    ensures { (k : Kept) (ms : List Mark) (outer above : ℕ) → AreMarked ms reps.now defs.now pushed outer above
        → required ≡ is_struct k → depth ≡ outer + bit (is_list k) → def ≡ above + gain k
        → (required ≡ false → last ≡ false)
        → AreMarked (map (beneath k outer above) ms) reps.now defs.now result depth def }
{
    if required {
        return pushed;
    }
    if last {
        return 0;
    }
    reached_word(reps, defs, depth as u8, def as u8)
}

// Pushes the pairs to the parts, as `words_to` does. Tells whether there was memory, so that the parts are gone through without a call for each.
fn push_parts<L: Ledger>(
    parts: &mut [NestedBox],
    reps: &BlockLevels,
    defs: &BlockLevels,
    pushed: u64,
    depth: usize,
    def: usize,
    steps: &mut Steps<L>,
) -> bool
    requires reps { length reps.now ≡ 64 }
    requires defs { length defs.now ≡ 64 }
    requires few { def + 2 * length parts.old + 2 < 2 ^ 8 }
    requires deep { depth + length parts.old + 1 < 2 ^ 8 }
    requires counted { HasLongItems (all_kept parts.old) → ⊥ }
    ensures ok { (ms : List Mark) → (0 < length parts.old → AreMarked ms reps.now defs.now pushed depth def)
        → IsTrue result → all_kept parts.new ≡ block ms depth def (all_kept parts.old) }
    ensures ticked { TicksAtMost (length parts.old) steps.old steps.new }
{
    let Some((part, rest)) = parts.split_first_mut() else {
        return true;
    };
    let nullable = part.is_nullable();
    let repeated = part.is_repeated();
    let required = part.is_required();
    let next_depth = depth + bit(repeated);
    let next_def = def + (bit(nullable) + bit(repeated));
    let last = both(!repeated, rest.len() == 0);
    let grown = beneath_word(reps, defs, pushed, required, last, next_depth, next_def);
    let first = first_len(rest);
    steps.tick();
    if !push_part(part, defs, pushed, grown, def, first) {
        return false;
    }
    push_parts(rest, reps, defs, grown, next_depth, next_def, steps)
}

/// Pushes the pairs to the parts, which lie beneath `depth` lists and `def` definition levels; `pushed` has a bit for each that pushes to the
/// first of them.
///
/// # Errors
///
/// `Memory`; some parts may then have the pushes.
pub fn words_to<L: Ledger>(
    parts: &mut [NestedBox],
    reps: &BlockLevels,
    defs: &BlockLevels,
    pushed: u64,
    depth: usize,
    def: usize,
    steps: &mut Steps<L>,
) -> Result<()>
    requires reps { length reps.now ≡ 64 }
    requires defs { length defs.now ≡ 64 }
    requires few { def + 2 * length parts.old + 2 < 2 ^ 8 }
    requires deep { depth + length parts.old + 1 < 2 ^ 8 }
    requires counted { HasLongItems (all_kept parts.old) → ⊥ }
    ensures ok { (ms : List Mark) → (0 < length parts.old → AreMarked ms reps.now defs.now pushed depth def)
        → OnOk result (all_kept parts.new ≡ block ms depth def (all_kept parts.old)) }
    ensures err { IfErr result (λ e. e ≡ Error.Memory) }
    ensures ticked { TicksAtMost (length parts.old) steps.old steps.new }
{
    if !push_parts(parts, reps, defs, pushed, depth, def, steps) {
        return Err(Error::Memory);
    }
    Ok(())
}
