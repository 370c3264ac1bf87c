//! A block of pairs, part by part.
ghost use Rattle.std.specs.Prelude.{◌≡◌, ℕ, ◌+◌, ◌*◌, ◌<◌, ◌≤◌, ◌^◌, ◌∷◌, IfErr, OnOk, IsTrue, Bool, replicate, slice_index, Some, None, slice_index_or, false, true, length};
ghost use Rattle.columns_base.specs.declared.error.Error.{Error};
ghost use Rattle.columns_core.specs.Bits.{word_bits};
ghost use Rattle.read_laws.specs.State.{kept_leaf, kept_list, kept_struct};
ghost use Rattle.read_laws.specs.Step.{bit, is_list};
ghost use Rattle.read_laws.specs.Block.{pushed_all, block, AllFit};
ghost use Rattle.read_state.specs.Kinds.{kept_box, all_kept, starts_of, HasLongItems};
ghost use Rattle.read_state.specs.Marks.{marks_of, hides_at, validities};
ghost use Rattle.read_state.specs.Ticks.{TicksAtMost};

use crate::block_levels::BlockLevels;
use crate::boxes::NestedBox;
use crate::kinds::Nested;
use crate::lists::ones_of;
use crate::parts::{bit, both, first_len, pushes};
use crate::plain::words_to;
use crate::pushes::{more, push_length};
use crate::steps::Steps;
use crate::stretch::push_to;
use crate::words::{levels_from, narrowed, narrowed_beside, outer_word};
use columns_base::Result;
use columns_core::MutableBitmap;
use std::sync::ledger::Ledger;

// Of each pair whether what it pushes to the part beneath a struct lies beneath a null.
fn hidden_by_struct(
    reps: &[u32],
    defs: &[u32],
    hidden: &[bool],
    depth: usize,
    def: usize,
    nullable: bool,
) -> [bool; 64]
    requires reps { length reps.now ≤ 64 }
    requires defs { length defs.now ≡ length reps.now }
    requires hidden { length reps.now ≤ length hidden.now }
    ensures size { length result ≡ 64 }
    ensures flags { (k : ℕ) → k < length reps.now → slice_index_or result k false
        ≡ hides_at reps.now defs.now hidden.now depth def nullable true k }
{
    let mut beneath = [false; 64];
    for j in 0..reps.len() {
        let level = defs[j] as usize;
        let there = both(nullable, def < level);
        let pushed = pushes(reps[j] as usize, level, hidden[j], depth, def);
        beneath[j] = both(pushed, !there);
    }
    beneath
}

// Of each pair whether what it pushes to the part beneath lies beneath a null.
fn hidden_beneath(
    reps: &[u32],
    defs: &[u32],
    hidden: &[bool],
    depth: usize,
    def: usize,
    nullable: bool,
    required: bool,
) -> [bool; 64]
    requires reps { length reps.now ≤ 64 }
    requires defs { length defs.now ≡ length reps.now }
    requires hidden { length reps.now ≤ length hidden.now }
    ensures size { length result ≡ 64 }
    ensures flags { (k : ℕ) → k < length reps.now → slice_index_or result k false
        ≡ hides_at reps.now defs.now hidden.now depth def nullable required k }
{
    if required {
        return hidden_by_struct(reps, defs, hidden, depth, def, nullable);
    }
    [false; 64]
}

// 1 for true, 0 for false.
fn one_if(b: bool) -> u32
    ensures { result ≡ bit b }
{
    if b { 1 } else { 0 }
}

// How many of the pairs push to a part that only counts them.
fn count_each(reps: &[u32], defs: &[u32], hidden: &[bool], depth: usize, def: usize) -> usize
    requires defs { length defs.now ≡ length reps.now }
    requires hidden { length reps.now ≤ length hidden.now }
    ensures leaf { (n : Bool) → (c place : ℕ) → pushed_all (kept_leaf n c) place depth def
        (marks_of reps.now defs.now hidden.now) ≡ kept_leaf n (c + result) }
    ensures required { (c place : ℕ) → pushed_all (kept_struct None c) place depth def
        (marks_of reps.now defs.now hidden.now) ≡ kept_struct None (c + result) }
{
    let mut count = 0;
    for j in 0..reps.len() {
        count += bit(pushes(reps[j] as usize, defs[j] as usize, hidden[j], depth, def));
    }
    count
}

// Pushes the pairs to a nullable list.
fn optional_each(
    lengths: &mut Vec<i64>,
    validity: &mut MutableBitmap,
    reps: &[u32],
    defs: &[u32],
    hidden: &[bool],
    depth: usize,
    def: usize,
    first: usize,
) -> Result<()>
    requires defs { length defs.now ≡ length reps.now }
    requires hidden { length reps.now ≤ length hidden.now }
    requires places { first + length reps.now < 2 ^ 64 }
    requires few { def + 2 < 2 ^ 64 }
    requires deep { depth + 1 < 2 ^ 64 }
    ensures ok { OnOk result (kept_list (Some validity.new.0) (starts_of lengths.new.items)
        ≡ pushed_all (kept_list (Some validity.old.0) (starts_of lengths.old.items)) first depth def
        (marks_of reps.now defs.now hidden.now)) }
    ensures err { IfErr result (λ e. e ≡ Error.Memory) }
{
    let mut place = first;
    for j in 0..reps.len() {
        let rep = reps[j] as usize;
        let level = defs[j] as usize;
        if pushes(rep, level, hidden[j], depth, def) {
            push_length(lengths, place)?;
            validity.push(def < level)?;
        }
        place += bit(pushes(rep, level, false, depth + 1, def + 2));
    }
    Ok(())
}

// Pushes the pairs to a required list.
fn valid_each(
    lengths: &mut Vec<i64>,
    reps: &[u32],
    defs: &[u32],
    hidden: &[bool],
    depth: usize,
    def: usize,
    first: usize,
) -> Result<()>
    requires defs { length defs.now ≡ length reps.now }
    requires hidden { length reps.now ≤ length hidden.now }
    requires places { first + length reps.now < 2 ^ 64 }
    requires few { def + 2 < 2 ^ 64 }
    requires deep { depth + 1 < 2 ^ 64 }
    ensures ok { OnOk result (kept_list None (starts_of lengths.new.items)
        ≡ pushed_all (kept_list None (starts_of lengths.old.items)) first depth def
        (marks_of reps.now defs.now hidden.now)) }
    ensures err { IfErr result (λ e. e ≡ Error.Memory) }
{
    let mut place = first;
    for j in 0..reps.len() {
        let rep = reps[j] as usize;
        let level = defs[j] as usize;
        if pushes(rep, level, hidden[j], depth, def) {
            push_length(lengths, place)?;
        }
        place += bit(pushes(rep, level, false, depth + 1, def + 1));
    }
    Ok(())
}

// A word of bits and their number, with one more in front.
fn add_bit(word: u64, count: usize, set: bool) -> (u64, usize)
    requires below { word < 2 ^ count }
    requires few { count < 64 }
    ensures bits { word_bits result.0 result.1 ≡ set ∷ word_bits word count }
    ensures below { result.0 < 2 ^ result.1 }
    ensures few { result.1 ≡ count + 1 }
{
    (2 * word + u64::from(one_if(set)), count + 1)
}

// The validities of the pairs that push to a nullable part, the first as the lowest bit, and their number.
fn validity_word(
    reps: &[u32],
    defs: &[u32],
    hidden: &[bool],
    depth: usize,
    def: usize,
) -> (u64, usize)
    requires few { length reps.now ≤ 64 }
    requires defs { length defs.now ≡ length reps.now }
    requires hidden { length reps.now ≤ length hidden.now }
    ensures bits { word_bits result.0 result.1 ≡ validities depth def (marks_of reps.now defs.now hidden.now) }
    ensures few { result.1 ≤ 64 }
{
    let mut word = 0;
    let mut count = 0;
    for i in 0..reps.len() {
        let j = reps.len() - 1 - i;
        let level = defs[j] as usize;
        if pushes(reps[j] as usize, level, hidden[j], depth, def) {
            let (more, size) = add_bit(word, count, def < level);
            word = more;
            count = size;
        }
    }
    (word, count)
}

// Pushes the pairs to a nullable struct.
fn push_struct(
    validity: &mut MutableBitmap,
    reps: &[u32],
    defs: &[u32],
    hidden: &[bool],
    depth: usize,
    def: usize,
) -> Result<()>
    requires few { length reps.now ≤ 64 }
    requires defs { length defs.now ≡ length reps.now }
    requires hidden { length reps.now ≤ length hidden.now }
    ensures ok { OnOk result ((place : ℕ) → kept_struct (Some validity.new.0) (length validity.new.0)
        ≡ pushed_all (kept_struct (Some validity.old.0) (length validity.old.0)) place depth def
        (marks_of reps.now defs.now hidden.now)) }
    ensures err { IfErr result (λ e. e ≡ Error.Memory) }
{
    let (word, count) = validity_word(reps, defs, hidden, depth, def);
    validity.extend_from_word(word, count)
}

// Pushes the pairs to one part, where the part beneath it has `first` slots before them.
fn push_part(
    part: &mut NestedBox,
    reps: &[u32],
    defs: &[u32],
    hidden: &[bool],
    depth: usize,
    def: usize,
    first: usize,
) -> Result<()>
    requires reps { length reps.now ≤ 64 }
    requires defs { length defs.now ≡ length reps.now }
    requires hidden { length reps.now ≤ length hidden.now }
    requires places { is_list (kept_box part.old) ≡ true → first < 2 ^ 63 }
    requires few { def + 2 < 2 ^ 64 }
    requires deep { depth + 1 < 2 ^ 64 }
    ensures ok { OnOk result (kept_box part.new ≡ pushed_all (kept_box part.old) first depth def
        (marks_of reps.now defs.now hidden.now)) }
    ensures err { IfErr result (λ e. e ≡ Error.Memory) }
{
    match part {
        NestedBox::Primitive(leaf) => {
            leaf.pushes = more(leaf.pushes, count_each(reps, defs, hidden, depth, def))?;
            Ok(())
        }
        NestedBox::Optional(list) => optional_each(
            &mut list.lengths,
            &mut list.validity,
            reps,
            defs,
            hidden,
            depth,
            def,
            first,
        ),
        NestedBox::Valid(list) => {
            valid_each(&mut list.lengths, reps, defs, hidden, depth, def, first)
        }
        NestedBox::Struct(part) => push_struct(&mut part.validity, reps, defs, hidden, depth, def),
        NestedBox::StructValid(part) => {
            part.pushes = more(part.pushes, count_each(reps, defs, hidden, depth, def))?;
            Ok(())
        }
    }
}

// Pushes 64 pairs to the only part of a state.
fn push_only(part: &mut NestedBox, reps: &[u32], defs: &[u32]) -> Result<()>
    requires reps { length reps.now ≡ 64 }
    requires defs { length defs.now ≡ 64 }
    ensures ok { OnOk result (kept_box part.new ≡ pushed_all (kept_box part.old) 0 0 0
        (marks_of reps.now defs.now (replicate 64 false))) }
    ensures err { IfErr result (λ e. e ≡ Error.Memory) }
{
    match part {
        NestedBox::Primitive(leaf) => {
            let pushed = outer_word(reps) & levels_from(defs, 0);
            leaf.pushes = more(leaf.pushes, ones_of(pushed))?;
            Ok(())
        }
        _ => push_part(part, reps, defs, &[false; 64], 0, 0, 0),
    }
}

// Pushes a block of pairs to the parts, which lie beneath `depth` lists and `def` definition levels.
fn block_to<L: Ledger>(
    parts: &mut [NestedBox],
    reps: &[u32],
    defs: &[u32],
    hidden: &[bool],
    depth: usize,
    def: usize,
    steps: &mut Steps<L>,
) -> Result<()>
    requires reps { length reps.now ≤ 64 }
    requires defs { length defs.now ≡ length reps.now }
    requires hidden { length hidden.now ≡ 64 }
    requires few { def + 2 * length parts.old + 2 < 2 ^ 64 }
    requires deep { depth + length parts.old + 1 < 2 ^ 64 }
    requires counted { HasLongItems (all_kept parts.old) → ⊥ }
    ensures ok { OnOk result (all_kept parts.new ≡ block (marks_of reps.now defs.now hidden.now) depth def
        (all_kept parts.old)) }
    ensures err { IfErr result (λ e. e ≡ Error.Memory) }
    ensures ticked { TicksAtMost (length parts.old) steps.old steps.new }
{
    let Some((part, rest)) = parts.split_first_mut() else {
        return Ok(());
    };
    let nullable = part.is_nullable();
    let repeated = part.is_repeated();
    let required = part.is_required();
    let next_depth = depth + bit(repeated);
    let next_def = def + (bit(nullable) + bit(repeated));
    let first = first_len(rest);
    steps.tick();
    push_part(part, reps, defs, hidden, depth, def, first)?;
    let beneath = hidden_beneath(reps, defs, hidden, depth, def, nullable, required);
    block_to(rest, reps, defs, &beneath, next_depth, next_def, steps)
}

// Whether all pairs are equal.
fn are_alike(reps: &[u32], defs: &[u32]) -> bool
    requires some { 0 < length reps.now }
    requires defs { length defs.now ≡ length reps.now }
    ensures { IsTrue result → (reps.now ≡ replicate (length reps.now) (slice_index reps.now 0))
        × (defs.now ≡ replicate (length reps.now) (slice_index defs.now 0)) }
{
    let rep = reps[0];
    let def = defs[0];
    for j in 0..reps.len() {
        if reps[j] != rep {
            return false;
        }
        if defs[j] != def {
            return false;
        }
    }
    true
}

/// Pushes a block of pairs to all parts of a state, equal ones at once.
///
/// # Errors
///
/// `Memory`; some parts may then have the pushes.
pub fn push_all<L: Ledger>(
    parts: &mut [NestedBox],
    reps: &[u32],
    defs: &[u32],
    steps: &mut Steps<L>,
) -> Result<()>
    requires reps { length reps.now ≤ 64 }
    requires defs { length defs.now ≡ length reps.now }
    requires fits { AllFit (marks_of reps.now defs.now (replicate 64 false)) (all_kept parts.old) }
    requires counted { HasLongItems (all_kept parts.old) → ⊥ }
    ensures ok { OnOk result (all_kept parts.new ≡ block (marks_of reps.now defs.now (replicate 64 false)) 0 0
        (all_kept parts.old)) }
    ensures err { IfErr result (λ e. e ≡ Error.Memory) }
    ensures ticked { TicksAtMost (length parts.old) steps.old steps.new }
{
    if reps.len() == 0 {
        return Ok(());
    }
    if are_alike(reps, defs) {
        return push_to(
            parts,
            reps[0] as usize,
            defs[0] as usize,
            false,
            0,
            0,
            reps.len(),
            steps,
        );
    }
    if reps.len() == 64 && parts.len() == 1 {
        steps.tick();
        return push_only(&mut parts[0], reps, defs);
    }
    if reps.len() == 64 && parts.len() < 64 {
        let outer = outer_word(reps);
        let pushed = outer & levels_from(defs, 0);
        let reps = BlockLevels::of_bytes(narrowed_beside(reps, outer));
        let defs = BlockLevels::of_bytes(narrowed(defs));
        return words_to(parts, &reps, &defs, pushed, 0, 0, steps);
    }
    let hidden = [false; 64];
    block_to(parts, reps, defs, &hidden, 0, 0, steps)
}

/// Pushes 64 pairs to all parts of a state, which are few.
///
/// # Errors
///
/// `Memory`; some parts may then have the pushes.
pub fn push_told<L: Ledger>(
    parts: &mut [NestedBox],
    reps: &BlockLevels,
    defs: &BlockLevels,
    steps: &mut Steps<L>,
) -> Result<()>
    requires reps { length reps.now ≡ 64 }
    requires defs { length defs.now ≡ 64 }
    requires parts { length parts.old < 64 }
    requires counted { HasLongItems (all_kept parts.old) → ⊥ }
    ensures ok { OnOk result (all_kept parts.new ≡ block (marks_of reps.now defs.now (replicate 64 false)) 0 0
        (all_kept parts.old)) }
    ensures err { IfErr result (λ e. e ≡ Error.Memory) }
    ensures ticked { TicksAtMost (length parts.old) steps.old steps.new }
{
    reps.know();
    defs.know();
    let pushed = reps.to(0) & defs.from(0);
    words_to(parts, reps, defs, pushed, 0, 0, steps)
}

/// Pushes so many equal pairs to all parts of a state.
///
/// # Errors
///
/// `Memory`; some parts may then have the pushes.
pub fn push_equal<L: Ledger>(
    parts: &mut [NestedBox],
    rep: usize,
    level: usize,
    count: usize,
    steps: &mut Steps<L>,
) -> Result<()>
    requires few { count ≤ 2 ^ 31 }
    requires fits { AllFit (marks_of (replicate count rep) (replicate count level) (replicate count false))
        (all_kept parts.old) }
    requires counted { HasLongItems (all_kept parts.old) → ⊥ }
    ensures ok { OnOk result (all_kept parts.new
        ≡ block (marks_of (replicate count rep) (replicate count level) (replicate count false)) 0 0
        (all_kept parts.old)) }
    ensures err { IfErr result (λ e. e ≡ Error.Memory) }
    ensures ticked { TicksAtMost (length parts.old) steps.old steps.new }
{
    push_to(parts, rep, level, false, 0, 0, count, steps)
}
