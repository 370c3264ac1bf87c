//! The nested state.
ghost use Rattle.std.specs.Prelude.{◌≡◌, ◌↔◌, ◌⊎◌, IsTrue, ◌+◌, ◌-◌, ◌<◌, ◌≤◌, ◌^◌, false, [], ◌∷◌, ◌++◌, MatchOption, replicate, IfErr, OnOk, List, length as list_length};
ghost use Rattle.columns_base.specs.declared.error.Error.{Error};
ghost use Rattle.columns_base.specs.declared.error.V.{V};
ghost use Rattle.shredding.specs.Shred.{max_definition, max_repetition};
ghost use Rattle.shredding.specs.Local.{inside};
ghost use Rattle.read_laws.specs.State.{Kept, kept_way, leaf_count, count as slot_count};
ghost use Rattle.read_laws.specs.Block.{block, AllFit};
ghost use Rattle.read_state.specs.Kinds.{all_kept, kept_box, HasLongItems};
ghost use Rattle.read_state.specs.Marks.{marks_of};
ghost use Rattle.read_state.specs.Ticks.{TicksAtMost};

use crate::block::{push_all, push_equal, push_told};
use crate::block_levels::BlockLevels;
use crate::boxes::NestedBox;
use crate::kinds::Nested;
use crate::parts::{has_long_items, inside_of, leaf_len_of, lists_of, top_of};
use crate::same::same_parts;
use crate::steps::Steps;
use columns_base::{Error, Result, V};
use std::marker::Model;
use std::sync::ledger::Ledger;

/// What level pairs have built so far: a part for each node of the way to a leaf, the row's first. Contracts see what the parts keep.
#[derive(Debug, Drop)]
pub struct NestedState {
    nested: Vec<NestedBox>,
}

impl Model for NestedState {
    ghost use Rattle.std.specs.Prelude.{List};
    ghost use Rattle.read_laws.specs.State.{Kept};
    ghost use Rattle.read_state.specs.Kinds.{all_kept};

    ghost Value = { List Kept };

    ghost view = { λ s. all_kept s.nested.items };
}

impl NestedState {
    /// The state of these parts.
    pub fn new(nested: Vec<NestedBox>) -> Self
        ensures { result ≡ all_kept nested.items }
    {
        NestedState { nested }
    }

    /// The number of slots: of pushes to the first part.
    pub fn len(&self) -> usize
        requires { 0 < list_length self.now }
        ensures { result ≡ slot_count self.now }
    {
        self.nested[0].len()
    }

    /// The number of slots of the leaf.
    pub fn leaf_len(&self) -> usize
        ensures { result ≡ leaf_count self.now }
    {
        leaf_len_of(&self.nested)
    }

    /// The greatest definition level of the way to the leaf.
    pub fn max_definition(&self) -> usize
        ensures { result ≡ max_definition (kept_way self.now) }
    {
        top_of(&self.nested)
    }

    /// The greatest repetition level of the way to the leaf.
    pub fn max_repetition(&self) -> usize
        ensures { result ≡ max_repetition (kept_way self.now) }
    {
        lists_of(&self.nested)
    }

    /// The least definition level of a pair inside the list that it repeats in.
    pub fn inside(&self, rep: usize) -> usize
        ensures { result ≡ inside (kept_way self.now) rep }
    {
        inside_of(&self.nested, rep)
    }

    /// Takes the innermost part.
    pub fn pop(&mut self) -> Option<NestedBox>
        ensures { MatchOption result ((self.old ≡ []) × (self.new ≡ [])) (λ part. self.old
            ≡ self.new ++ kept_box part ∷ []) }
    {
        self.nested.pop()
    }

    /// Whether both have equally many parts, of the same kinds, which keep the same. Takes no memory.
    pub fn same(&self, other: &NestedState) -> bool
        ensures { IsTrue result ↔ self.now ≡ other.now }
    {
        same_parts(&self.nested, &other.nested)
    }

    /// Pushes a block of at most 64 pairs to all parts. At most one step for each part.
    ///
    /// # Errors
    ///
    /// `Memory`, and V1 where with these pairs a part beneath a list has more slots than offsets of 64 bits count. Some parts may then have the
    /// pushes.
    pub fn push_levels<L: Ledger>(
        &mut self,
        reps: &[u32],
        defs: &[u32],
        steps: &mut Steps<L>,
    ) -> Result<()>
        requires reps { list_length reps.now ≤ 64 }
        requires defs { list_length defs.now ≡ list_length reps.now }
        requires fits { AllFit (marks_of reps.now defs.now (replicate 64 false)) self.old }
        ensures ok { OnOk result (self.new ≡ block (marks_of reps.now defs.now (replicate 64 false)) 0 0 self.old) }
        ensures counted { OnOk result (HasLongItems self.new → ⊥) }
        ensures err { IfErr result (λ e. (e ≡ Error.Memory) ⊎ ((e ≡ Error.Overflow V.V1)
            × HasLongItems (block (marks_of reps.now defs.now (replicate 64 false)) 0 0 self.old))) }
        ensures ticked { TicksAtMost (list_length self.old) steps.old steps.new }
    {
        if has_long_items(&self.nested) {
            return Err(Error::Overflow(V::V1));
        }
        push_all(&mut self.nested, reps, defs, steps)?;
        if has_long_items(&self.nested) {
            return Err(Error::Overflow(V::V1));
        }
        Ok(())
    }

    /// The number of its parts: the state's depth, the leaf among them.
    pub fn depth(&self) -> usize
        ensures { result ≡ list_length self.now }
    {
        self.nested.len()
    }

    /// Pushes a block of 64 pairs to all parts, as `push_levels` does, where its levels are told as bits or bytes. At most one step for each part.
    ///
    /// # Errors
    ///
    /// `Memory`, and V1 where with these pairs a part beneath a list has more slots than offsets of 64 bits count. Some parts may then have the
    /// pushes.
    pub fn push_block<L: Ledger>(
        &mut self,
        reps: &BlockLevels,
        defs: &BlockLevels,
        steps: &mut Steps<L>,
    ) -> Result<()>
        requires reps { list_length reps.now ≡ 64 }
        requires defs { list_length defs.now ≡ 64 }
        requires parts { list_length self.old < 64 }
        ensures ok { OnOk result (self.new ≡ block (marks_of reps.now defs.now (replicate 64 false)) 0 0 self.old) }
        ensures counted { OnOk result (HasLongItems self.new → ⊥) }
        ensures err { IfErr result (λ e. (e ≡ Error.Memory) ⊎ ((e ≡ Error.Overflow V.V1)
            × HasLongItems (block (marks_of reps.now defs.now (replicate 64 false)) 0 0 self.old))) }
        ensures ticked { TicksAtMost (list_length self.old) steps.old steps.new }
    {
        if has_long_items(&self.nested) {
            return Err(Error::Overflow(V::V1));
        }
        push_told(&mut self.nested, reps, defs, steps)?;
        if has_long_items(&self.nested) {
            return Err(Error::Overflow(V::V1));
        }
        Ok(())
    }

    /// Pushes `count` equal pairs to all parts. At most one step for each part.
    ///
    /// # Errors
    ///
    /// `Memory`, and V1 where with these pairs a part beneath a list has more slots than offsets of 64 bits count. Some parts may then have the
    /// pushes.
    pub fn push_equal<L: Ledger>(
        &mut self,
        rep: usize,
        level: usize,
        count: usize,
        steps: &mut Steps<L>,
    ) -> Result<()>
        requires few { count ≤ 2 ^ 31 }
        requires fits { AllFit (marks_of (replicate count rep) (replicate count level)
            (replicate count false)) self.old }
        ensures ok { OnOk result (self.new ≡ block
            (marks_of (replicate count rep) (replicate count level) (replicate count false)) 0 0 self.old) }
        ensures counted { OnOk result (HasLongItems self.new → ⊥) }
        ensures err { IfErr result (λ e. (e ≡ Error.Memory) ⊎ ((e ≡ Error.Overflow V.V1)
            × HasLongItems
            (block (marks_of (replicate count rep) (replicate count level) (replicate count false)) 0 0 self.old))) }
        ensures ticked { TicksAtMost (list_length self.old) steps.old steps.new }
    {
        if has_long_items(&self.nested) {
            return Err(Error::Overflow(V::V1));
        }
        push_equal(&mut self.nested, rep, level, count, steps)?;
        if has_long_items(&self.nested) {
            return Err(Error::Overflow(V::V1));
        }
        Ok(())
    }
}
