//! The level pairs of a page.
ghost use Rattle.std.specs.Prelude.{◌≡◌, ◌⊎◌, ◌<◌, ◌≤◌, ◌^◌, ℕ, IfSome, MatchOption, MatchResult, Ok, Some};
ghost use Rattle.columns_base.specs.declared.error.Error.{Error};
ghost use Rattle.columns_base.specs.declared.error.S.{S};
ghost use Rattle.pq_numbers.specs.Bits.{IsWidth};
ghost use Rattle.read_laws.specs.State.{kept_way};
ghost use Rattle.read_walk.specs.Order.{AreLevels, MayTake};
ghost use Rattle.read_walk.specs.Pairs.{page_items, TakesBlock, TakesCopies, TakesRun};

use crate::block::PairBlock;
use crate::levels::{Levels, next_block, next_copies, next_run, next_told};
use crate::order::WayLevels;
use crate::runs::level_runs;
use columns_base::{Error, Result, S};
use pq_runs::get_bit_width;
use read_state::{BlockLevels, NestedState};
use std::marker::Model;

/// The level pairs that a page still gives. Contracts see them as a list, in which S4 stands in the place of the first pair that cannot be read.
#[derive(Drop)]
pub struct NestedPage<'a> {
    levels: Levels<'a>,
}

impl<'a> Model for NestedPage<'a> {
    ghost use Rattle.std.specs.Prelude.{List};
    ghost use Rattle.read_walk.specs.Pairs.{Item};
    ghost use Rattle.read_walk.specs.Levels.{levels_left, IsLevels};

    ghost Value = { List Item };

    ghost view = { λ p. levels_left p.levels };

    ghost invariant = { λ p. IsLevels p.levels };
}

impl<'a> NestedPage<'a> {
    /// The first `count` pairs of two level sections, of which the greatest levels are given (Parquet format, "Nested Encoding"). No byte of a
    /// section is looked at where its greatest level is 0. Takes no memory.
    ///
    /// # Errors
    ///
    /// S4 where levels are called for that have more than 32 bits.
    pub fn try_new(
        repetitions: &'a [u8],
        max_repetition: usize,
        definitions: &'a [u8],
        max_definition: usize,
        count: usize,
    ) -> Result<Self>
        ensures { MatchResult result (λ items. (v w : ℕ) → IsWidth max_repetition v → IsWidth max_definition w
            → items ≡ page_items max_repetition v max_definition w count repetitions.now definitions.now)
            (λ e. (e ≡ Error.OutOfSpec S.S4) × ((2 ^ 32 ≤ max_repetition) ⊎ (2 ^ 32 ≤ max_definition))) }
    {
        let rep_width = get_bit_width(max_repetition as u64);
        let def_width = get_bit_width(max_definition as u64);
        if rep_width > 32 {
            return Err(Error::OutOfSpec(S::S4));
        }
        if def_width > 32 {
            return Err(Error::OutOfSpec(S::S4));
        }
        Ok(NestedPage {
            levels: Levels {
                reps: level_runs(repetitions, rep_width, count),
                defs: level_runs(definitions, def_width, count),
                max_rep: max_repetition,
                max_def: max_definition,
                rep_block: [0; 64],
                def_block: [0; 64],
                at: 0,
                end: 0,
                failed: false,
            },
        })
    }

    /// The next pairs, at most 64, of which at most `rows` begin a row; answers how many do. None where no pair is left, or the next one begins a
    /// row too many.
    ///
    /// # Errors
    ///
    /// S4 where a level of the next pair is missing or above its greatest.
    pub fn next_block(&mut self, rows: usize, block: &mut PairBlock) -> Option<Result<usize>>
        ensures { TakesBlock rows self.old result block.new.0 block.new.1 self.new }
    {
        next_block(&mut self.levels, rows, block)
    }

    // The next 64 pairs as bits or bytes, where they may come to a state and at most `rows` begin a row; answers how many do. None, and nothing taken,
    // where they cannot be had so.
    pub(crate) fn next_told(
        &mut self,
        rows: usize,
        nested: &NestedState,
        way: WayLevels,
        before: Option<usize>,
        reps: &mut BlockLevels,
        defs: &mut BlockLevels,
    ) -> Option<usize>
        requires { AreLevels (kept_way nested.now) way.lists way.top way.floor }
        ensures taken { MatchOption result (self.new ≡ self.old) (λ begun. TakesBlock rows self.old
            (Some (Ok begun)) reps.new defs.new self.new) }
        ensures may { IfSome result (λ begun. MayTake nested.now way.top before reps.new defs.new) }
    {
        next_told(&mut self.levels, rows, nested, way, before, reps, defs)
    }

    /// The next equal pairs, as their levels and number, where both sections go on with a run of copies: at most 2^31, and of pairs that begin a
    /// row at most `rows`. None, and nothing taken, where there are few; what comes is then `next_block`'s to say.
    pub fn next_copies(&mut self, rows: usize) -> Option<(usize, usize, usize)>
        ensures { TakesCopies rows self.old result self.new }
    {
        next_copies(&mut self.levels, rows)
    }

    /// The next equal pairs, as their levels and number: at most `limit`, and none beyond the pairs that were unpacked together. None at the end.
    ///
    /// # Errors
    ///
    /// S4 where a level of the next pair is missing or above its greatest; nothing is left then.
    pub fn next_run(&mut self, limit: usize) -> Option<Result<(u32, u32, usize)>>
        requires { 0 < limit }
        ensures { TakesRun limit self.old result self.new }
    {
        next_run(&mut self.levels, limit)
    }
}

impl<'a> Iterator for NestedPage<'a> {
    type Item = Result<(u32, u32)>;

    ghost use Rattle.std.specs.Iterator.{YieldsFirst, item_count};

    ghost next_gives = { YieldsFirst (λ items. items) };

    ghost remaining = { item_count (λ items. items) };

    fn next(&mut self) -> Option<Result<(u32, u32)>> {
        match self.next_run(1) {
            Some(Ok((rep, def, _))) => Some(Ok((rep, def))),
            Some(Err(error)) => Some(Err(error)),
            None => None,
        }
    }
}
