//! The levels of a path, one after another.
ghost use Rattle.std.specs.Prelude.{◌≡◌, ℕ, ◌^◌, ◌<◌, ◌≤◌, ◌∷◌, [], length, map, IfOk, IfErr, IfSome, MatchOption};
ghost use Rattle.std.specs.Iterator.{YieldsFirst, item_count, at_most, UpTo};
ghost use Rattle.std.specs.Iterator.SizeHint.{IsWithinCount};
ghost use Rattle.columns_base.specs.declared.error.Error.TheVariants.{Memory};
ghost use Rattle.shredding.specs.Slot.{Value};
ghost use Rattle.shredding.specs.Parts.{IsPath};
ghost use Rattle.levels.specs.Nested.{parts_of, nested_column};
ghost use Rattle.levels.specs.Levels.{path_pairs};
ghost use Rattle.levels.specs.Stretch.{level_of};

use crate::count::num_values;
use crate::cursors::{Cursor, put, take};
use crate::nested::{Nested, slot_count};
use crate::walk::Level;
use columns_base::Result;
use std::alloc::Global;
use std::marker::Model;

// The levels of a path that are left, of one kind.
#[derive(Debug, Drop)]
struct PathLevels<'a> {
    level: Level,
    stack: Vec<Cursor<'a>>,
    // the number of parts of the path, for which the stack has room
    room: usize,
    // so many levels of one value stand before those of the stack
    more: usize,
    other: u32,
    remaining: usize,
}

impl<'a> Model for PathLevels<'a> {
    ghost use Rattle.std.specs.Prelude.{◌≡◌, List, ℕ, ◌++◌, length, map, replicate, ◌≤◌, vec_capacity};
    ghost use Rattle.levels.specs.Stack.{left, CursorsFit};
    ghost use Rattle.levels.specs.Stretch.{level_of};

    ghost Value = { List ℕ };

    ghost view = { λ r. replicate r.more r.other ++ map (level_of r.level) (left r.stack.items) };

    ghost invariant = { λ r. CursorsFit r.room r.stack.items × (r.room ≤ vec_capacity r.stack)
        × (r.remaining ≡ length (replicate r.more r.other ++ map (level_of r.level) (left r.stack.items))) };
}

impl<'a> PathLevels<'a> {
    fn new(alloc: Global, nested: &'a [Nested], level: Level) -> Result<Self>
        requires well { IsPath (parts_of nested.now) }
        requires parts { length nested.now ≤ 128 }
        requires count { (values : ℕ → Value) → length (nested_column values nested.now) < 2 ^ 64 }
        ensures ok { IfOk result (λ levels. levels ≡ map (level_of level) (path_pairs (parts_of nested.now))) }
        ensures err { IfErr result (λ e. e ≡ Memory) }
    {
        let remaining = num_values(nested);
        let room = nested.len();
        let mut stack = Vec::with_capacity(alloc, room)?;
        let all = Cursor {
            parts: nested,
            def: 0,
            depth: 0,
            place: 0,
            end: slot_count(nested),
        };
        put(&mut stack, room, all);
        Ok(PathLevels {
            level,
            stack,
            room,
            more: 0,
            other: 0,
            remaining,
        })
    }

    fn next(&mut self) -> Option<u32>
        ensures { MatchOption result ((self.old ≡ []) × (self.new ≡ [])) (λ level. self.old ≡ level ∷ self.new) }
    {
        if self.more > 0 {
            self.more -= 1;
            self.remaining -= 1;
            return Some(self.other);
        }
        let front = take(&mut self.stack, self.room, self.level)?;
        self.more = front.more;
        self.other = front.other;
        self.remaining -= 1;
        Some(front.first)
    }

    fn len(&self) -> usize
        ensures { result ≡ length self.now }
    {
        self.remaining
    }
}

/// The repetition levels of a path, in order: those of the column of the slots that the path stands for. What lies beneath a null is
/// skipped. The number of levels left is known, and `next` takes no memory.
#[derive(Debug, Drop)]
pub struct RepLevelsIter<'a> {
    levels: PathLevels<'a>,
}

impl<'a> Model for RepLevelsIter<'a> {
    ghost use Rattle.std.specs.Prelude.{List, ℕ};

    ghost Value = { List ℕ };

    ghost view = { λ r. r.levels };
}

impl<'a> RepLevelsIter<'a> {
    /// The repetition levels of a well-formed path of at most 128 parts with at most `usize::MAX` level pairs.
    ///
    /// # Errors
    ///
    /// `Memory`: memory ran out.
    pub fn new(alloc: Global, nested: &'a [Nested]) -> Result<Self>
        requires well { IsPath (parts_of nested.now) }
        requires parts { length nested.now ≤ 128 }
        requires count { (values : ℕ → Value) → length (nested_column values nested.now) < 2 ^ 64 }
        ensures ok { (values : ℕ → Value) → IfOk result (λ levels. levels
            ≡ map (λ t. t.repetition) (nested_column values nested.now)) }
        ensures err { IfErr result (λ e. e ≡ Memory) }
    {
        let levels = PathLevels::new(alloc, nested, Level::Repetition)?;
        Ok(RepLevelsIter { levels })
    }
}

impl<'a> Iterator for RepLevelsIter<'a> {
    type Item = u32;

    ghost next_gives = { YieldsFirst (λ levels. levels) };

    ghost remaining = { item_count (λ levels. levels) };

    fn next(&mut self) -> Option<u32> {
        self.levels.next()
    }

    fn size_hint(&self) -> (usize, Option<usize>)
        ensures lower { IsWithinCount result.0 (at_most (length self.now)) }
        ensures upper { IfSome result.1 (UpTo (at_most (length self.now))) }
        ensures exact { result ≡ (length self.now, Some (length self.now)) }
    {
        let count = self.levels.len();
        (count, Some(count))
    }
}

impl<'a> ExactSizeIterator for RepLevelsIter<'a> {
    fn len(&self) -> usize
        ensures { result ≡ length self.now }
    {
        self.levels.len()
    }
}

/// The definition levels of a path, in order: those of the column of the slots that the path stands for. What lies beneath a null is
/// skipped. The number of levels left is known, and `next` takes no memory.
#[derive(Debug, Drop)]
pub struct DefLevelsIter<'a> {
    levels: PathLevels<'a>,
}

impl<'a> Model for DefLevelsIter<'a> {
    ghost use Rattle.std.specs.Prelude.{List, ℕ};

    ghost Value = { List ℕ };

    ghost view = { λ r. r.levels };
}

impl<'a> DefLevelsIter<'a> {
    /// The definition levels of a well-formed path of at most 128 parts with at most `usize::MAX` level pairs.
    ///
    /// # Errors
    ///
    /// `Memory`: memory ran out.
    pub fn new(alloc: Global, nested: &'a [Nested]) -> Result<Self>
        requires well { IsPath (parts_of nested.now) }
        requires parts { length nested.now ≤ 128 }
        requires count { (values : ℕ → Value) → length (nested_column values nested.now) < 2 ^ 64 }
        ensures ok { (values : ℕ → Value) → IfOk result (λ levels. levels
            ≡ map (λ t. t.definition) (nested_column values nested.now)) }
        ensures err { IfErr result (λ e. e ≡ Memory) }
    {
        let levels = PathLevels::new(alloc, nested, Level::Definition)?;
        Ok(DefLevelsIter { levels })
    }
}

impl<'a> Iterator for DefLevelsIter<'a> {
    type Item = u32;

    ghost next_gives = { YieldsFirst (λ levels. levels) };

    ghost remaining = { item_count (λ levels. levels) };

    fn next(&mut self) -> Option<u32> {
        self.levels.next()
    }

    fn size_hint(&self) -> (usize, Option<usize>)
        ensures lower { IsWithinCount result.0 (at_most (length self.now)) }
        ensures upper { IfSome result.1 (UpTo (at_most (length self.now))) }
        ensures exact { result ≡ (length self.now, Some (length self.now)) }
    {
        let count = self.levels.len();
        (count, Some(count))
    }
}

impl<'a> ExactSizeIterator for DefLevelsIter<'a> {
    fn len(&self) -> usize
        ensures { result ≡ length self.now }
    {
        self.levels.len()
    }
}
