//! An iterator whose length is known.
ghost use Rattle.std.specs.Prelude.{◌≡◌, ◌+◌, ◌<◌, ◌^◌, IfErr, IfOk, IfSome, Some};
ghost use Rattle.std.specs.Iterator.{UpTo, at_most};
ghost use Rattle.std.specs.Iterator.SizeHint.{IsWithinCount};
ghost use Rattle.columns_base.specs.declared.error.Error.TheVariants.{Memory};
ghost use Rattle.page_parts.specs.Exact.{GivesOfSo, GivesSoMany};

use columns_base::Result;
use std::alloc::Global;

/// The items of an iterator that gives so many. `size_hint` is the number of those that are left.
#[derive(Drop)]
pub struct ExactSizedIter<T, I: Iterator<Item = T>> {
    pub iter: I,
    pub remaining: usize,
}

impl<T: Drop, I: Iterator<Item = T> + Drop> ExactSizedIter<T, I> {
    /// The items of `iter`, which gives `length` of them.
    pub fn new(iter: I, length: usize) -> Self
        requires { GivesSoMany I.can_next I.next_gives length iter }
        ensures iter { result.iter ≡ iter }
        ensures remaining { result.remaining ≡ length }
    {
        ExactSizedIter {
            iter,
            remaining: length,
        }
    }
}

impl<T: Drop, I: Iterator<Item = T> + Clone + Drop> ExactSizedIter<T, I> {
    /// The same items again, where a clone of the iterator within gives as many.
    ///
    /// # Errors
    ///
    /// `Memory`: memory ran out.
    pub fn clone(&self, _alloc: Global) -> Result<Self>
        requires same { (copy : I) → I.is_clone self.now.iter copy
            → GivesSoMany I.can_next I.next_gives self.now.remaining copy }
        ensures ok { IfOk result (λ copy. I.is_clone self.now.iter copy.iter × (copy.remaining ≡ self.now.remaining)) }
        ensures err { IfErr result (λ e. e ≡ Memory) }
    {
        let iter = self.iter.clone()?;
        Ok(ExactSizedIter {
            iter,
            remaining: self.remaining,
        })
    }
}

impl<T: Drop, I: Iterator<Item = T> + Drop> Iterator for ExactSizedIter<T, I> {
    type Item = T;

    ghost can_next = { λ s. GivesSoMany I.can_next I.next_gives s.remaining s.iter };

    ghost next_gives = { λ s r t. GivesOfSo I.next_gives s.remaining s.iter r t.remaining t.iter };

    ghost remaining = { λ s. at_most s.remaining };

    fn next(&mut self) -> Option<T> {
        if self.remaining == 0 {
            return None;
        }
        match self.iter.next() {
            Some(item) => {
                self.remaining -= 1;
                Some(item)
            }
            None => unreachable!(),
        }
    }

    fn size_hint(&self) -> (usize, Option<usize>)
        ensures lower { IsWithinCount result.0 (at_most self.now.remaining) }
        ensures upper { IfSome result.1 (UpTo (at_most self.now.remaining)) }
        ensures exact { (result.0 ≡ self.now.remaining) × (result.1 ≡ Some self.now.remaining) }
    {
        (self.remaining, Some(self.remaining))
    }
}
