//! The arrays of a field.
ghost use Rattle.std.specs.Prelude.{◌<◌, ◌++◌, ◌∷◌, [], List, length, flat_map, IfOk, IfErr};
ghost use Rattle.columns_array.specs.Boxed.{boxed};
ghost use Rattle.columns_slots.specs.Slots.{slots};
ghost use Rattle.columns_slots.specs.Tree.{ArrayTree};
ghost use Rattle.pq_headline.specs.FieldReasons.{Refuses};
ghost use Rattle.pq_headline.specs.Openings.{Opening, IsItem};
ghost use Rattle.assembly.specs.Giving.{IsGiving, Gives};

use crate::ArrayIter;
use crate::pieces::{expect_ends, next_pieces};
use columns_array::ArrayBox;
use columns_base::Result;
use pq_pages::Pages;
use read_nested::create_array;

impl<I: Pages + Drop> ArrayIter<I> {
    // The array of the next rows, where some are left.
    fn next_array(&mut self) -> Result<ArrayBox>
        ensures ok { (o : Opening) (arrays : List ArrayTree) → IsGiving o arrays self.old → 0 < self.old.left
            → IfOk result (λ a. IsItem o (length (flat_map slots arrays)) (boxed a)
            × IsGiving o (arrays ++ boxed a ∷ []) self.new) }
        ensures err { (o : Opening) (arrays : List ArrayTree) → IsGiving o arrays self.old → 0 < self.old.left
            → IfErr result (Refuses o) }
    {
        let pieces = match next_pieces(self.alloc, &mut self.columns) {
            Ok(pieces) => pieces,
            Err(error) => return Err(error),
        };
        let array = match create_array(self.alloc, &self.field, pieces) {
            Ok(array) => array,
            Err(error) => return Err(error),
        };
        self.left = self.left.saturating_sub(array.len());
        Ok(array)
    }

    /// The next array: of exactly the rows of the chunk size, or of those that are left, or of all where there is no chunk size. None once
    /// all rows were given and the pages have ended.
    ///
    /// # Errors
    ///
    /// - An error of a source of pages (S3, N4).
    /// - `OutOfSpec(S4)`, S5, S6, S7, S9, S10: the pages hold no rows of the field.
    /// - `NotYetImplemented(N4)`: a page in an encoding that its physical type has not, of deltas in a field that nests, or without indices in a column
    ///   of a dictionary type. N8: a page that goes on with a row of the page before it.
    /// - `Overflow(V1)`: more items or bytes than offsets count, or bytes of a dictionary's entries. V2: more entries than a dictionary's keys number.
    /// - `Memory`.
    ///
    /// After an error nothing is said of what it gives.
    pub fn next(&mut self) -> Option<Result<ArrayBox>>
        ensures { (o : Opening) (arrays : List ArrayTree) → IsGiving o arrays self.old
            → Gives o arrays result self.new }
    {
        if self.left > 0 {
            return Some(self.next_array());
        }
        match expect_ends(&mut self.columns) {
            Ok(()) => None,
            Err(error) => Some(Err(error)),
        }
    }
}
