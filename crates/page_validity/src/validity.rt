//! What a page says of its values.
ghost use Rattle.std.specs.Prelude.{◌<◌, List};
ghost use Rattle.pq_bitmaps.specs.Selected.{GivesPart, Step};
ghost use Rattle.page_validity.specs.Validity.{IsWithin};

use columns_base::Result;
use pq_bitmaps::FilteredHybridEncoded;

/// Which values of a page are there, in parts.
pub trait PageValidity<'a> {
    ghost to_come: { Self → List Step };

    /// The next part, of at most `limit` bits, which is from 1. A part that is passed over is told as a whole.
    ///
    /// # Errors
    ///
    /// `OutOfSpec(S4)`: a bit is not there, or is no truth value. Nothing comes behind it.
    fn next_limited(&mut self, limit: usize) -> Option<Result<FilteredHybridEncoded<'a>>>
        requires some { 0 < limit }
        ensures steps { GivesPart (to_come self.old) result (to_come self.new) }
        ensures limited { IsWithin limit result };
}
