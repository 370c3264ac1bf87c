//! The laws of dictionaries' columns: each is the contract of a function that does nothing, so that a caller may use it by a call.
ghost use Rattle.dictionary_columns.specs.Laws.{PiecesAreEntered, RefusalsAreEntered, RowsCouldBe, StatesAreEntered, WholeIsEntered};

/// The next piece of a column's keys, with the entries in their place, is the column's next piece, and each key numbers an entry.
pub fn pieces_are_entered()
    ensures { PiecesAreEntered }
{}

/// A state and slots that stand for a piece of keys stand for the column's, once each slot has its key's entry.
pub fn states_are_entered()
    ensures { StatesAreEntered }
{}

/// Where the pieces of the keys are all of their column, they are all of the column with the entries in their place.
pub fn whole_is_entered()
    ensures { WholeIsEntered }
{}

/// Where pages hold rows of the column, as many could be held of its keys, with other pages in the place of the first that is not read and of those
/// behind it.
pub fn rows_could_be()
    ensures { RowsCouldBe }
{}

/// An error by its condition of the keys' column is one of the column, where those that speak of rows come only where there are none.
pub fn refusals_are_entered()
    ensures { RefusalsAreEntered }
{}
