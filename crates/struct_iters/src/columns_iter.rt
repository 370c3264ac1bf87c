//! The columns of a type, joined piece by piece.
ghost use Rattle.std.specs.Prelude.{◌≡◌, Bool, List, None, Option};
ghost use Rattle.columns_core.specs.Tree.{TypeTree};
ghost use Rattle.read_nested.specs.Above.{Above};
ghost use Rattle.struct_iters.specs.Items.{GivesItem, GivesPiece, IsAtEnd, IsGivingItems};
ghost use Rattle.struct_iters.specs.Progress.{Progress, AreGone};
ghost use Rattle.struct_iters.specs.Readings.{columns_in};

use crate::pieces::take_pieces;
use columns_array::ArrayBox;
use columns_base::{Error, Result, S};
use columns_core::DataType;
use pq_pages::Pages;
use read_columns::Column;
use read_nested::create_piece;
use read_pieces::ColumnPiece;
use read_state::NestedState;
use std::alloc::Global;

/// The arrays of a type, of one piece of each of its columns, and of each the parts above the type: a leaf, a dictionary, a list, a map or a struct.
#[derive(Drop)]
pub struct ColumnsIter<I: Pages> {
    pub(crate) alloc: Global,
    pub(crate) data_type: DataType,
    // None where a column has ended. None at all behind an error.
    pub(crate) columns: Vec<Option<Column<I>>>,
}

impl<I: Pages + Drop> ColumnsIter<I> {
    // The next pieces, joined.
    fn next_piece(&mut self) -> Option<Result<ColumnPiece>>
        ensures gives { (above : List Above) (n : Bool) (t : TypeTree) (xs : List Progress)
            → IsGivingItems above n t xs (columns_in self.old) → GivesPiece above n t xs result (columns_in self.new) }
        ensures ended { AreGone (columns_in self.old).readers → (result ≡ None)
            × AreGone (columns_in self.new).readers }
        ensures gone { result ≡ None → AreGone (columns_in self.new).readers }
    {
        let pieces = match take_pieces(self.alloc, &mut self.columns) {
            Ok(pieces) => pieces,
            Err(error) => return Some(Err(error)),
        };
        if pieces.is_empty() {
            return None;
        }
        if pieces.len() < self.columns.len() {
            return Some(Err(Error::OutOfSpec(S::S10)));
        }
        Some(create_piece(self.alloc, &self.data_type, pieces))
    }

    /// The next item. None once all columns have ended, and behind an error.
    ///
    /// # Errors
    ///
    /// - Those of a column: S3 or N4 of its source; S3 to S7, S9 and S10 where its pages hold no rows of it; N4 and N8 where a page is not read yet; V1
    ///   where a piece has more bytes than offsets count; V2 where the entries of a dictionary are more than its keys number.
    /// - `OutOfSpec(S10)`: two columns disagree on what their ways share, or one ends before another.
    /// - `Overflow(V1)`: a list has more items than its offsets count.
    /// - `Memory`.
    pub fn next(&mut self) -> Option<Result<(NestedState, ArrayBox)>>
        ensures gives { (above : List Above) (n : Bool) (t : TypeTree) (xs : List Progress)
            → IsGivingItems above n t xs (columns_in self.old) → GivesItem above n t xs result (columns_in self.new) }
        ensures ends { IsAtEnd result (columns_in self.new) }
        ensures ended { AreGone (columns_in self.old).readers → (result ≡ None)
            × AreGone (columns_in self.new).readers }
    {
        match self.next_piece() {
            None => None,
            Some(Ok(piece)) => Some(Ok((piece.nested, piece.values))),
            Some(Err(error)) => {
                self.columns.clear();
                Some(Err(error))
            }
        }
    }
}
