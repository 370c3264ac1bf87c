//! The next piece of each of some columns.
ghost use Rattle.std.specs.Prelude.{◌≡◌, ◌⊎◌, List, Option, None, [], length, IfErr, IfOk, MatchResult};
ghost use Rattle.columns_base.specs.declared.error.Error.TheVariants.{Memory};
ghost use Rattle.pq_files.specs.Reasons.{AnyOf};
ghost use Rattle.read_pieces.specs.Columns.{RefusesPiece};
ghost use Rattle.shredding.specs.Shred.{Triple};
ghost use Rattle.struct_iters.specs.Progress.{Progress, AreAt, AreGone, AreTaken, GivesNext, IsAt};

use columns_base::Result;
use pq_pages::Pages;
use read_columns::Column;
use read_pieces::ColumnPiece;
use std::alloc::Global;

// The next piece of a column, whose reader goes with its end and its error.
fn next_of<I: Pages + Drop>(column: &mut Option<Column<I>>) -> Option<Result<ColumnPiece>>
    ensures gives { (x : Progress) → IsAt x column.old → GivesNext x result column.new }
    ensures ended { column.old ≡ None → (result ≡ None) × (column.new ≡ None) }
    ensures gone { result ≡ None → column.new ≡ None }
{
    let Some(mut reader) = column.take() else {
        return None;
    };
    match reader.next_piece() {
        None => None,
        Some(Err(error)) => Some(Err(error)),
        Some(Ok(piece)) => {
            *column = Some(reader);
            Some(Ok(piece))
        }
    }
}

/// The next piece of each column that has not ended, in order.
pub(crate) fn take_pieces<I: Pages + Drop>(
    alloc: Global,
    columns: &mut Vec<Option<Column<I>>>,
) -> Result<Vec<ColumnPiece>>
    ensures ok { (xs : List Progress) → AreAt xs columns.old.items
        → IfOk result (λ pieces. (took : List (Option (List Triple))) × (length took ≡ length columns.new.items)
        × AreTaken took xs columns.new.items pieces.items) }
    ensures err { (xs : List Progress) → AreAt xs columns.old.items
        → IfErr result (λ e. (e ≡ Memory) ⊎ AnyOf (λ x. RefusesPiece x.opening e) xs) }
    ensures ended { AreGone columns.old.items → MatchResult result (λ pieces. (pieces.items ≡ [])
        × AreGone columns.new.items) (λ e. ⊥) }
    ensures gone { IfOk result (λ pieces. pieces.items ≡ [] → AreGone columns.new.items) }
{
    let mut pieces = Vec::new(alloc);
    for column in columns.iter_mut() {
        match next_of(column) {
            None => {}
            Some(Ok(piece)) => pieces.push(piece)?,
            Some(Err(error)) => return Err(error),
        }
    }
    Ok(pieces)
}
