//! The pieces of a field's columns, one of each at a time.
ghost use Rattle.std.specs.Prelude.{◌≡◌, ◌<◌, ℕ, List, IfOk, OnOk, IfErr, MatchResult};
ghost use Rattle.columns_base.specs.declared.error.Error.{Error};
ghost use Rattle.columns_base.specs.declared.error.S.{S};
ghost use Rattle.assembly.specs.Lanes.{Lane, Tables, AreReading, AreBehind, TakesPieces, AreWhole, AnyRefused};

use columns_base::{Error, Result, S};
use pq_pages::Pages;
use read_columns::Column;
use read_pieces::ColumnPiece;
use std::alloc::Global;

/// Takes the next piece of each column, which together are the next rows.
pub fn next_pieces<I: Pages + Drop>(
    alloc: Global,
    columns: &mut Vec<Column<I>>,
) -> Result<Vec<ColumnPiece>>
    ensures ok { (before rows : ℕ) (xs : List Lane) (tables : Tables) → AreReading 0 xs columns.old.items tables
        → AreBehind 0 before rows xs tables → before < rows
        → IfOk result (λ pieces. TakesPieces before xs tables pieces.items columns.new.items) }
    ensures err { (before rows : ℕ) (xs : List Lane) (tables : Tables) → AreReading 0 xs columns.old.items tables
        → AreBehind 0 before rows xs tables → before < rows → IfErr result (AnyRefused xs) }
{
    let mut pieces = Vec::new(alloc);
    for column in columns.iter_mut() {
        match column.next_piece() {
            Some(Ok(piece)) => pieces.push(piece)?,
            Some(Err(error)) => return Err(error),
            // No column ends while rows are left.
            None => return Err(Error::OutOfSpec(S::S9)),
        }
    }
    Ok(pieces)
}

// Why a column that gives something behind its last row is refused: by its own error, or since no column has more rows than its group.
fn reason_of(item: Result<ColumnPiece>) -> Error
    ensures { MatchResult item (λ _. result ≡ Error.OutOfSpec S.S9) (λ e. result ≡ e) }
{
    match item {
        Ok(_) => Error::OutOfSpec(S::S9),
        Err(error) => error,
    }
}

/// Finds that no column has anything left, once all rows were taken.
pub fn expect_ends<I: Pages + Drop>(columns: &mut Vec<Column<I>>) -> Result<()>
    ensures ok { (rows : ℕ) (xs : List Lane) (tables : Tables) → AreReading 0 xs columns.old.items tables
        → AreBehind 0 rows rows xs tables → OnOk result (AreWhole 0 xs tables) }
    ensures err { (rows : ℕ) (xs : List Lane) (tables : Tables) → AreReading 0 xs columns.old.items tables
        → AreBehind 0 rows rows xs tables → IfErr result (AnyRefused xs) }
{
    for column in columns.iter_mut() {
        if let Some(item) = column.next_piece() {
            return Err(reason_of(item));
        }
    }
    Ok(())
}
