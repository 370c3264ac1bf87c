//! The arrays of a group's fields, piece by piece.
ghost use Rattle.std.specs.Prelude.{◌≡◌, ◌<◌, ◌≤◌, ℕ, List, length, IfOk, OnOk, IfErr, MatchResult};
ghost use Rattle.columns_base.specs.declared.error.Error.{Error};
ghost use Rattle.columns_base.specs.declared.error.S.{S};
ghost use Rattle.std.specs.declared.option.Option.{Option};
ghost use Rattle.columns_array.specs.Boxed.{all_boxed};
ghost use Rattle.columns_slots.specs.Slots.{first_len};
ghost use Rattle.columns_slots.specs.Tree.{ArrayTrees};
ghost use Rattle.pq_headline.specs.Opened.{AreAssembled, rows_in_chunks};
ghost use Rattle.pq_headline.specs.Openings.{Opening};
ghost use Rattle.rewrite_whole.specs.Groups.{IsUnderWay, TakesPiece, RefusesAny};

use assembly::ArrayIter;
use columns_array::{ArrayBox, Chunk};
use columns_base::{Error, Result, S};
use pq_pages::Pages;
use std::alloc::Global;

/// Takes the next array of each field, which together are the next rows.
pub fn next_arrays<I: Pages + Drop>(
    alloc: Global,
    iters: &mut Vec<ArrayIter<I>>,
) -> Result<Vec<ArrayBox>>
    ensures ok { (rows : ℕ) (n : Option ℕ) (os : List Opening) (chunks : List ArrayTrees)
        → IsUnderWay rows n os iters.old.items chunks → rows_in_chunks chunks < rows
        → IfOk result (λ arrays. TakesPiece rows n os iters.new.items chunks (all_boxed arrays.items)) }
    ensures err { (rows : ℕ) (n : Option ℕ) (os : List Opening) (chunks : List ArrayTrees)
        → IsUnderWay rows n os iters.old.items chunks → rows_in_chunks chunks < rows → IfErr result (RefusesAny os) }
{
    let mut arrays = Vec::new(alloc);
    for iter in iters.iter_mut() {
        match iter.next() {
            Some(Ok(array)) => arrays.push(array)?,
            Some(Err(error)) => return Err(error),
            // no field ends while rows are left
            None => return Err(Error::OutOfSpec(S::S9)),
        }
    }
    Ok(arrays)
}

/// Takes the next piece.
pub fn next_chunk<I: Pages + Drop>(alloc: Global, iters: &mut Vec<ArrayIter<I>>) -> Result<Chunk>
    ensures ok { (rows : ℕ) (n : Option ℕ) (os : List Opening) (chunks : List ArrayTrees)
        → IsUnderWay rows n os iters.old.items chunks → rows_in_chunks chunks < rows
        → IfOk result (λ piece. TakesPiece rows n os iters.new.items chunks piece) }
    ensures err { (rows : ℕ) (n : Option ℕ) (os : List Opening) (chunks : List ArrayTrees)
        → IsUnderWay rows n os iters.old.items chunks → rows_in_chunks chunks < rows → IfErr result (RefusesAny os) }
{
    match next_arrays(alloc, iters) {
        Ok(arrays) => Chunk::try_new(arrays),
        Err(error) => Err(error),
    }
}

/// How many rows a piece has.
pub fn row_count(piece: &Chunk) -> usize
    ensures { result ≡ first_len piece.now }
{
    match piece.arrays().first() {
        Some(array) => array.len(),
        None => 0,
    }
}

/// Why a field that gives something behind its last row is refused: by its own error, or since no field has more rows than its group.
fn reason_of(item: Result<ArrayBox>) -> Error
    ensures { MatchResult item (λ _. result ≡ Error.OutOfSpec S.S9) (λ e. result ≡ e) }
{
    match item {
        Ok(_) => Error::OutOfSpec(S::S9),
        Err(error) => error,
    }
}

/// Finds that no field has anything left, once all rows were taken.
pub fn expect_ends<I: Pages + Drop>(iters: &mut Vec<ArrayIter<I>>) -> Result<()>
    ensures ok { (rows : ℕ) (n : Option ℕ) (os : List Opening) (chunks : List ArrayTrees)
        → IsUnderWay rows n os iters.old.items chunks → rows_in_chunks chunks ≡ rows
        → OnOk result (AreAssembled 0 os chunks) }
    ensures err { (rows : ℕ) (n : Option ℕ) (os : List Opening) (chunks : List ArrayTrees)
        → IsUnderWay rows n os iters.old.items chunks → rows_in_chunks chunks ≡ rows → IfErr result (RefusesAny os) }
{
    for iter in iters.iter_mut() {
        if let Some(item) = iter.next() {
            return Err(reason_of(item));
        }
    }
    Ok(())
}
