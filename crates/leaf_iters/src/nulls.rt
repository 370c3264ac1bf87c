//! Arrays of nulls alone, by the number of values in a column's pages.
ghost use Rattle.std.specs.Prelude.{◌≡◌, ◌≢◌, ◌↔◌, ◌⊎◌, ℕ, ◌<◌, ◌≤◌, ◌+◌, ◌-◌, ◌∷◌, [], min, length, replicate, None, Some, true, IfErr, IfOk, IsErrOf, MatchOption};
ghost use Rattle.columns_array.specs.Boxed.{boxed};
ghost use Rattle.columns_base.specs.declared.error.Error.TheVariants.{InvalidArgumentError, Memory};
ghost use Rattle.columns_base.specs.declared.error.A.TheVariants.{A1};
ghost use Rattle.columns_core.specs.Shapes.{base};
ghost use Rattle.columns_core.specs.View.{type_view};
ghost use Rattle.columns_slots.specs.Types.{is_null_type};
ghost use Rattle.pq_headline.specs.Openings.{piece_size};
ghost use Rattle.pq_pages.specs.Outcomes.{fails};
ghost use Rattle.read_types.specs.Arrays.{IsLeafArray};
ghost use Rattle.shredding.specs.Slot.{null as null_slot};
ghost use Rattle.leaf_iters.specs.Nulls.{first_error, GivesNulls, HasNoneLeft, IsGivingNulls, IsSeen, null_opening, NullOpening, TakenWhile, TakesFew, TakesValues, values_in};

use columns_array::ArrayBox;
use columns_base::{A, Error, Result};
use columns_core::DataType;
use pq_pages::{Page, Pages};
use read_leaf::NullValues;
use read_types::{LeafArray, Nulls};
use std::alloc::Global;
use std::marker::Model;

/// Arrays of nulls alone, as many nulls as the data pages of a column have values. No level is looked at.
#[derive(Drop)]
pub struct NullIter<I: Pages> {
    alloc: Global,
    pages: I,
    data_type: DataType,
    chunk_size: Option<usize>,
    // The rows that no array has given yet; none behind the end, and behind an error.
    left: usize,
    // Those of them for which no page with a value was taken yet.
    unseen: usize,
}

impl<I: Pages> Model for NullIter<I> {
    ghost use Rattle.std.specs.Prelude.{◌≡◌, ◌≢◌, ◌≤◌, Some, true};
    ghost use Rattle.std.specs.Coded.{codes};
    ghost use Rattle.columns_core.specs.Shapes.{base};
    ghost use Rattle.columns_core.specs.TypeCode.{type_code};
    ghost use Rattle.columns_core.specs.View.{type_view};
    ghost use Rattle.columns_slots.specs.Types.{is_null_type};
    ghost use Rattle.leaf_iters.specs.Nulls.{NullReading};

    ghost Value = { NullReading };

    ghost coded = { Prim.hlevel (codes, type_code) };

    ghost view = { λ it. record {
      data_type = type_view it.data_type;
      outcomes = I.outcomes it.pages;
      chunk_size =
          it.chunk_size;
      left = it.left;
      unseen = it.unseen;
    } };

    ghost invariant = { λ it. (is_null_type (base (type_view it.data_type)) ≡ true) × (it.chunk_size ≢ Some 0)
        × (it.unseen ≤ it.left) };
}

// Takes the next page. Answers how many values it has, a dictionary page none; None at the end.
fn take_values<I: Pages>(pages: &mut I) -> Result<Option<usize>>
    ensures ok { IfOk result (λ values. MatchOption values ((I.outcomes pages.old ≡ []) × (I.outcomes pages.new ≡ []))
        (TakesValues (I.outcomes pages.old) (I.outcomes pages.new))) }
    ensures err { IfErr result (λ e. ((e ≡ Memory) × (I.outcomes pages.new ≡ I.outcomes pages.old))
        ⊎ ((values_in (I.outcomes pages.old) ≡ 0) × (first_error (I.outcomes pages.old) ≡ Some e)
        × (I.outcomes pages.old ≡ fails e ∷ I.outcomes pages.new))) }
{
    match pages.advance() {
        Ok(()) => {}
        Err(error) => return Err(error),
    }
    match pages.get() {
        None => Ok(None),
        Some(Page::Dict(_)) => Ok(Some(0)),
        Some(Page::Data(page)) => Ok(Some(page.num_values())),
    }
}

// Takes pages until so many of the rows that are left have values, or they end. Answers how many of those rows are still unseen.
fn see_values<I: Pages>(pages: &mut I, left: usize, unseen: usize, wanted: usize) -> Result<usize>
    requires few { unseen ≤ left }
    requires within { wanted ≤ left }
    ensures ok { IfOk result (λ now. IsSeen left unseen (I.outcomes pages.old) (I.outcomes pages.new) now
        × ((wanted ≤ left - now) ⊎ (I.outcomes pages.new ≡ []))) }
    ensures err { IfErr result (λ e. (e ≡ Memory) ⊎ ((first_error (I.outcomes pages.old) ≡ Some e)
        × ((left - unseen) + min unseen (values_in (I.outcomes pages.old)) < wanted))) }
    ensures some { IfErr result (λ e. 0 < wanted) }
    ensures taken { (now : ℕ) × TakenWhile wanted (left - unseen) (I.outcomes pages.old) now (I.outcomes pages.new) }
{
    let mut hidden = unseen;
    'pages: while left - hidden < wanted {
        match take_values(pages) {
            Ok(Some(values)) => hidden = hidden.saturating_sub(values),
            Ok(None) => return Ok(hidden),
            Err(error) => return Err(error),
        }
    }
    Ok(hidden)
}

// How many of the rows that are left go into an array.
fn rows_wanted(chunk_size: Option<usize>, left: usize) -> usize
    ensures { result ≡ piece_size chunk_size left }
{
    match chunk_size {
        Some(size) => size.min(left),
        None => left,
    }
}

// The array of so many nulls; none of no null.
fn array_of(alloc: Global, data_type: &DataType, count: usize) -> Option<Result<ArrayBox>>
    requires { is_null_type (base (type_view data_type.now)) ≡ true }
    ensures { MatchOption result (count ≡ 0) (λ made. (0 < count)
        × IfOk made (λ a. IsLeafArray (type_view data_type.now) (replicate count null_slot) (boxed a))
        × IfErr made (λ e. e ≡ Memory)) }
{
    if count == 0 {
        return None;
    }
    let data_type = match data_type.clone(alloc) {
        Ok(data_type) => data_type,
        Err(error) => return Some(Err(error)),
    };
    Some(Nulls.into_array(alloc, NullValues { count }, data_type))
}

/// The iterator over arrays of nulls of this type, whose base is Null: as many nulls as the data pages have values, at most `num_rows`. With a chunk size
/// each array has as many, the last one those that are left. No page is taken.
///
/// # Errors
///
/// `InvalidArgumentError(A1)`: exactly for a chunk size of 0; no other.
pub fn iter_to_arrays<I: Pages>(
    alloc: Global,
    iter: I,
    data_type: DataType,
    chunk_size: Option<usize>,
    num_rows: usize,
) -> Result<NullIter<I>>
    requires { is_null_type (base (type_view data_type)) ≡ true }
    ensures ok { IfOk result (IsGivingNulls
        (null_opening (type_view data_type) (I.outcomes iter) num_rows chunk_size) 0) }
    ensures size { IsErrOf result (InvalidArgumentError A1) ↔ (chunk_size ≡ Some 0) }
    ensures err { IfErr result (λ e. e ≡ InvalidArgumentError A1) }
{
    if chunk_size == Some(0) {
        return Err(Error::InvalidArgumentError(A::A1));
    }
    Ok(NullIter {
        alloc,
        pages: iter,
        data_type,
        chunk_size,
        left: num_rows,
        unseen: num_rows,
    })
}

impl<I: Pages> NullIter<I> {
    /// The next array. Pages are taken only until it is full. None at the end, and behind an error.
    ///
    /// # Errors
    ///
    /// - An error of the source, where the pages in front of it have too few values for the array.
    /// - `Memory`.
    pub fn next(&mut self) -> Option<Result<ArrayBox>>
        ensures gives { (o : NullOpening) (before : ℕ) → IsGivingNulls o before self.old
            → GivesNulls o before result self.new }
        ensures ends { HasNoneLeft result self.new }
        ensures taken { TakesFew self.old self.new }
        ensures ended { self.old.left ≡ 0 → (result ≡ None) × (self.new.left ≡ 0) }
    {
        let wanted = rows_wanted(self.chunk_size, self.left);
        let unseen = match see_values(&mut self.pages, self.left, self.unseen, wanted) {
            Ok(unseen) => unseen,
            Err(error) => {
                self.left = 0;
                self.unseen = 0;
                return Some(Err(error));
            }
        };
        let count = wanted.min(self.left - unseen);
        match array_of(self.alloc, &self.data_type, count) {
            Some(Ok(array)) => {
                self.left -= count;
                self.unseen = unseen;
                Some(Ok(array))
            }
            Some(Err(error)) => {
                self.left = 0;
                self.unseen = 0;
                Some(Err(error))
            }
            None => {
                self.left = 0;
                self.unseen = 0;
                None
            }
        }
    }
}
