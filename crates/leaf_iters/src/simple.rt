//! Flat columns: those whose leaf is the field itself.
ghost use Rattle.std.specs.Prelude.{◌≡◌, ◌↔◌, ◌⊎◌, [], List, None, Some, false, true, IfErr, IfOk, IsErrOf};
ghost use Rattle.columns_base.specs.declared.error.Error.TheVariants.{InvalidArgumentError, Memory, NotYetImplemented};
ghost use Rattle.columns_base.specs.declared.error.A.TheVariants.{A1};
ghost use Rattle.columns_base.specs.declared.error.N.TheVariants.{N5};
ghost use Rattle.columns_core.specs.Shapes.{base};
ghost use Rattle.columns_core.specs.Tree.{TypeTree};
ghost use Rattle.columns_core.specs.View.{type_view};
ghost use Rattle.pq_headline.specs.Columns.{is_alone};
ghost use Rattle.pq_tree.specs.Views.{physical_view};
ghost use Rattle.read_leaves.specs.Leaf.{is_read_along};
ghost use Rattle.read_pieces.specs.Columns.{ColumnOpening};
ghost use Rattle.shredding.specs.Shred.{Triple};
ghost use Rattle.leaf_iters.specs.Iters.{flat_way, GivesArray, IsAtEnd, IsGivingPieces, LeavesArray, Opens};

use crate::leaf_iter::LeafIter;
use columns_array::ArrayBox;
use columns_base::{A, Error, Result};
use columns_core::DataType;
use pq_pages::Pages;
use pq_tree::{PrimitiveType, Repetition};
use read_state::{InitNested, NestedState};
use std::alloc::Global;
use std::marker::Model;

/// The arrays of a flat column.
#[derive(Drop)]
pub struct FlatIter<I: Pages> {
    pieces: LeafIter<I>,
}

impl<I: Pages> Model for FlatIter<I> {
    ghost use Rattle.std.specs.Prelude.{Option};
    ghost use Rattle.std.specs.Coded.{codes};
    ghost use Rattle.columns_core.specs.TypeCode.{type_code};
    ghost use Rattle.read_column.specs.SlotCode.{slot_code};
    ghost use Rattle.read_leaves.specs.Leaf.{LeafReading};

    ghost Value = { Option LeafReading };

    ghost coded = { Prim.hlevel (codes, slot_code, type_code) };

    ghost view = { λ it. it.pieces };
}

/// The iterator over the arrays of a flat column of `num_rows` rows: of a field whose own type is a leaf's. With a chunk size each array has as many rows,
/// the last one those that are left. No page is taken.
///
/// # Errors
///
/// - `InvalidArgumentError(A1)`: exactly for a chunk size of 0.
/// - `NotYetImplemented(N5)`: only where the type is not read under the physical type, or not where it may not be null; such a column is not opened.
/// - `Memory`.
pub fn page_iter_to_arrays<I: Pages>(
    alloc: Global,
    pages: I,
    type_: PrimitiveType,
    data_type: DataType,
    chunk_size: Option<usize>,
    num_rows: usize,
) -> Result<FlatIter<I>>
    ensures ok { (o : ColumnOpening) → Opens o (flat_way type_.field_info.repetition) (type_view data_type)
        (physical_view type_.physical_type) (I.outcomes pages) num_rows chunk_size
        → IfOk result (IsGivingPieces o (type_view data_type) []) }
    ensures size { IsErrOf result (InvalidArgumentError A1) ↔ (chunk_size ≡ Some 0) }
    ensures unserved { IfErr result (λ e. e ≡ NotYetImplemented N5 → is_read_along
        (flat_way type_.field_info.repetition) (base (type_view data_type)) (physical_view type_.physical_type)
        ≡ false) }
    ensures served { IfOk result (λ it. is_read_along (flat_way type_.field_info.repetition)
        (base (type_view data_type)) (physical_view type_.physical_type) ≡ true) }
    ensures err { IfErr result (λ e. (e ≡ Memory) ⊎ (e ≡ InvalidArgumentError A1) ⊎ (e ≡ NotYetImplemented N5)) }
{
    if chunk_size == Some(0) {
        return Err(Error::InvalidArgumentError(A::A1));
    }
    let init = match flat_parts(alloc, type_.field_info.repetition) {
        Ok(init) => init,
        Err(error) => return Err(error),
    };
    match LeafIter::try_new(
        alloc,
        pages,
        init,
        data_type,
        type_.physical_type,
        num_rows,
        chunk_size,
    ) {
        Ok(pieces) => Ok(FlatIter { pieces }),
        Err(error) => Err(error),
    }
}

// The parts of the way.
fn flat_parts(alloc: Global, repetition: Repetition) -> Result<Vec<InitNested>>
    ensures ok { IfOk result (λ parts. parts.items ≡ flat_way repetition) }
    ensures err { IfErr result (λ e. e ≡ Memory) }
{
    let is_nullable = match repetition {
        Repetition::Optional => true,
        _ => false,
    };
    let parts = Vec::from_slice(alloc, &[InitNested::Primitive(is_nullable)])?;
    Ok(parts)
}

// The array of a piece, of which the state is let go.
fn array_of(item: Option<Result<(NestedState, ArrayBox)>>) -> Option<Result<ArrayBox>>
    ensures { LeavesArray item result }
{
    match item {
        None => None,
        Some(Err(error)) => Some(Err(error)),
        Some(Ok((_, array))) => {
            array.know_slots();
            Some(Ok(array))
        }
    }
}

impl<I: Pages> FlatIter<I> {
    /// The next array. None at the end, and behind an error.
    ///
    /// # Errors
    ///
    /// Those of `LeafColumn` of `read_leaves`: S3 or N4 of the source; S3 to S7 and S9 where the pages hold no rows of the column; N4 where a page is not
    /// read yet; V1 where an array has more bytes than its offsets count; `Memory`.
    pub fn next(&mut self) -> Option<Result<ArrayBox>>
        ensures gives { (o : ColumnOpening) (t : TypeTree) (pieces : List (List Triple)) → is_alone o.column.way ≡ true
            → IsGivingPieces o t pieces self.old → GivesArray o t pieces result self.new }
        ensures ends { IsAtEnd result self.new }
        ensures ended { self.old ≡ None → (result ≡ None) × (self.new ≡ None) }
    {
        array_of(self.pieces.next())
    }
}
