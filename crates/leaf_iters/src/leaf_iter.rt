//! What all iterators over a leaf's column do.
ghost use Rattle.std.specs.Prelude.{◌≡◌, ◌≢◌, ◌↔◌, ◌⊎◌, [], List, None, Some, true, false, IfErr, IfOk, IsErrOf};
ghost use Rattle.columns_base.specs.declared.error.Error.TheVariants.{InvalidArgumentError, Memory, NotYetImplemented};
ghost use Rattle.columns_base.specs.declared.error.A.TheVariants.{A1};
ghost use Rattle.columns_base.specs.declared.error.N.TheVariants.{N5};
ghost use Rattle.columns_core.specs.Shapes.{base};
ghost use Rattle.columns_core.specs.Tree.{TypeTree};
ghost use Rattle.columns_core.specs.View.{type_view};
ghost use Rattle.pq_tree.specs.Views.{physical_view};
ghost use Rattle.read_leaves.specs.Leaf.{is_read_along};
ghost use Rattle.read_pieces.specs.Columns.{ColumnOpening};
ghost use Rattle.shredding.specs.Shred.{Triple};
ghost use Rattle.leaf_iters.specs.Iters.{GivesItem, IsAtEnd, IsGivingPieces, Opens};

use columns_array::ArrayBox;
use columns_base::{A, Error, PhysicalType, Result};
use columns_core::DataType;
use pq_pages::Pages;
use read_leaves::LeafColumn;
use read_state::{InitNested, NestedState};
use std::alloc::Global;
use std::marker::Model;

/// The pieces of a leaf's column: of each the nested state of its way and the array of the leaf.
#[derive(Drop)]
pub struct LeafIter<I: Pages> {
    // None behind the end, and behind an error.
    column: Option<LeafColumn<I>>,
}

impl<I: Pages> Model for LeafIter<I> {
    ghost use Rattle.std.specs.Prelude.{Option};
    ghost use Rattle.std.specs.Coded.{codes};
    ghost use Rattle.columns_core.specs.TypeCode.{type_code};
    ghost use Rattle.read_column.specs.SlotCode.{slot_code};
    ghost use Rattle.read_leaves.specs.Leaf.{LeafReading};

    ghost Value = { Option LeafReading };

    ghost coded = { Prim.hlevel (codes, slot_code, type_code) };

    ghost view = { λ it. it.column };
}

impl<I: Pages> LeafIter<I> {
    /// The iterator over a column of this type, stored under this physical type, along these parts.
    ///
    /// # Errors
    ///
    /// - `InvalidArgumentError(A1)`: exactly for a chunk size of 0.
    /// - `NotYetImplemented(N5)`: otherwise exactly where leaves of this type are not read under this physical type at the end of such a way.
    /// - `Memory`.
    pub fn try_new(
        alloc: Global,
        iter: I,
        init: Vec<InitNested>,
        data_type: DataType,
        physical_type: PhysicalType,
        num_rows: usize,
        chunk_size: Option<usize>,
    ) -> Result<Self>
        ensures ok { (o : ColumnOpening) → Opens o init.items (type_view data_type) (physical_view physical_type)
            (I.outcomes iter) num_rows chunk_size → IfOk result (IsGivingPieces o (type_view data_type) []) }
        ensures size { IsErrOf result (InvalidArgumentError A1) ↔ (chunk_size ≡ Some 0) }
        ensures unserved { IsErrOf result (NotYetImplemented N5) ↔ ((chunk_size ≢ Some 0)
            × (is_read_along init.items (base (type_view data_type)) (physical_view physical_type) ≡ false)) }
        ensures err { IfErr result (λ e. (e ≡ Memory) ⊎ (e ≡ InvalidArgumentError A1) ⊎ (e ≡ NotYetImplemented N5)) }
    {
        if chunk_size == Some(0) {
            return Err(Error::InvalidArgumentError(A::A1));
        }
        match LeafColumn::try_new(
            alloc,
            iter,
            data_type,
            physical_type,
            init,
            chunk_size,
            num_rows,
        ) {
            Ok(column) => Ok(LeafIter {
                column: Some(column),
            }),
            Err(error) => Err(error),
        }
    }

    /// The same, where such leaves are read.
    ///
    /// # Errors
    ///
    /// - `InvalidArgumentError(A1)`: exactly for a chunk size of 0.
    /// - `Memory`.
    pub fn new(
        alloc: Global,
        iter: I,
        init: Vec<InitNested>,
        data_type: DataType,
        physical_type: PhysicalType,
        num_rows: usize,
        chunk_size: Option<usize>,
    ) -> Result<Self>
        requires { is_read_along init.items (base (type_view data_type)) (physical_view physical_type) ≡ true }
        ensures ok { (o : ColumnOpening) → Opens o init.items (type_view data_type) (physical_view physical_type)
            (I.outcomes iter) num_rows chunk_size → IfOk result (IsGivingPieces o (type_view data_type) []) }
        ensures size { IsErrOf result (InvalidArgumentError A1) ↔ (chunk_size ≡ Some 0) }
        ensures err { IfErr result (λ e. (e ≡ Memory) ⊎ (e ≡ InvalidArgumentError A1)) }
    {
        LeafIter::try_new(
            alloc,
            iter,
            init,
            data_type,
            physical_type,
            num_rows,
            chunk_size,
        )
    }

    /// The next piece. None at the end, and behind an error.
    ///
    /// # Errors
    ///
    /// Those of `LeafColumn`.
    pub fn next(&mut self) -> Option<Result<(NestedState, ArrayBox)>>
        ensures gives { (o : ColumnOpening) (t : TypeTree) (pieces : List (List Triple))
            → IsGivingPieces o t pieces self.old → GivesItem o t pieces result self.new }
        ensures ends { IsAtEnd result self.new }
        ensures ended { self.old ≡ None → (result ≡ None) × (self.new ≡ None) }
    {
        let Some(mut column) = self.column.take() else {
            return None;
        };
        match column.next_piece() {
            None => None,
            Some(Err(error)) => Some(Err(error)),
            Some(Ok(piece)) => {
                self.column = Some(column);
                Some(Ok((piece.nested, piece.values)))
            }
        }
    }
}
