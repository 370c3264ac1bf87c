//! Columns of nulls alone.
ghost use Rattle.std.specs.Prelude.{◌≡◌, ◌↔◌, ◌⊎◌, [], List, None, Some, true, IfErr, IfOk, IsErrOf};
ghost use Rattle.columns_base.specs.declared.error.Error.TheVariants.{InvalidArgumentError, Memory};
ghost use Rattle.columns_base.specs.declared.error.A.TheVariants.{A1};
ghost use Rattle.columns_core.specs.Tree.{TypeTree};
ghost use Rattle.read_pieces.specs.Columns.{ColumnOpening};
ghost use Rattle.shredding.specs.Shred.{Triple};
ghost use Rattle.leaf_iters.specs.Iters.{GivesItem, IsAtEnd, IsGivingPieces, Opens};
ghost use Rattle.columns_core.specs.Shapes.{base};
ghost use Rattle.columns_core.specs.View.{type_view};
ghost use Rattle.read_leaves.specs.Leaf.{ends_optional};
ghost use Rattle.columns_slots.specs.Types.{is_null_type};
ghost use Rattle.pq_tree.specs.Physical.{int32};

use crate::leaf_iter::LeafIter;
pub use crate::nulls::{NullIter, iter_to_arrays};
use columns_array::ArrayBox;
use columns_base::{PhysicalType, Result};
use columns_core::DataType;
use pq_pages::Pages;
use read_state::{InitNested, NestedState};
use std::alloc::Global;
use std::marker::Model;

/// The pieces of a column of nulls alone, INT32: of each the nested state of the way to the leaf, and an array of nulls.
#[derive(Drop)]
pub struct NestedIter<I: Pages> {
    pieces: LeafIter<I>,
}

impl<I: Pages> Model for NestedIter<I> {
    ghost use Rattle.std.specs.Prelude.{Option};
    ghost use Rattle.std.specs.Coded.{codes};
    ghost use Rattle.columns_core.specs.TypeCode.{type_code};
    ghost use Rattle.read_column.specs.SlotCode.{slot_code};
    ghost use Rattle.read_leaves.specs.Leaf.{LeafReading};

    ghost Value = { Option LeafReading };

    ghost coded = { Prim.hlevel (codes, slot_code, type_code) };

    ghost view = { λ it. it.pieces };
}

impl<I: Pages> NestedIter<I> {
    /// The iterator over the pages of a column of `num_rows` rows along the parts of `init`, which end in their only `Primitive`. With a chunk size
    /// each item has as many rows, the last one those that are left. No page is taken.
    ///
    /// The type is that of nulls, whose leaf is optional.
    ///
    /// # Errors
    ///
    /// - `InvalidArgumentError(A1)`: exactly for a chunk size of 0.
    /// - `Memory`.
    pub fn new(
        alloc: Global,
        iter: I,
        init: Vec<InitNested>,
        data_type: DataType,
        num_rows: usize,
        chunk_size: Option<usize>,
    ) -> Result<Self>
        requires arrays { is_null_type (base (type_view data_type)) ≡ true }
        requires optional { ends_optional init.items ≡ true }
        ensures ok { (o : ColumnOpening) → Opens o init.items (type_view data_type) int32
            (I.outcomes iter) num_rows chunk_size → IfOk result (IsGivingPieces o (type_view data_type) []) }
        ensures size { IsErrOf result (InvalidArgumentError A1) ↔ (chunk_size ≡ Some 0) }
        ensures err { IfErr result (λ e. (e ≡ Memory) ⊎ (e ≡ InvalidArgumentError A1)) }
    {
        match LeafIter::new(
            alloc,
            iter,
            init,
            data_type,
            PhysicalType::Int32,
            num_rows,
            chunk_size,
        ) {
            Ok(pieces) => Ok(NestedIter { pieces }),
            Err(error) => Err(error),
        }
    }

    /// The next piece. None at the end, and behind an error.
    ///
    /// # Errors
    ///
    /// Those of `LeafColumn` of `read_leaves`: S3 or N4 of the source; S3 to S7, S9 and S10 where the pages hold no rows of the column; N4 and N8 where
    /// a page is not read yet; `Memory`.
    pub fn next(&mut self) -> Option<Result<(NestedState, ArrayBox)>>
        ensures gives { (o : ColumnOpening) (t : TypeTree) (pieces : List (List Triple))
            → IsGivingPieces o t pieces self.old → GivesItem o t pieces result self.new }
        ensures ends { IsAtEnd result self.new }
        ensures ended { self.old ≡ None → (result ≡ None) × (self.new ≡ None) }
    {
        self.pieces.next()
    }
}
