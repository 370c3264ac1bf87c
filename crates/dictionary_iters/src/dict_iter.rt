//! What all iterators over a column of a dictionary type do.
ghost use Rattle.std.specs.Prelude.{◌≡◌, ◌↔◌, ◌⊎◌, [], List, None, Some, true, IfErr, IfOk, IsErrOf};
ghost use Rattle.columns_base.specs.declared.error.Error.TheVariants.{InvalidArgumentError, Memory};
ghost use Rattle.columns_base.specs.declared.error.A.TheVariants.{A1};
ghost use Rattle.columns_core.specs.Shapes.{base};
ghost use Rattle.columns_core.specs.Tree.{TypeTree};
ghost use Rattle.columns_core.specs.View.{type_view};
ghost use Rattle.dictionary_leaves.specs.Dictionaries.{is_dictionary_read};
ghost use Rattle.pq_tree.specs.Views.{physical_view};
ghost use Rattle.read_pieces.specs.Columns.{ColumnOpening};
ghost use Rattle.shredding.specs.Shred.{Triple};
ghost use Rattle.dictionary_iters.specs.Iters.{GivesDictionaryItem, IsAtEnd, IsGivingDictionaries, OpensDictionary};

use columns_array::ArrayBox;
use columns_base::{A, Error, PhysicalType, Result};
use columns_core::DataType;
use dictionary_leaves::DictionaryColumn;
use pq_pages::Pages;
use read_state::{InitNested, NestedState};
use std::alloc::Global;

/// The pieces of a column of a dictionary type: of each the nested state of its way and the dictionary array of the leaf.
#[derive(Drop)]
pub struct DictIter<I: Pages> {
    // None behind the end, and behind an error.
    column: Option<DictionaryColumn<I>>,
}

impl<I: Pages> DictIter<I> {
    /// The iterator over a column of this dictionary type, whose entries are stored under this physical type, along these parts, where such columns are
    /// read.
    ///
    /// # Errors
    ///
    /// - `InvalidArgumentError(A1)`: exactly for a chunk size of 0.
    /// - `Memory`.
    pub fn new(
        alloc: Global,
        iter: I,
        init: Vec<InitNested>,
        data_type: DataType,
        physical_type: PhysicalType,
        num_rows: usize,
        chunk_size: Option<usize>,
    ) -> Result<Self>
        requires { is_dictionary_read init.items (base (type_view data_type)) (physical_view physical_type) ≡ true }
        ensures ok { (o : ColumnOpening) → OpensDictionary o init.items (type_view data_type)
            (physical_view physical_type) (I.outcomes iter) num_rows chunk_size
            → IfOk result (λ it. IsGivingDictionaries o (type_view data_type) [] it.column) }
        ensures size { IsErrOf result (InvalidArgumentError A1) ↔ (chunk_size ≡ Some 0) }
        ensures err { IfErr result (λ e. (e ≡ Memory) ⊎ (e ≡ InvalidArgumentError A1)) }
    {
        if chunk_size == Some(0) {
            return Err(Error::InvalidArgumentError(A::A1));
        }
        match DictionaryColumn::try_new(
            alloc,
            iter,
            data_type,
            physical_type,
            init,
            chunk_size,
            num_rows,
        ) {
            Ok(column) => Ok(DictIter {
                column: Some(column),
            }),
            Err(error) => Err(error),
        }
    }

    /// The next piece. None at the end, and behind an error.
    ///
    /// # Errors
    ///
    /// Those of `DictionaryColumn`.
    pub fn next(&mut self) -> Option<Result<(NestedState, ArrayBox)>>
        ensures gives { (o : ColumnOpening) (t : TypeTree) (pieces : List (List Triple))
            → IsGivingDictionaries o t pieces self.old.column → GivesDictionaryItem o t pieces result self.new.column }
        ensures ends { IsAtEnd result self.new.column }
        ensures ended { self.old.column ≡ None → (result ≡ None) × (self.new.column ≡ None) }
    {
        let Some(mut column) = self.column.take() else {
            return None;
        };
        match column.next_piece() {
            None => None,
            Some(Err(error)) => Some(Err(error)),
            Some(Ok(piece)) => {
                self.column = Some(column);
                Some(Ok((piece.nested, piece.values)))
            }
        }
    }
}
