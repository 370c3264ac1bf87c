//! Columns of dictionaries of numbers.
ghost use Rattle.std.specs.Prelude.{◌≡◌, ◌↔◌, ◌⊎◌, [], List, None, Some, IfErr, IfOk, IsErrOf, true};
ghost use Rattle.columns_base.specs.declared.error.Error.TheVariants.{InvalidArgumentError, Memory};
ghost use Rattle.columns_base.specs.declared.error.A.TheVariants.{A1};
ghost use Rattle.columns_core.specs.Shapes.{base};
ghost use Rattle.columns_core.specs.Tree.{TypeTree};
ghost use Rattle.columns_core.specs.View.{type_view};
ghost use Rattle.dictionary_leaves.specs.Dictionaries.{is_dictionary_read};
ghost use Rattle.pq_tree.specs.Views.{physical_view};
ghost use Rattle.read_types.specs.Arrays.{makes_numbers};
ghost use Rattle.read_pieces.specs.Columns.{ColumnOpening};
ghost use Rattle.shredding.specs.Shred.{Triple};
ghost use Rattle.dictionary_iters.specs.Iters.{GivesDictionaryItem, IsAtEnd, IsGivingDictionaries, OpensDictionary};
ghost use Rattle.dictionary_iters.specs.Readers.{of_numbers};
ghost use Rattle.dictionary_iters.specs.Types.{IsDictionaryOf};

use crate::dict_iter::DictIter;
use columns_array::ArrayBox;
use columns_base::Result;
use columns_core::DataType;
use columns_native::KeyArray;
use pq_pages::Pages;
use read_leaf::{FromStored, StoredNumber};
use read_state::{InitNested, NestedState};
use std::alloc::Global;
use std::marker::PhantomData;

/// The pieces of a column of a dictionary of numbers, stored as numbers of `P` (INT32 or INT64): of each the nested state of the way to the leaf, and a
/// dictionary array with keys of `K2` and entries that are numbers of `T`.
#[derive(Drop)]
pub struct NestedDictIter<K2, T, I: Pages, P> {
    pieces: DictIter<I>,
    key: PhantomData<K2>,
    number: PhantomData<T>,
    stored: PhantomData<P>,
}

impl<K2: KeyArray, T: FromStored<P>, I: Pages, P: StoredNumber> NestedDictIter<K2, T, I, P> {
    /// The iterator over the pages of a column of `num_rows` rows along the parts of `init`, which end in their only `Primitive`. With a chunk size
    /// each item has as many rows, the last one those that are left. No page is taken.
    ///
    /// The type is that of dictionaries with keys of `K2`, of a type of arrays of numbers of `T`, and one whose leaves are read under the physical type of
    /// `P` at the end of such a way.
    ///
    /// # Errors
    ///
    /// - `InvalidArgumentError(A1)`: exactly for a chunk size of 0.
    /// - `Memory`.
    pub fn new(
        alloc: Global,
        iter: I,
        init: Vec<InitNested>,
        data_type: DataType,
        num_rows: usize,
        chunk_size: Option<usize>,
    ) -> Result<Self>
        requires arrays { IsDictionaryOf K2.kind (makes_numbers T.stores) (base (type_view data_type)) }
        requires read { is_dictionary_read init.items (base (type_view data_type)) (physical_view P.physical) ≡ true }
        ensures ok { (o : ColumnOpening) → OpensDictionary o init.items (type_view data_type) (physical_view P.physical)
            (I.outcomes iter) num_rows chunk_size → IfOk result
            (λ it. IsGivingDictionaries o (type_view data_type) [] (of_numbers it)) }
        ensures size { IsErrOf result (InvalidArgumentError A1) ↔ (chunk_size ≡ Some 0) }
        ensures err { IfErr result (λ e. (e ≡ Memory) ⊎ (e ≡ InvalidArgumentError A1)) }
    {
        match DictIter::new(
            alloc,
            iter,
            init,
            data_type,
            P::physical_type(),
            num_rows,
            chunk_size,
        ) {
            Ok(pieces) => Ok(NestedDictIter {
                pieces,
                key: PhantomData,
                number: PhantomData,
                stored: PhantomData,
            }),
            Err(error) => Err(error),
        }
    }

    /// The next piece. None at the end, and behind an error.
    ///
    /// # Errors
    ///
    /// Those of `DictionaryColumn` of `dictionary_leaves`: S3 or N4 of the source; S3 to S7, S9 and S10 where the pages hold no rows of the column, S6 and
    /// S7 also for entries that no index names; N4 and N8 where a page is not read yet; V2 where the entries are more than the keys' type numbers;
    /// `Memory`.
    pub fn next(&mut self) -> Option<Result<(NestedState, ArrayBox)>>
        ensures gives { (o : ColumnOpening) (t : TypeTree) (pieces : List (List Triple))
            → IsGivingDictionaries o t pieces (of_numbers self.old)
            → GivesDictionaryItem o t pieces result (of_numbers self.new) }
        ensures ends { IsAtEnd result (of_numbers self.new) }
        ensures ended { of_numbers self.old ≡ None → (result ≡ None) × (of_numbers self.new ≡ None) }
    {
        self.pieces.next()
    }
}
