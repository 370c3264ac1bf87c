//! Columns of dictionaries of texts and of byte strings.
ghost use Rattle.std.specs.Prelude.{◌≡◌, ◌↔◌, ◌⊎◌, [], List, None, Some, IfErr, IfOk, IsErrOf};
ghost use Rattle.columns_base.specs.declared.error.Error.TheVariants.{InvalidArgumentError, Memory};
ghost use Rattle.columns_base.specs.declared.error.A.TheVariants.{A1};
ghost use Rattle.columns_core.specs.Shapes.{base};
ghost use Rattle.columns_core.specs.Tree.{TypeTree};
ghost use Rattle.columns_core.specs.View.{type_view};
ghost use Rattle.pq_tree.specs.Physical.{byte_array};
ghost use Rattle.read_pieces.specs.Columns.{ColumnOpening};
ghost use Rattle.shredding.specs.Shred.{Triple};
ghost use Rattle.dictionary_iters.specs.Iters.{GivesDictionaryItem, IsAtEnd, IsGivingDictionaries, OpensDictionary};
ghost use Rattle.dictionary_iters.specs.Readers.{of_strings};
ghost use Rattle.dictionary_iters.specs.Types.{IsDictionaryOf, is_string};

use crate::dict_iter::DictIter;
use columns_array::ArrayBox;
use columns_base::{PhysicalType, Result};
use columns_core::DataType;
use columns_native::{KeyArray, OffsetArray};
use pq_pages::Pages;
use read_state::{InitNested, NestedState};
use std::alloc::Global;
use std::marker::PhantomData;

/// The pieces of a column of a dictionary of texts or byte strings, BYTE_ARRAY: of each the nested state of the way to the leaf, and a dictionary array with
/// keys of `K2` and entries with offsets of `O`.
#[derive(Drop)]
pub struct NestedDictIter<K2, O, I: Pages> {
    pieces: DictIter<I>,
    key: PhantomData<K2>,
    offset: PhantomData<O>,
}

impl<K2: KeyArray, O: OffsetArray, I: Pages> NestedDictIter<K2, O, I> {
    /// The iterator over the pages of a column of `num_rows` rows along the parts of `init`, which end in their only `Primitive`. With a chunk size
    /// each item has as many rows, the last one those that are left. No page is taken.
    ///
    /// The type is that of dictionaries with keys of `K2`, of texts or of byte strings with offsets of `O`.
    ///
    /// # Errors
    ///
    /// - `InvalidArgumentError(A1)`: exactly for a chunk size of 0.
    /// - `Memory`.
    #[tactic(auto, using(crate::proofs::Read::strings_read))]
    pub fn new(
        alloc: Global,
        iter: I,
        init: Vec<InitNested>,
        data_type: DataType,
        num_rows: usize,
        chunk_size: Option<usize>,
    ) -> Result<Self>
        requires arrays { IsDictionaryOf K2.kind (is_string O.large) (base (type_view data_type)) }
        ensures ok { (o : ColumnOpening) → OpensDictionary o init.items (type_view data_type) byte_array
            (I.outcomes iter) num_rows chunk_size → IfOk result
            (λ it. IsGivingDictionaries o (type_view data_type) [] (of_strings it)) }
        ensures size { IsErrOf result (InvalidArgumentError A1) ↔ (chunk_size ≡ Some 0) }
        ensures err { IfErr result (λ e. (e ≡ Memory) ⊎ (e ≡ InvalidArgumentError A1)) }
    {
        match DictIter::new(
            alloc,
            iter,
            init,
            data_type,
            PhysicalType::ByteArray,
            num_rows,
            chunk_size,
        ) {
            Ok(pieces) => Ok(NestedDictIter {
                pieces,
                key: PhantomData,
                offset: PhantomData,
            }),
            Err(error) => Err(error),
        }
    }

    /// The next piece. None at the end, and behind an error.
    ///
    /// # Errors
    ///
    /// Those of `DictionaryColumn` of `dictionary_leaves`: S3 or N4 of the source; S3 to S7, S9 and S10 where the pages hold no rows of the column, S6 and
    /// S7 also for entries that no index names; N4 and N8 where a page is not read yet; V2 where the entries are more than the keys' type numbers; V1 where
    /// they have more bytes than offsets count;
    /// `Memory`.
    pub fn next(&mut self) -> Option<Result<(NestedState, ArrayBox)>>
        ensures gives { (o : ColumnOpening) (t : TypeTree) (pieces : List (List Triple))
            → IsGivingDictionaries o t pieces (of_strings self.old)
            → GivesDictionaryItem o t pieces result (of_strings self.new) }
        ensures ends { IsAtEnd result (of_strings self.new) }
        ensures ended { of_strings self.old ≡ None → (result ≡ None) × (of_strings self.new ≡ None) }
    {
        self.pieces.next()
    }
}
