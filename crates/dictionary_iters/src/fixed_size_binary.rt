//! Columns of dictionaries of byte strings of one size.
ghost use Rattle.std.specs.Prelude.{◌≡◌, ◌↔◌, ◌⊎◌, [], List, None, Some, IfErr, IfOk, IsErrOf};
ghost use Rattle.columns_base.specs.declared.error.Error.TheVariants.{InvalidArgumentError, Memory};
ghost use Rattle.columns_base.specs.declared.error.A.TheVariants.{A1};
ghost use Rattle.columns_core.specs.Shapes.{base};
ghost use Rattle.columns_core.specs.Tree.{TypeTree};
ghost use Rattle.columns_core.specs.View.{type_view};
ghost use Rattle.pq_tree.specs.Physical.{fixed};
ghost use Rattle.read_pieces.specs.Columns.{ColumnOpening};
ghost use Rattle.shredding.specs.Shred.{Triple};
ghost use Rattle.dictionary_iters.specs.Iters.{GivesDictionaryItem, IsAtEnd, IsGivingDictionaries, OpensDictionary};
ghost use Rattle.dictionary_iters.specs.Readers.{of_chunks};
ghost use Rattle.dictionary_iters.specs.Types.{IsDictionaryOf, entry_size, is_chunk};

use crate::dict_iter::DictIter;
use columns_array::ArrayBox;
use columns_base::{PhysicalType, Result};
use columns_core::DataType;
use columns_native::KeyArray;
use pq_pages::Pages;
use read_state::{InitNested, NestedState};
use std::alloc::Global;
use std::marker::PhantomData;

/// The pieces of a column of a dictionary of byte strings of one size, FIXED_LEN_BYTE_ARRAY: of each the nested state of the way to the leaf, and a
/// dictionary array with keys of `K2`.
#[derive(Drop)]
pub struct NestedDictIter<K2, I: Pages> {
    pieces: DictIter<I>,
    key: PhantomData<K2>,
}

// How many bytes each entry has.
fn size_of_entries(data_type: &DataType) -> usize
    ensures { result ≡ entry_size (base (type_view data_type.now)) }
{
    match data_type.base() {
        DataType::Dictionary(_, value, _) => match value.base() {
            DataType::FixedSizeBinary(size) => *size,
            _ => 0,
        },
        _ => 0,
    }
}

impl<K2: KeyArray, I: Pages> NestedDictIter<K2, I> {
    /// The iterator over the pages of a column of `num_rows` rows along the parts of `init`, which end in their only `Primitive`. With a chunk size
    /// each item has as many rows, the last one those that are left. No page is taken.
    ///
    /// The type is that of dictionaries with keys of `K2`, of byte strings of one size from 1 to 2^31 - 1, as a column of FIXED_LEN_BYTE_ARRAY stores them.
    ///
    /// # Errors
    ///
    /// - `InvalidArgumentError(A1)`: exactly for a chunk size of 0.
    /// - `Memory`.
    #[tactic(auto, using(crate::proofs::Read::chunks_read))]
    pub fn new(
        alloc: Global,
        iter: I,
        init: Vec<InitNested>,
        data_type: DataType,
        num_rows: usize,
        chunk_size: Option<usize>,
    ) -> Result<Self>
        requires arrays { IsDictionaryOf K2.kind is_chunk (base (type_view data_type)) }
        ensures ok { (o : ColumnOpening) → OpensDictionary o init.items (type_view data_type)
            (fixed (entry_size (base (type_view data_type)))) (I.outcomes iter) num_rows chunk_size
            → IfOk result (λ it. IsGivingDictionaries o (type_view data_type) [] (of_chunks it)) }
        ensures size { IsErrOf result (InvalidArgumentError A1) ↔ (chunk_size ≡ Some 0) }
        ensures err { IfErr result (λ e. (e ≡ Memory) ⊎ (e ≡ InvalidArgumentError A1)) }
    {
        let size = size_of_entries(&data_type);
        match DictIter::new(
            alloc,
            iter,
            init,
            data_type,
            PhysicalType::FixedLenByteArray(size),
            num_rows,
            chunk_size,
        ) {
            Ok(pieces) => Ok(NestedDictIter {
                pieces,
                key: PhantomData,
            }),
            Err(error) => Err(error),
        }
    }

    /// The next piece. None at the end, and behind an error.
    ///
    /// # Errors
    ///
    /// Those of `DictionaryColumn` of `dictionary_leaves`: S3 or N4 of the source; S3 to S7, S9 and S10 where the pages hold no rows of the column, S6 and
    /// S7 also for entries that no index names; N4 and N8 where a page is not read yet; V2 where the entries are more than the keys' type numbers;
    /// `Memory`.
    pub fn next(&mut self) -> Option<Result<(NestedState, ArrayBox)>>
        ensures gives { (o : ColumnOpening) (t : TypeTree) (pieces : List (List Triple))
            → IsGivingDictionaries o t pieces (of_chunks self.old)
            → GivesDictionaryItem o t pieces result (of_chunks self.new) }
        ensures ends { IsAtEnd result (of_chunks self.new) }
        ensures ended { of_chunks self.old ≡ None → (result ≡ None) × (of_chunks self.new ≡ None) }
    {
        self.pieces.next()
    }
}
