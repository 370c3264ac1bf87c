//! The next piece of a dictionary's column, once its entries were read.
ghost use Rattle.std.specs.Prelude.{◌≡◌, ◌⊎◌, List, Some, Ok, IfErr, IfOk};
ghost use Rattle.columns_array.specs.Boxed.{boxed};
ghost use Rattle.columns_array.specs.Fits.{FitsKeys};
ghost use Rattle.columns_base.specs.declared.error.Error.TheVariants.{Memory};
ghost use Rattle.columns_core.specs.Shapes.{base};
ghost use Rattle.columns_core.specs.View.{type_view};
ghost use Rattle.columns_leaf.specs.Keyed.{key_mask, keys_of};
ghost use Rattle.columns_slots.specs.Tree.{dictionary_array};
ghost use Rattle.dictionary_leaves.specs.Dictionaries.{IsDictionaryPiece, IsOpenDictionary};
ghost use Rattle.dictionary_leaves.specs.KeyColumns.{key_in, reader_in};
ghost use Rattle.dictionary_leaves.specs.Pieces.{MakesDictionary};
ghost use Rattle.read_pieces.specs.Columns.{ColumnOpening, GivesPiece};
ghost use Rattle.shredding.specs.Shred.{Triple};

use crate::key_column::KeyColumn;
use columns_array::{ArrayBox, DictionaryArray};
use columns_base::Result;
use columns_core::DataType;
use columns_leaf::keys::DictionaryKeys;
use dictionary_columns::{
    pieces_are_entered, refusals_are_entered, rows_could_be, states_are_entered, whole_is_entered,
};
use pq_pages::Pages;
use read_pieces::ColumnPiece;
use read_state::NestedState;
use std::alloc::Global;

// The dictionary array of keys and entries.
fn dictionary_of(
    alloc: Global,
    data_type: &DataType,
    keys: DictionaryKeys,
    entries: &ArrayBox,
) -> Result<DictionaryArray>
    ensures ok { IfOk result (λ a. a ≡ dictionary_array (type_view data_type.now) (keys_of keys) (boxed entries.now)
        (key_mask keys)) }
    ensures err { IfErr result (λ e. (e ≡ Memory) ⊎ (FitsKeys (base (type_view data_type.now)) keys (boxed entries.now)
        → ⊥)) }
{
    let data_type = match data_type.clone(alloc) {
        Ok(data_type) => data_type,
        Err(error) => return Err(error),
    };
    let entries = match entries.clone(alloc) {
        Ok(entries) => entries,
        Err(error) => return Err(error),
    };
    DictionaryArray::try_new(alloc, data_type, keys, entries)
}

// The piece of a state and keys.
fn piece_of(
    alloc: Global,
    data_type: &DataType,
    item: Option<Result<(NestedState, DictionaryKeys)>>,
    entries: &ArrayBox,
) -> Option<Result<ColumnPiece>>
    ensures { MakesDictionary (type_view data_type.now) (boxed entries.now) item result }
{
    match item {
        None => None,
        Some(Err(error)) => Some(Err(error)),
        Some(Ok((nested, keys))) => match dictionary_of(alloc, data_type, keys, entries) {
            Ok(array) => Some(Ok(ColumnPiece {
                nested,
                values: ArrayBox::Dictionary(array),
            })),
            Err(error) => Some(Err(error)),
        },
    }
}

/// The next piece of a column of this dictionary type, by that of its keys, over these entries.
///
/// # Errors
///
/// Those of `ColumnReader`.
pub fn next_of<I: Pages>(
    column: &mut KeyColumn<I>,
    entries: &ArrayBox,
    alloc: Global,
    data_type: &DataType,
) -> Option<Result<ColumnPiece>>
    ensures kind { key_in column.new ≡ key_in column.old }
    ensures gives { (o : ColumnOpening) (pieces : List (List Triple))
        → IsOpenDictionary o (type_view data_type.now) pieces (key_in column.old) (reader_in column.old)
        (boxed entries.now) → GivesPiece
        (λ x ps r. IsOpenDictionary x (type_view data_type.now) ps (key_in column.old) r (boxed entries.now))
        (λ p ts. IsDictionaryPiece o (type_view data_type.now) ts p) o pieces result (reader_in column.new) }
{
    pieces_are_entered();
    states_are_entered();
    whole_is_entered();
    rows_could_be();
    refusals_are_entered();
    let item = column.next_keys(alloc, entries.len());
    piece_of(alloc, data_type, item, entries)
}
