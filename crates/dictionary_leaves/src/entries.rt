//! The entries of a dictionary page as an array.
ghost use Rattle.std.specs.Prelude.{◌≡◌, ◌⊎◌, [], ◌∷◌, false, true, IfErr, IfOk, MatchResult};
ghost use Rattle.columns_array.specs.Boxed.{boxed};
ghost use Rattle.columns_base.specs.declared.error.Error.TheVariants.{Memory};
ghost use Rattle.columns_core.specs.Shapes.{base};
ghost use Rattle.columns_core.specs.View.{type_view};
ghost use Rattle.dictionary_leaves.specs.Entries.{AreDecoded, CannotDecodeAll, CannotEnter, HasEntries, is_overflow};
ghost use Rattle.dictionary_leaves.specs.Flat.{entry_pairs};
ghost use Rattle.read_laws.specs.State.{kept_leaf};

use columns_array::ArrayBox;
use columns_base::{Error, Result};
use columns_core::DataType;
use read_column::read_entries;
use read_pieces::{LeafReader, PlainBytes, extend_leaf};
use read_state::{InitNested, NestedState, init_nested};
use read_types::LeafArray;
use read_walk::NestedPage;
use std::alloc::Global;

// So many pairs of a column without levels.
fn plain_pairs<'a>(count: usize) -> Result<NestedPage<'a>>
    ensures { MatchResult result (λ page. page ≡ entry_pairs count) (λ e. ⊥) }
{
    NestedPage::try_new(&[], 0, &[], 0, count)
}

// The state of a required leaf before its first value.
fn plain_state(alloc: Global) -> Result<NestedState>
    ensures ok { IfOk result (λ s. s ≡ kept_leaf false 0 ∷ []) }
    ensures err { IfErr result (λ e. e ≡ Memory) }
{
    init_nested(alloc, &[InitNested::Primitive(false)], 0)
}

// So many values, which stand plain at the front of the body.
fn decode<L: LeafReader>(alloc: Global, leaf: &L, body: &[u8], count: usize) -> Result<L::Values>
    ensures ok { IfOk result (λ v. AreDecoded (λ text. L.stored leaf.now text 0) count body.now (L.slots v)) }
    ensures suits { IfOk result (λ v. L.suits leaf.now (L.width v)) }
    ensures err { IfErr result (λ e. CannotDecodeAll (λ text. L.stored leaf.now text 0) L.byte_limit count body.now e) }
{
    let mut page = plain_pairs(count)?;
    let mut nested = plain_state(alloc)?;
    let mut values = leaf.begin(alloc)?;
    let mut bytes = PlainBytes {
        values: body,
        bit: 0,
    };
    match extend_leaf(leaf, &mut page, &mut bytes, &mut nested, &mut values, count) {
        Ok(()) => Ok(values),
        Err(error) => Err(error),
    }
}

// Whether something passes its bound.
fn is_past_bound(error: &Error) -> bool
    ensures { result ≡ is_overflow error.now }
{
    match error {
        Error::Overflow(_) => true,
        _ => false,
    }
}

// Why values that are not decoded are no entries: where they are too long, it is first seen whether all are there.
#[tactic(auto, using(crate::proofs::Whole::not_past, crate::proofs::Whole::past))]
fn entry_error<L: LeafReader>(
    alloc: Global,
    leaf: &L,
    body: &[u8],
    count: usize,
    error: Error,
) -> Error
    requires { CannotDecodeAll (λ text. L.stored leaf.now text 0) L.byte_limit count body.now error }
    ensures { (result ≡ Memory) ⊎ CannotEnter (λ text. L.stored leaf.now text 0) L.byte_limit count body.now result }
{
    if !is_past_bound(&error) {
        return error;
    }
    if let Err(other) = read_entries(alloc, leaf, body, count) {
        return other;
    }
    error
}

/// So many entries at the front of a dictionary page's body, plain, as an array of a type (Parquet format, "Dictionary Page").
///
/// # Errors
///
/// S6 where the body is cut, S7 where an entry is no value of the type, used or not; V1 where all are there and have more bytes than the type's
/// offsets count; `Memory`.
pub fn entry_array<L: LeafArray>(
    alloc: Global,
    leaf: &L,
    body: &[u8],
    count: usize,
    data_type: DataType,
) -> Result<ArrayBox>
    requires { L.makes leaf.now (base (type_view data_type)) ≡ true }
    ensures ok { IfOk result (λ a. HasEntries (λ text. L.stored leaf.now text 0) count body.now (type_view data_type)
        (boxed a)) }
    ensures err { IfErr result (λ e. (e ≡ Memory)
        ⊎ CannotEnter (λ text. L.stored leaf.now text 0) L.byte_limit count body.now e) }
{
    match decode(alloc, leaf, body, count) {
        Ok(values) => leaf.into_array(alloc, values, data_type),
        Err(error) => Err(entry_error(alloc, leaf, body, count, error)),
    }
}
