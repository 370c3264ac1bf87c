//! Whether a column of a dictionary can be written: its path and type fit the array, and its pages are ones that are written.
ghost use Rattle.std.specs.Prelude.{◌≡◌, ◌⊎◌, true, false, OnOk, IfErr};
ghost use Rattle.columns_base.specs.declared.error.Error.TheVariants.{InvalidArgumentError, NotYetImplemented};
ghost use Rattle.columns_base.specs.declared.error.A.TheVariants.{A8};
ghost use Rattle.columns_base.specs.declared.error.N.TheVariants.{N4, N5};
ghost use Rattle.columns_array.specs.Boxed.{boxed};
ghost use Rattle.columns_core.specs.Shapes.{base};
ghost use Rattle.columns_core.specs.View.{type_view};
ghost use Rattle.columns_slots.specs.Slots.{type_of};
ghost use Rattle.levels.specs.Nested.{parts_of};
ghost use Rattle.pq_tree.specs.TreeViews.{leaf_view};
ghost use Rattle.pq_tree.specs.Views.{physical_view};
ghost use Rattle.schema_fit.specs.PageTable.{entry_row};
ghost use Rattle.write_pages.specs.Fits.{has_stored_length, is_dictionary_encoding, is_entry_type, is_flat_path, is_keyed_in, is_row_in, may_nest};
ghost use Rattle.write_pages.specs.Keyed.{FitsKeys};

use crate::fit::{MISFIT, is_flat, is_leaf_optional, is_optional};
use columns_array::{ArrayBox, DictionaryArray};
use columns_core::{DataType, Error, N, Result};
use dictionary_pages::is_entry;
use levels::{Nested, is_in_bounds};
use nested_paths::fits_leaf;
use pq_tree::{Encoding, PhysicalType, PrimitiveType};

fn is_dictionary_encoding(encoding: Encoding) -> bool
    ensures { result ≡ is_dictionary_encoding encoding }
{
    matches!(
        encoding,
        Encoding::PlainDictionary | Encoding::RleDictionary
    )
}

fn has_stored_length(data_type: &DataType) -> bool
    ensures { result ≡ has_stored_length (base (type_view data_type.now)) }
{
    match data_type.base() {
        DataType::FixedSizeBinary(size) => 1 <= *size && *size <= 2_147_483_647,
        _ => false,
    }
}

// Whether entries of the type are written under some physical type.
fn is_entry_type(data_type: &DataType) -> bool
    ensures { result ≡ is_entry_type (base (type_view data_type.now)) }
{
    is_entry(data_type, PhysicalType::Int32)
        || is_entry(data_type, PhysicalType::Int64)
        || is_entry(data_type, PhysicalType::ByteArray)
        || has_stored_length(data_type)
}

// Whether entries of the type may be in a column that is more than its leaf.
fn may_nest(data_type: &DataType) -> bool
    ensures { result ≡ may_nest (base (type_view data_type.now)) }
{
    !matches!(
        data_type.base(),
        DataType::UInt64 | DataType::Timestamp(_, _)
    )
}

// Whether entries of the type are written, in a column that is no more than its leaf or in one that is.
#[tactic(auto, using(crate::proofs::EntryRows::row_in))]
fn is_entry_in(is_flat: bool, data_type: &DataType) -> bool
    ensures { result ≡ is_row_in is_flat (entry_row (base (type_view data_type.now))) }
{
    is_entry_type(data_type) && (is_flat || may_nest(data_type))
}

// That pages of the dictionary are written so.
pub fn check_keys_written(
    keyed: &DictionaryArray,
    nested: &[Nested],
    encoding: Encoding,
) -> Result<()>
    ensures ok { OnOk result ((is_dictionary_encoding encoding ≡ true)
        × (is_keyed_in (is_flat_path (parts_of nested.now)) (base (type_of keyed.now)) ≡ true)) }
    ensures err { IfErr result (λ e. ((e ≡ NotYetImplemented N4) × (is_dictionary_encoding encoding ≡ false))
        ⊎ ((e ≡ NotYetImplemented N5) × (is_dictionary_encoding encoding ≡ true)
        × (is_keyed_in (is_flat_path (parts_of nested.now)) (base (type_of keyed.now)) ≡ false))) }
{
    keyed.know();
    if !is_dictionary_encoding(encoding) {
        return Err(Error::NotYetImplemented(N::N4));
    }
    if !is_entry_in(is_flat(nested), keyed.values().data_type()) {
        return Err(Error::NotYetImplemented(N::N5));
    }
    Ok(())
}

// That the path is in bounds, and the path and the type fit the dictionary, whatever its keys.
pub fn check_keyed_fit(
    array: &ArrayBox,
    keyed: &DictionaryArray,
    type_: &PrimitiveType,
    nested: &[Nested],
) -> Result<()>
    requires same { keyed.now ≡ boxed array.now }
    ensures ok { OnOk result (FitsKeys (parts_of nested.now) (leaf_view type_.now)
        (physical_view type_.now.physical_type) (boxed array.now)) }
    ensures err { IfErr result (λ e. (e ≡ InvalidArgumentError A8)
        × ¬ FitsKeys (parts_of nested.now) (leaf_view type_.now) (physical_view type_.now.physical_type)
        (boxed array.now)) }
{
    if !is_in_bounds(nested) {
        return Err(MISFIT);
    }
    if !fits_leaf(array, nested) {
        return Err(MISFIT);
    }
    if is_optional(type_) != is_leaf_optional(nested) {
        return Err(MISFIT);
    }
    if !is_entry(keyed.values().data_type(), type_.physical_type) {
        return Err(MISFIT);
    }
    Ok(())
}
