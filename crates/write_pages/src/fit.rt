//! Whether a column can be written: its path and type fit its array, and its pages are ones that are written.
ghost use Rattle.std.specs.Prelude.{◌≡◌, ◌⊎◌, ◌↔◌, IsTrue, ℕ, true, false, length, All, OnOk, IfErr};
ghost use Rattle.shredding.specs.Along.{IsAlong};
ghost use Rattle.shredding.specs.Parts.{path_way};
ghost use Rattle.columns_base.specs.declared.error.Error.TheVariants.{Memory, InvalidArgumentError, NotYetImplemented};
ghost use Rattle.columns_base.specs.declared.error.A.TheVariants.{A8};
ghost use Rattle.columns_base.specs.declared.error.N.TheVariants.{N4, N5};
ghost use Rattle.columns_array.specs.Boxed.{boxed};
ghost use Rattle.columns_core.specs.Shapes.{base};
ghost use Rattle.columns_core.specs.View.{type_view};
ghost use Rattle.columns_slots.specs.Slots.{tree_len, type_of};
ghost use Rattle.columns_slots.specs.Types.{is_null_type};
ghost use Rattle.levels.specs.InBounds.{IsInBounds};
ghost use Rattle.levels.specs.Nested.{parts_of};
ghost use Rattle.levels.specs.Ranges.{leaf_count_or};
ghost use Rattle.nested_paths.specs.Nodes.{is_optional};
ghost use Rattle.nested_paths.specs.PathLeaf.{is_leaf_optional, FitsLeaf};
ghost use Rattle.pq_tree.specs.TreeViews.{leaf_view};
ghost use Rattle.pq_tree.specs.Views.{physical_view};
ghost use Rattle.pq_tree.specs.Physical.{fixed};
ghost use Rattle.schema_to_tree.specs.Encodes.{encodes};
ghost use Rattle.write_values.specs.Served.{is_served};
ghost use Rattle.write_pages.specs.Fits.{FitsColumn, is_flat_path, is_written, is_written_as, is_written_in, is_written_along, is_written_flat};
ghost use Rattle.write_pages.specs.Holds.{is_delta_encoding, rows_of, wants_deltas};
ghost use Rattle.write_pages.specs.Refused.{IsUnwritten};

use crate::cut_column::cut_column;
use crate::keys::is_dictionary;
use crate::nulls::{is_null, seen_path};
use columns_array::ArrayBox;
use columns_core::{A, DataType, Error, IntervalUnit, N, Result};
use levels::{Nested, is_in_bounds, slot_count};
use nested_paths::fits_leaf;
use pq_tree::{Encoding, PhysicalType, PrimitiveType, Repetition};
use schema_to_tree::can_encode;
use std::alloc::Global;
use write_values::{is_decimal, is_served};

pub const MISFIT: Error = Error::InvalidArgumentError(A::A8);

pub fn is_flat(nested: &[Nested]) -> bool
    ensures { result ≡ is_flat_path (parts_of nested.now) }
{
    nested.len() == 1
}

fn is_fixed(physical_type: PhysicalType) -> bool
    ensures { IsTrue result ↔ ((n : ℕ) × (physical_view physical_type ≡ fixed n)) }
{
    matches!(physical_type, PhysicalType::FixedLenByteArray(_))
}

// Whether the deltas are ones that the type may have. Types that have some do not nest.
fn allows_deltas(data_type: &DataType, encoding: Encoding) -> bool
    requires { is_delta_encoding encoding ≡ true }
    ensures { result ≡ encodes encoding (type_view data_type.now) }
{
    let base = data_type.base();
    base.nests_within(128) && can_encode(base, encoding)
}

// Whether values of the type are written in the encoding.
fn is_written_as(data_type: &DataType, physical_type: PhysicalType, encoding: Encoding) -> bool
    ensures { result ≡ is_written_as encoding (type_view data_type.now) (physical_view physical_type) }
{
    match encoding {
        Encoding::Plain => true,
        Encoding::PlainDictionary | Encoding::RleDictionary => is_dictionary(data_type),
        Encoding::DeltaLengthByteArray => allows_deltas(data_type, encoding),
        Encoding::DeltaBinaryPacked => {
            !is_fixed(physical_type) && allows_deltas(data_type, encoding)
        }
        _ => false,
    }
}

/// Whether pages of the path are to have the deltas of their type.
pub fn wants_deltas(nested: &[Nested], encoding: Encoding) -> bool
    ensures { result ≡ wants_deltas (parts_of nested.now) encoding }
{
    is_flat(nested)
        && matches!(
            encoding,
            Encoding::DeltaBinaryPacked | Encoding::DeltaLengthByteArray
        )
}

// Whether values of the type are written in a column that is no more than its leaf, and in no other.
fn is_written_flat(data_type: &DataType) -> bool
    ensures { result ≡ is_written_flat (base (type_view data_type.now)) }
{
    match data_type.base() {
        DataType::FixedSizeBinary(size) => 1 <= *size && *size <= 2_147_483_647,
        DataType::Decimal(_, _) => true,
        DataType::Interval(IntervalUnit::YearMonth | IntervalUnit::DayTime) => true,
        _ => false,
    }
}

// Whether values of the type are written in any column.
fn is_written(data_type: &DataType) -> bool
    ensures { result ≡ is_written (base (type_view data_type.now)) }
{
    if is_decimal(data_type) {
        return false;
    }
    is_served(data_type, PhysicalType::Boolean)
        || is_served(data_type, PhysicalType::Int32)
        || is_served(data_type, PhysicalType::Int64)
        || is_served(data_type, PhysicalType::ByteArray)
}

/// Whether values of the type are written, in a column that is no more than its leaf or in one that is.
pub fn is_written_in(is_flat: bool, data_type: &DataType) -> bool
    ensures { result ≡ is_written_in is_flat (base (type_view data_type.now)) }
{
    is_written(data_type) || (is_flat && is_written_flat(data_type))
}

/// That pages of the array are written so.
///
/// # Errors
///
/// - `NotYetImplemented(N4)` exactly where a flat path is in an encoding in which values of the type are not written.
/// - `NotYetImplemented(N5)` exactly where not, and values of the array's type are not written in such a column.
pub fn check_written(
    array: &ArrayBox,
    physical_type: PhysicalType,
    nested: &[Nested],
    encoding: Encoding,
) -> Result<()>
    ensures ok { OnOk result
        ((¬ IsUnwritten (parts_of nested.now) (type_of (boxed array.now)) (physical_view physical_type) encoding)
        × (is_written_along (parts_of nested.now) (boxed array.now) ≡ true)) }
    ensures err { IfErr result (λ e. ((e ≡ NotYetImplemented N4)
        × IsUnwritten (parts_of nested.now) (type_of (boxed array.now)) (physical_view physical_type) encoding)
        ⊎ ((e ≡ NotYetImplemented N5)
        × (¬ IsUnwritten (parts_of nested.now) (type_of (boxed array.now)) (physical_view physical_type) encoding)
        × (is_written_along (parts_of nested.now) (boxed array.now) ≡ false))) }
{
    if is_flat(nested) && !is_written_as(array.data_type(), physical_type, encoding) {
        return Err(Error::NotYetImplemented(N::N4));
    }
    if !is_written_in(is_flat(nested), array.data_type()) {
        return Err(Error::NotYetImplemented(N::N5));
    }
    Ok(())
}

// Whether the leaf of a path may be null.
pub fn is_leaf_optional(nested: &[Nested]) -> bool
    ensures { result ≡ is_leaf_optional (parts_of nested.now) }
{
    let mut parts = nested;
    while let Some((part, rest)) = parts.split_first() {
        if let Nested::Primitive(_, is_optional, _) = part {
            return *is_optional;
        }
        parts = rest;
    }
    false
}

// Whether the leaf of a tree may be null.
pub fn is_optional(type_: &PrimitiveType) -> bool
    ensures { result ≡ is_optional (leaf_view type_.now) }
{
    type_.field_info.repetition != Repetition::Required
}

// That no row of a path in bounds over an array of nulls alone is null where that is not allowed.
fn check_nulls(alloc: Global, array: &ArrayBox, nested: &[Nested]) -> Result<()>
    requires null { is_null_type (base (type_of (boxed array.now))) ≡ true }
    requires in_bounds { IsInBounds (parts_of nested.now) }
    requires leaf { tree_len (boxed array.now) ≡ leaf_count_or 0 (parts_of nested.now) }
    ensures ok { OnOk result (All (IsAlong (path_way (parts_of nested.now)))
        (rows_of (parts_of nested.now) (boxed array.now))) }
    ensures err { IfErr result (λ e. (e ≡ Memory) ⊎ ((e ≡ InvalidArgumentError A8)
        × ¬ All (IsAlong (path_way (parts_of nested.now))) (rows_of (parts_of nested.now) (boxed array.now)))) }
{
    let whole = cut_column(alloc, array, nested, 0, slot_count(nested))?;
    match seen_path(alloc, &whole.array, &whole.nested) {
        Ok(_) => Ok(()),
        Err(error) => Err(error),
    }
}

/// That the path is in bounds, and the path and the type fit the array, whose values are written.
///
/// # Errors
///
/// - `InvalidArgumentError(A8)` exactly where not.
/// - `Memory`.
pub fn check_fit(
    alloc: Global,
    array: &ArrayBox,
    type_: &PrimitiveType,
    nested: &[Nested],
) -> Result<()>
    requires { is_written_along (parts_of nested.now) (boxed array.now) ≡ true }
    ensures in_bounds { OnOk result (IsInBounds (parts_of nested.now)) }
    ensures fits { OnOk result (FitsColumn (parts_of nested.now) (rows_of (parts_of nested.now) (boxed array.now))
        (leaf_view type_.now) (physical_view type_.now.physical_type) (boxed array.now)) }
    ensures served { OnOk result (is_served (base (type_of (boxed array.now))) (physical_view type_.now.physical_type)
        ≡ true) }
    ensures err { IfErr result (λ e. (e ≡ Memory) ⊎ ((e ≡ InvalidArgumentError A8)
        × ¬ (IsInBounds (parts_of nested.now) × FitsColumn (parts_of nested.now)
        (rows_of (parts_of nested.now) (boxed array.now)) (leaf_view type_.now)
        (physical_view type_.now.physical_type) (boxed array.now)))) }
{
    array.know();
    if !is_in_bounds(nested) {
        return Err(MISFIT);
    }
    if !fits_leaf(array, nested) {
        return Err(MISFIT);
    }
    if is_optional(type_) != is_leaf_optional(nested) {
        return Err(MISFIT);
    }
    if !is_served(array.data_type(), type_.physical_type) {
        return Err(MISFIT);
    }
    if !is_null(array) {
        return Ok(());
    }
    match check_nulls(alloc, array, nested) {
        Ok(()) => Ok(()),
        Err(error) => Err(error),
    }
}
