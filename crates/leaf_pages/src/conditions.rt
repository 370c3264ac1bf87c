//! Whether a path and a type fit an array of values.
ghost use Rattle.std.specs.Prelude.{◌≡◌, ◌⊎◌, ◌↔◌, ◌<◌, IsTrue, OnOk, IfErr, drop, length};
ghost use Rattle.columns_base.specs.declared.error.Error.TheVariants.{Memory};
ghost use Rattle.columns_array.specs.Boxed.{boxed};
ghost use Rattle.columns_core.specs.Shapes.{base};
ghost use Rattle.columns_core.specs.View.{type_view};
ghost use Rattle.columns_slots.specs.Types.{is_null_type};
ghost use Rattle.leaf_pages.specs.Columns.{IsTooWide, IsOfValues, MisfitsAlong, column_along, leaf_column};
ghost use Rattle.leaf_pages.specs.PathLeaf.{FitsPath, HasSameLeaf, are_values};
ghost use Rattle.levels.specs.InBounds.{IsInBounds};
ghost use Rattle.levels.specs.Nested.{parts_of};
ghost use Rattle.nested_paths.specs.PathLeaf.{is_leaf_optional};
ghost use Rattle.pq_tree.specs.TreeViews.{leaf_view};
ghost use Rattle.pq_tree.specs.Views.{physical_view};
ghost use Rattle.shredding.specs.Parts.{IsPath};

use crate::checked::is_in_pages;
use crate::flat::{flat_path, is_optional};
use columns_array::ArrayBox;
use columns_base::{A, Error, Result};
use columns_core::DataType;
use levels::{Nested, is_well_formed};
use nested_paths::fits_leaf;
use pq_tree::PrimitiveType;
use std::alloc::Global;
use write_values::{has_wide, is_served};

const MISFIT: Error = Error::InvalidArgumentError(A::A8);

// Whether it is the type of nulls alone.
fn is_null(data_type: &DataType) -> bool
    ensures { result ≡ is_null_type (base (type_view data_type.now)) }
{
    matches!(data_type.base(), DataType::Null)
}

// The parts beneath the first one.
fn beneath(nested: &[Nested]) -> &[Nested]
    requires { 1 < length nested.now }
    ensures { result.now ≡ drop 1 nested.now }
{
    &nested[1..]
}

// The leaf of a well-formed path, as a path of its own.
fn leaf_alone(nested: &[Nested]) -> &[Nested]
    requires { IsPath (parts_of nested.now) }
    ensures leaf { HasSameLeaf (parts_of nested.now) (parts_of result.now) }
    ensures in_bounds { IsInBounds (parts_of result.now) }
{
    let mut parts = nested;
    while parts.len() > 1 {
        parts = beneath(parts);
    }
    parts
}

// Whether the leaf of a path may be null.
fn is_leaf_optional(nested: &[Nested]) -> bool
    ensures { result ≡ is_leaf_optional (parts_of nested.now) }
{
    let mut parts = nested;
    while let Some((part, rest)) = parts.split_first() {
        if let Nested::Primitive(_, is_optional, _) = part {
            return *is_optional;
        }
        parts = rest;
    }
    false
}

// Whether the array is one of the leaf of a well-formed path, and the type is optional as the leaf is.
fn fits_path(array: &ArrayBox, type_: &PrimitiveType, nested: &[Nested]) -> bool
    requires { IsPath (parts_of nested.now) }
    ensures { IsTrue result ↔ FitsPath (boxed array.now) (leaf_view type_.now) (parts_of nested.now) }
{
    if is_optional(type_) != is_leaf_optional(nested) {
        return false;
    }
    fits_leaf(array, leaf_alone(nested))
}

// Whether pages have values of the array's type, no nulls alone, and the type has a physical type for them.
fn has_values(array: &ArrayBox, type_: &PrimitiveType) -> bool
    ensures { result ≡ are_values (boxed array.now) (physical_view type_.now.physical_type) }
{
    !is_null(array.data_type())
        && is_in_pages(array)
        && is_served(array.data_type(), type_.physical_type)
}

/// That a path and a type fit an array of values: what the calls for one kind of array ask. The path is well formed and its leaf has the array's length and, where
/// it may be null, its nulls; the type is optional as the leaf is, pages have values of the array's type, and the type's physical type is one of those that the page
/// table has for it.
///
/// # Errors
///
/// - `InvalidArgumentError(A8)` exactly where one of this is not so. Arrays of nulls alone and dictionaries are none of values.
/// - `InvalidArgumentError(A7)` exactly where all of this is so, and a decimal is past what its physical type holds.
pub fn check_along(array: &ArrayBox, type_: &PrimitiveType, nested: &[Nested]) -> Result<()>
    ensures ok { OnOk result (IsOfValues (column_along type_.now nested.now (boxed array.now))) }
    ensures held { OnOk result (¬ IsTooWide (column_along type_.now nested.now (boxed array.now))) }
    ensures err { IfErr result (MisfitsAlong (column_along type_.now nested.now (boxed array.now))) }
{
    array.know();
    if !is_well_formed(nested) {
        return Err(MISFIT);
    }
    if !fits_path(array, type_, nested) {
        return Err(MISFIT);
    }
    if !has_values(array, type_) {
        return Err(MISFIT);
    }
    if has_wide(array, type_.physical_type, nested) {
        return Err(Error::InvalidArgumentError(A::A7));
    }
    Ok(())
}

/// That a type fits an array of values whose column is no more than its leaf (`check_along`).
///
/// # Errors
///
/// - `InvalidArgumentError(A8)` exactly where not.
/// - `InvalidArgumentError(A7)` exactly where it does, and a decimal is past what its physical type holds.
/// - `Memory`.
pub fn check_flat(alloc: Global, array: &ArrayBox, type_: &PrimitiveType) -> Result<()>
    ensures ok { OnOk result (IsOfValues (leaf_column type_.now (boxed array.now))) }
    ensures held { OnOk result (¬ IsTooWide (leaf_column type_.now (boxed array.now))) }
    ensures err { IfErr result (λ e. (e ≡ Memory) ⊎ MisfitsAlong (leaf_column type_.now (boxed array.now)) e) }
{
    let nested = flat_path(alloc, array, type_)?;
    check_along(array, type_, &nested)
}
