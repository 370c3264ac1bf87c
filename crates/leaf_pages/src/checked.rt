//! A page of an array of values, if pages have values of its type.
ghost use Rattle.std.specs.Prelude.{◌≡◌, ◌⊎◌, ◌≤◌, true, false, length, IfOk, OnOk, IfErr};
ghost use Rattle.columns_base.specs.declared.error.Error.TheVariants.{Memory, NotYetImplemented, Overflow};
ghost use Rattle.columns_base.specs.declared.error.N.TheVariants.{N4, N5};
ghost use Rattle.columns_base.specs.declared.error.V.TheVariants.{V3};
ghost use Rattle.columns_array.specs.Boxed.{boxed};
ghost use Rattle.leaf_pages.specs.Columns.{FitsArray, IsValueArray, IsTooWide, IsPageAlong, IsTooLarge, column_along, leaf_column, is_in_pages};
ghost use Rattle.leaf_pages.specs.Forms.{IsPageNamed, has_form};
ghost use Rattle.levels.specs.Nested.{parts_of};
ghost use Rattle.pq_files.specs.Page.{plain};
ghost use Rattle.pq_tree.specs.Reads.{ComesWhere};
ghost use Rattle.pq_tree.specs.Views.{physical_view};
ghost use Rattle.shredding.specs.Parts.{IsPath};

use crate::page::{flat_page_in, flat_plain_page, plain_page};
use columns_array::ArrayBox;
use columns_base::{Error, N, Result};
use levels::Nested;
use pq_pages::DataPage;
use pq_tree::{Encoding, PrimitiveType};
use std::alloc::Global;
use write_pages::{WriteOptions, is_written_in};

// Whether pages have values of the array's type.
pub fn is_in_pages(array: &ArrayBox) -> bool
    ensures { result ≡ is_in_pages (boxed array.now) }
{
    is_written_in(true, array.data_type())
}

// A page along a path in PLAIN.
pub fn checked_page(
    alloc: Global,
    array: &ArrayBox,
    type_: PrimitiveType,
    nested: &[Nested],
    options: WriteOptions,
) -> Result<DataPage>
    requires well { IsPath (parts_of nested.now) }
    requires parts { length nested.now ≤ 128 }
    requires values { IsValueArray (boxed array.now) }
    requires fits { FitsArray (column_along type_ nested.now (boxed array.now)) }
    requires held { ¬ IsTooWide (column_along type_ nested.now (boxed array.now)) }
    ensures ok { IfOk result (IsPageAlong options plain (column_along type_ nested.now (boxed array.now))) }
    ensures unserved { ComesWhere (NotYetImplemented N5) (is_in_pages (boxed array.now) ≡ false) result }
    ensures too_large { ComesWhere (Overflow V3) ((is_in_pages (boxed array.now) ≡ true)
        × IsTooLarge (column_along type_ nested.now (boxed array.now))) result }
    ensures err { IfErr result (λ e. (e ≡ Memory) ⊎ (e ≡ NotYetImplemented N5) ⊎ (e ≡ Overflow V3)) }
{
    if !is_in_pages(array) {
        return Err(Error::NotYetImplemented(N::N5));
    }
    plain_page(alloc, array, type_, nested, options)
}

// A page of a flat column in PLAIN.
pub fn checked_flat_page(
    alloc: Global,
    array: &ArrayBox,
    type_: PrimitiveType,
    options: WriteOptions,
) -> Result<DataPage>
    requires values { IsValueArray (boxed array.now) }
    requires fits { FitsArray (leaf_column type_ (boxed array.now)) }
    requires held { ¬ IsTooWide (leaf_column type_ (boxed array.now)) }
    ensures ok { IfOk result (IsPageAlong options plain (leaf_column type_ (boxed array.now))) }
    ensures unserved { ComesWhere (NotYetImplemented N5) (is_in_pages (boxed array.now) ≡ false) result }
    ensures too_large { ComesWhere (Overflow V3) ((is_in_pages (boxed array.now) ≡ true)
        × IsTooLarge (leaf_column type_ (boxed array.now))) result }
    ensures err { IfErr result (λ e. (e ≡ Memory) ⊎ (e ≡ NotYetImplemented N5) ⊎ (e ≡ Overflow V3)) }
{
    if !is_in_pages(array) {
        return Err(Error::NotYetImplemented(N::N5));
    }
    flat_plain_page(alloc, array, type_, options)
}

// A page of a flat column in an encoding, if values that are stored so are written in it.
pub fn checked_page_in(
    alloc: Global,
    array: &ArrayBox,
    type_: PrimitiveType,
    options: WriteOptions,
    encoding: Encoding,
) -> Result<DataPage>
    requires values { IsValueArray (boxed array.now) }
    requires fits { FitsArray (leaf_column type_ (boxed array.now)) }
    requires held { ¬ IsTooWide (leaf_column type_ (boxed array.now)) }
    ensures ok { IfOk result (IsPageNamed options encoding (leaf_column type_ (boxed array.now))) }
    ensures unserved { ComesWhere (NotYetImplemented N5) (is_in_pages (boxed array.now) ≡ false) result }
    ensures form { ComesWhere (NotYetImplemented N4) ((is_in_pages (boxed array.now) ≡ true)
        × (has_form encoding (physical_view type_.physical_type) ≡ false)) result }
    ensures too_large { ComesWhere (Overflow V3) ((is_in_pages (boxed array.now) ≡ true)
        × (has_form encoding (physical_view type_.physical_type) ≡ true)
        × IsTooLarge (leaf_column type_ (boxed array.now))) result }
    ensures err { IfErr result (λ e. (e ≡ Memory) ⊎ (e ≡ NotYetImplemented N5) ⊎ (e ≡ NotYetImplemented N4)
        ⊎ (e ≡ Overflow V3)) }
{
    if !is_in_pages(array) {
        return Err(Error::NotYetImplemented(N::N5));
    }
    flat_page_in(alloc, array, type_, options, encoding)
}
