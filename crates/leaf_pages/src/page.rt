//! A page of an array of values.
ghost use Rattle.std.specs.Prelude.{◌≡◌, ◌⊎◌, ◌≤◌, true, false, length, IfOk, IfErr};
ghost use Rattle.columns_base.specs.declared.error.Error.TheVariants.{Memory, NotYetImplemented, Overflow};
ghost use Rattle.columns_base.specs.declared.error.N.TheVariants.{N4};
ghost use Rattle.columns_base.specs.declared.error.V.TheVariants.{V3};
ghost use Rattle.columns_array.specs.Boxed.{boxed};
ghost use Rattle.columns_core.specs.Shapes.{base, leaf_type};
ghost use Rattle.columns_slots.specs.Slots.{type_of};
ghost use Rattle.leaf_pages.specs.Columns.{FitsArray, IsValueArray, IsTooWide, IsPageAlong, IsTooLarge, column_along, leaf_column, is_in_pages};
ghost use Rattle.leaf_pages.specs.Forms.{IsPageNamed, has_form};
ghost use Rattle.levels.specs.Nested.{parts_of};
ghost use Rattle.pq_files.specs.Page.{plain};
ghost use Rattle.pq_tree.specs.Reads.{ComesWhere};
ghost use Rattle.pq_tree.specs.Views.{physical_view};
ghost use Rattle.shredding.specs.Parts.{IsPath};
ghost use Rattle.write_pages.specs.Holds.{is_delta_encoding};
ghost use Rattle.write_values.specs.Deltas.{page_encoding};
ghost use Rattle.write_values.specs.Served.{is_served};

use crate::flat::flat_path;
use columns_array::ArrayBox;
use columns_base::{Error, N, PhysicalType, Result};
use levels::Nested;
use pq_pages::DataPage;
use pq_tree::{Encoding, PrimitiveType};
use std::alloc::Global;
use write_pages::WriteOptions;
use write_values::{PageForm, data_page};

// Whether values that are stored so are written in the encoding.
fn has_form(encoding: Encoding, physical_type: PhysicalType) -> bool
    ensures { result ≡ has_form encoding (physical_view physical_type) }
{
    match encoding {
        Encoding::Plain => true,
        Encoding::DeltaBinaryPacked => {
            matches!(physical_type, PhysicalType::Int32 | PhysicalType::Int64)
        }
        Encoding::DeltaLengthByteArray => matches!(physical_type, PhysicalType::ByteArray),
        _ => false,
    }
}

// Whether it is an encoding by deltas.
fn is_delta(encoding: Encoding) -> bool
    ensures { result ≡ is_delta_encoding encoding }
{
    matches!(
        encoding,
        Encoding::DeltaBinaryPacked | Encoding::DeltaLengthByteArray
    )
}

// A page along a path, by deltas where they are wanted and the type has some.
fn spelled_page(
    alloc: Global,
    array: &ArrayBox,
    type_: PrimitiveType,
    nested: &[Nested],
    options: WriteOptions,
    with_deltas: bool,
) -> Result<DataPage>
    requires well { IsPath (parts_of nested.now) }
    requires parts { length nested.now ≤ 128 }
    requires values { IsValueArray (boxed array.now) }
    requires fits { FitsArray (column_along type_ nested.now (boxed array.now)) }
    requires served { is_served (base (type_of (boxed array.now))) (physical_view type_.physical_type) ≡ true }
    requires held { ¬ IsTooWide (column_along type_ nested.now (boxed array.now)) }
    ensures ok { IfOk result (IsPageAlong options
        (page_encoding with_deltas (leaf_type (type_of (boxed array.now))) (physical_view type_.physical_type))
        (column_along type_ nested.now (boxed array.now))) }
    ensures too_large { ComesWhere (Overflow V3) (IsTooLarge (column_along type_ nested.now (boxed array.now))) result }
    ensures err { IfErr result (λ e. (e ≡ Memory) ⊎ (e ≡ Overflow V3)) }
{
    array.know();
    let form = PageForm {
        version: options.version,
        with_statistics: options.write_statistics,
        with_deltas,
    };
    data_page(alloc, array, type_, nested, form)
}

// A page along a path in PLAIN.
pub fn plain_page(
    alloc: Global,
    array: &ArrayBox,
    type_: PrimitiveType,
    nested: &[Nested],
    options: WriteOptions,
) -> Result<DataPage>
    requires well { IsPath (parts_of nested.now) }
    requires parts { length nested.now ≤ 128 }
    requires values { IsValueArray (boxed array.now) }
    requires fits { FitsArray (column_along type_ nested.now (boxed array.now)) }
    requires written { is_in_pages (boxed array.now) ≡ true }
    requires held { ¬ IsTooWide (column_along type_ nested.now (boxed array.now)) }
    ensures ok { IfOk result (IsPageAlong options plain (column_along type_ nested.now (boxed array.now))) }
    ensures too_large { ComesWhere (Overflow V3) (IsTooLarge (column_along type_ nested.now (boxed array.now))) result }
    ensures err { IfErr result (λ e. (e ≡ Memory) ⊎ (e ≡ Overflow V3)) }
{
    spelled_page(alloc, array, type_, nested, options, false)
}

// A page of a flat column in PLAIN.
pub fn flat_plain_page(
    alloc: Global,
    array: &ArrayBox,
    type_: PrimitiveType,
    options: WriteOptions,
) -> Result<DataPage>
    requires values { IsValueArray (boxed array.now) }
    requires fits { FitsArray (leaf_column type_ (boxed array.now)) }
    requires written { is_in_pages (boxed array.now) ≡ true }
    requires held { ¬ IsTooWide (leaf_column type_ (boxed array.now)) }
    ensures ok { IfOk result (IsPageAlong options plain (leaf_column type_ (boxed array.now))) }
    ensures too_large { ComesWhere (Overflow V3) (IsTooLarge (leaf_column type_ (boxed array.now))) result }
    ensures err { IfErr result (λ e. (e ≡ Memory) ⊎ (e ≡ Overflow V3)) }
{
    let nested = flat_path(alloc, array, &type_)?;
    plain_page(alloc, array, type_, &nested, options)
}

// A page along a path in an encoding, if values that are stored so are written in it.
fn page_in(
    alloc: Global,
    array: &ArrayBox,
    type_: PrimitiveType,
    nested: &[Nested],
    options: WriteOptions,
    encoding: Encoding,
) -> Result<DataPage>
    requires well { IsPath (parts_of nested.now) }
    requires parts { length nested.now ≤ 128 }
    requires values { IsValueArray (boxed array.now) }
    requires fits { FitsArray (column_along type_ nested.now (boxed array.now)) }
    requires written { is_in_pages (boxed array.now) ≡ true }
    requires held { ¬ IsTooWide (column_along type_ nested.now (boxed array.now)) }
    ensures ok { IfOk result (IsPageNamed options encoding (column_along type_ nested.now (boxed array.now))) }
    ensures form { ComesWhere (NotYetImplemented N4) (has_form encoding (physical_view type_.physical_type)
        ≡ false) result }
    ensures too_large { ComesWhere (Overflow V3) ((has_form encoding (physical_view type_.physical_type) ≡ true)
        × IsTooLarge (column_along type_ nested.now (boxed array.now))) result }
    ensures err { IfErr result (λ e. (e ≡ Memory) ⊎ (e ≡ NotYetImplemented N4) ⊎ (e ≡ Overflow V3)) }
{
    array.know();
    if !has_form(encoding, type_.physical_type) {
        return Err(Error::NotYetImplemented(N::N4));
    }
    let with_deltas = is_delta(encoding);
    spelled_page(alloc, array, type_, nested, options, with_deltas)
}

// A page of a flat column in an encoding, if values that are stored so are written in it.
pub fn flat_page_in(
    alloc: Global,
    array: &ArrayBox,
    type_: PrimitiveType,
    options: WriteOptions,
    encoding: Encoding,
) -> Result<DataPage>
    requires values { IsValueArray (boxed array.now) }
    requires fits { FitsArray (leaf_column type_ (boxed array.now)) }
    requires written { is_in_pages (boxed array.now) ≡ true }
    requires held { ¬ IsTooWide (leaf_column type_ (boxed array.now)) }
    ensures ok { IfOk result (IsPageNamed options encoding (leaf_column type_ (boxed array.now))) }
    ensures form { ComesWhere (NotYetImplemented N4) (has_form encoding (physical_view type_.physical_type)
        ≡ false) result }
    ensures too_large { ComesWhere (Overflow V3) ((has_form encoding (physical_view type_.physical_type) ≡ true)
        × IsTooLarge (leaf_column type_ (boxed array.now))) result }
    ensures err { IfErr result (λ e. (e ≡ Memory) ⊎ (e ≡ NotYetImplemented N4) ⊎ (e ≡ Overflow V3)) }
{
    let nested = flat_path(alloc, array, &type_)?;
    page_in(alloc, array, type_, &nested, options, encoding)
}
