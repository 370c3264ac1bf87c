//! One page of a path.
ghost use Rattle.std.specs.Prelude.{◌≡◌, ◌⊎◌, ◌≤◌, true, false, length, All, IfOk, OnOk, IfErr, Some, None};
ghost use Rattle.shredding.specs.Along.{IsAlong};
ghost use Rattle.shredding.specs.Parts.{IsPath, path_way, path_slots};
ghost use Rattle.shredding.specs.Shred.{column};
ghost use Rattle.columns_base.specs.declared.error.Error.TheVariants.{Memory, InvalidArgumentError, Overflow, NotYetImplemented};
ghost use Rattle.columns_base.specs.declared.error.A.TheVariants.{A7};
ghost use Rattle.columns_base.specs.declared.error.N.TheVariants.{N4, N5};
ghost use Rattle.columns_base.specs.declared.error.V.TheVariants.{V3};
ghost use Rattle.columns_array.specs.Boxed.{boxed};
ghost use Rattle.columns_core.specs.Shapes.{base, leaf_type};
ghost use Rattle.columns_slots.specs.Slots.{tree_len, type_of};
ghost use Rattle.levels.specs.Nested.{parts_of};
ghost use Rattle.levels.specs.Ranges.{leaf_count_or};
ghost use Rattle.nested_paths.specs.Seen.{leaf_slot};
ghost use Rattle.pq_tree.specs.Reads.{ComesWhere};
ghost use Rattle.pq_tree.specs.TreeViews.{leaf_view};
ghost use Rattle.pq_tree.specs.Views.{physical_view};
ghost use Rattle.pq_files.specs.Page.{Encoding as PageEncoding};
ghost use Rattle.pq_pages.specs.DataPages.{DataPageValue};
ghost use Rattle.pq_pages.specs.declared.page.Page.TheVariants.{Data};
ghost use Rattle.write_values.specs.Deltas.{page_encoding};
ghost use Rattle.write_values.specs.Nulls.{TellsNulls};
ghost use Rattle.write_values.specs.Served.{is_served};
ghost use Rattle.write_pages.specs.Fits.{FitsColumn, is_written_along};
ghost use Rattle.write_pages.specs.Holds.{HoldsRows, written_encoding};
ghost use Rattle.write_pages.specs.Refused.{HasWide, IsPastRoom, IsUnwritten};

use crate::fit::{check_written, wants_deltas};
use crate::nulls::{is_null, seen_path};
use crate::options::WriteOptions;
use columns_array::ArrayBox;
use columns_core::{A, Error, Result};
use levels::Nested;
use pq_pages::{DataPage, Page};
use pq_tree::{Encoding, PhysicalType, PrimitiveType};
use std::alloc::Global;
use write_values::{PageForm, data_page, has_wide};

// A page of a well-formed path over an array whose values are written, by deltas where it is wanted and the type has some.
pub fn page_of_rows(
    alloc: Global,
    array: &ArrayBox,
    type_: PrimitiveType,
    nested: &[Nested],
    options: WriteOptions,
    with_deltas: bool,
) -> Result<DataPage>
    requires well { IsPath (parts_of nested.now) }
    requires parts { length nested.now ≤ 128 }
    requires leaf { tree_len (boxed array.now) ≡ leaf_count_or 0 (parts_of nested.now) }
    requires nulls { TellsNulls (boxed array.now) (parts_of nested.now) }
    requires served { is_served (base (type_of (boxed array.now))) (physical_view type_.physical_type) ≡ true }
    requires held { ¬ HasWide (leaf_type (type_of (boxed array.now))) (physical_view type_.physical_type)
        (column (path_way (parts_of nested.now)) (path_slots (leaf_slot (boxed array.now)) (parts_of nested.now))) }
    ensures ok { IfOk result (HoldsRows options
        (page_encoding with_deltas (leaf_type (type_of (boxed array.now))) (physical_view type_.physical_type))
        (leaf_type (type_of (boxed array.now))) (leaf_view type_) (physical_view type_.physical_type)
        (path_way (parts_of nested.now)) None (path_slots (leaf_slot (boxed array.now)) (parts_of nested.now))) }
    ensures too_large { ComesWhere (Overflow V3) (IsPastRoom (leaf_type (type_of (boxed array.now)))
        (physical_view type_.physical_type) (column (path_way (parts_of nested.now))
        (path_slots (leaf_slot (boxed array.now)) (parts_of nested.now)))) result }
    ensures err { IfErr result (λ e. (e ≡ Memory) ⊎ (e ≡ Overflow V3)) }
{
    array.know();
    let form = PageForm {
        version: options.version,
        with_statistics: options.write_statistics,
        with_deltas,
    };
    data_page(alloc, array, type_, nested, form)
}

// The same, of a path that reaches no null where one is not allowed.
fn seen_page(
    alloc: Global,
    array: &ArrayBox,
    type_: PrimitiveType,
    nested: &[Nested],
    options: WriteOptions,
    with_deltas: bool,
) -> Result<DataPage>
    requires well { IsPath (parts_of nested.now) }
    requires parts { length nested.now ≤ 128 }
    requires leaf { tree_len (boxed array.now) ≡ leaf_count_or 0 (parts_of nested.now) }
    requires reached { All (IsAlong (path_way (parts_of nested.now)))
        (path_slots (leaf_slot (boxed array.now)) (parts_of nested.now)) }
    requires served { is_served (base (type_of (boxed array.now))) (physical_view type_.physical_type) ≡ true }
    requires held { ¬ HasWide (leaf_type (type_of (boxed array.now))) (physical_view type_.physical_type)
        (column (path_way (parts_of nested.now)) (path_slots (leaf_slot (boxed array.now)) (parts_of nested.now))) }
    ensures ok { IfOk result (HoldsRows options
        (page_encoding with_deltas (leaf_type (type_of (boxed array.now))) (physical_view type_.physical_type))
        (leaf_type (type_of (boxed array.now))) (leaf_view type_) (physical_view type_.physical_type)
        (path_way (parts_of nested.now)) None (path_slots (leaf_slot (boxed array.now)) (parts_of nested.now))) }
    ensures too_large { ComesWhere (Overflow V3) (IsPastRoom (leaf_type (type_of (boxed array.now)))
        (physical_view type_.physical_type) (column (path_way (parts_of nested.now))
        (path_slots (leaf_slot (boxed array.now)) (parts_of nested.now)))) result }
    ensures err { IfErr result (λ e. (e ≡ Memory) ⊎ (e ≡ Overflow V3)) }
{
    array.know();
    if !is_null(array) {
        return page_of_rows(alloc, array, type_, nested, options, with_deltas);
    }
    let seen = seen_path(alloc, array, nested)?;
    let page = page_of_rows(alloc, array, type_, &seen, options, with_deltas)?;
    Ok(page)
}

// That no value of a well-formed path over an array is a decimal past what its physical type holds.
pub fn check_held(array: &ArrayBox, physical_type: PhysicalType, nested: &[Nested]) -> Result<()>
    requires well { IsPath (parts_of nested.now) }
    requires leaf { tree_len (boxed array.now) ≡ leaf_count_or 0 (parts_of nested.now) }
    requires served { is_served (base (type_of (boxed array.now))) (physical_view physical_type) ≡ true }
    ensures ok { OnOk result (¬ HasWide (leaf_type (type_of (boxed array.now))) (physical_view physical_type)
        (column (path_way (parts_of nested.now)) (path_slots (leaf_slot (boxed array.now)) (parts_of nested.now)))) }
    ensures err { IfErr result (λ e. (e ≡ InvalidArgumentError A7)
        × HasWide (leaf_type (type_of (boxed array.now))) (physical_view physical_type)
        (column (path_way (parts_of nested.now)) (path_slots (leaf_slot (boxed array.now)) (parts_of nested.now)))) }
{
    array.know();
    if has_wide(array, physical_type, nested) {
        return Err(Error::InvalidArgumentError(A::A7));
    }
    Ok(())
}

/// One page of a well-formed path over its leaf array: of a flat path in the encoding that is asked for, of every other one in PLAIN (Parquet
/// format, "Data Pages", "Nested Encoding" and Encodings). It denotes the column of the rows that are read along the path, whatever lies
/// beneath nulls, and has the statistics of its values exactly where they are asked for (parquet.thrift: `Statistics`). The path and the type fit the array.
///
/// # Errors
///
/// - `NotYetImplemented(N4)` exactly where the page is not written so: a flat path in another encoding than PLAIN, the deltas that the type may
///   have, and those of dictionaries where it is one (`is_written_as`).
/// - `NotYetImplemented(N5)` exactly where it is, and values of the array's type are not written in such a column (`is_written_in`): fixed byte
///   strings, decimals and intervals are in flat ones alone, and a dictionary's page stands behind a dictionary page.
/// - `InvalidArgumentError(A7)` exactly where neither is so, and a decimal is past what its physical type holds.
/// - `Overflow(V3)` exactly where nothing of this is so, and the room of the page passes 2^31 - 1.
/// - `Memory`.
pub fn array_to_page(
    alloc: Global,
    array: &ArrayBox,
    type_: PrimitiveType,
    nested: &[Nested],
    options: WriteOptions,
    encoding: Encoding,
) -> Result<Page>
    requires well { IsPath (parts_of nested.now) }
    requires parts { length nested.now ≤ 128 }
    requires fits { FitsColumn (parts_of nested.now) (path_slots (leaf_slot (boxed array.now)) (parts_of nested.now))
        (leaf_view type_) (physical_view type_.physical_type) (boxed array.now) }
    ensures ok { IfOk result (λ p. (page : DataPageValue) × (p ≡ Data page) × (e : PageEncoding)
        × (written_encoding (leaf_type (type_of (boxed array.now))) (parts_of nested.now) encoding ≡ Some e)
        × HoldsRows options e (leaf_type (type_of (boxed array.now))) (leaf_view type_)
        (physical_view type_.physical_type) (path_way (parts_of nested.now)) None
        (path_slots (leaf_slot (boxed array.now)) (parts_of nested.now)) page) }
    ensures form { ComesWhere (NotYetImplemented N4) (IsUnwritten (parts_of nested.now) (type_of (boxed array.now))
        (physical_view type_.physical_type) encoding) result }
    ensures unserved { ComesWhere (NotYetImplemented N5)
        ((¬ IsUnwritten (parts_of nested.now) (type_of (boxed array.now))
        (physical_view type_.physical_type) encoding) × (is_written_along (parts_of nested.now) (boxed array.now)
        ≡ false)) result }
    ensures too_wide { ComesWhere (InvalidArgumentError A7)
        ((¬ IsUnwritten (parts_of nested.now) (type_of (boxed array.now))
        (physical_view type_.physical_type) encoding) × (is_written_along (parts_of nested.now) (boxed array.now)
        ≡ true) × HasWide (leaf_type (type_of (boxed array.now))) (physical_view type_.physical_type)
        (column (path_way (parts_of nested.now)) (path_slots (leaf_slot (boxed array.now)) (parts_of nested.now))))
        result }
    ensures too_large { ComesWhere (Overflow V3)
        ((¬ IsUnwritten (parts_of nested.now) (type_of (boxed array.now))
        (physical_view type_.physical_type) encoding) × (is_written_along (parts_of nested.now) (boxed array.now)
        ≡ true)
        ×
        (¬ HasWide (leaf_type (type_of (boxed array.now))) (physical_view type_.physical_type)
        (column (path_way (parts_of nested.now)) (path_slots (leaf_slot (boxed array.now)) (parts_of nested.now))))
        × IsPastRoom (leaf_type (type_of (boxed array.now))) (physical_view type_.physical_type)
        (column (path_way (parts_of nested.now)) (path_slots (leaf_slot (boxed array.now)) (parts_of nested.now))))
        result }
    ensures err { IfErr result (λ e. (e ≡ Memory) ⊎ (e ≡ NotYetImplemented N4) ⊎ (e ≡ NotYetImplemented N5)
        ⊎ (e ≡ InvalidArgumentError A7) ⊎ (e ≡ Overflow V3)) }
{
    check_written(array, type_.physical_type, nested, encoding)?;
    check_held(array, type_.physical_type, nested)?;
    let with_deltas = wants_deltas(nested, encoding);
    let page = seen_page(alloc, array, type_, nested, options, with_deltas)?;
    Ok(Page::Data(page))
}
