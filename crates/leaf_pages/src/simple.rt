//! Pages of flat columns.
ghost use Rattle.std.specs.Prelude.{◌≡◌, ◌⊎◌, false, true, Some, IfOk, IfErr};
ghost use Rattle.columns_base.specs.declared.error.Error.TheVariants.{Memory, InvalidArgumentError, Overflow, NotYetImplemented};
ghost use Rattle.columns_base.specs.declared.error.A.TheVariants.{A7};
ghost use Rattle.columns_base.specs.declared.error.N.TheVariants.{N4, N5};
ghost use Rattle.columns_base.specs.declared.error.V.TheVariants.{V3};
ghost use Rattle.columns_array.specs.Boxed.{boxed};
ghost use Rattle.leaf_pages.specs.Columns.{FitsArray, IsTooWide, IsTooLarge, leaf_column, is_in_pages};
ghost use Rattle.leaf_pages.specs.Forms.{IsFlatPage, is_flat_form};
ghost use Rattle.pq_tree.specs.Reads.{ComesWhere};

use crate::flat::flat_path;
use columns_array::ArrayBox;
use columns_base::Result;
use pq_pages::Page;
use pq_tree::{Encoding, PrimitiveType};
use std::alloc::Global;
use write_pages::{WriteOptions, array_to_page};

/// One page of a flat column, whose leaf the array is, in the encoding that is asked for; nulls alone are written in PLAIN whatever was asked
/// (Parquet format, "Data Pages", Encodings). Nulls are levels and no values. It has the statistics of its values exactly where they are asked for. The
/// type fits the array.
///
/// # Errors
///
/// - `NotYetImplemented(N4)` exactly where values of the type are not written in the encoding.
/// - `NotYetImplemented(N5)` exactly where they are, and the array's type is not one that pages have, or is a dictionary.
/// - `InvalidArgumentError(A7)` exactly where neither is so, and a decimal is past what its physical type holds.
/// - `Overflow(V3)` exactly where nothing of this is so, and the room of the page passes 2^31 - 1.
/// - `Memory`.
pub fn array_to_page_simple(
    alloc: Global,
    array: &ArrayBox,
    type_: PrimitiveType,
    options: WriteOptions,
    encoding: Encoding,
) -> Result<Page>
    requires fits { FitsArray (leaf_column type_ (boxed array.now)) }
    ensures ok { IfOk result (IsFlatPage options encoding (leaf_column type_ (boxed array.now))) }
    ensures form { ComesWhere (NotYetImplemented N4) (is_flat_form encoding (leaf_column type_ (boxed array.now))
        ≡ false) result }
    ensures unserved { ComesWhere (NotYetImplemented N5)
        ((is_flat_form encoding (leaf_column type_ (boxed array.now)) ≡ true)
        × (is_in_pages (boxed array.now) ≡ false)) result }
    ensures too_wide { ComesWhere (InvalidArgumentError A7)
        ((is_flat_form encoding (leaf_column type_ (boxed array.now)) ≡ true)
        × (is_in_pages (boxed array.now) ≡ true) × IsTooWide (leaf_column type_ (boxed array.now))) result }
    ensures too_large { ComesWhere (Overflow V3) ((is_flat_form encoding (leaf_column type_ (boxed array.now)) ≡ true)
        × (is_in_pages (boxed array.now) ≡ true) × (¬ IsTooWide (leaf_column type_ (boxed array.now)))
        × IsTooLarge (leaf_column type_ (boxed array.now))) result }
    ensures err { IfErr result (λ e. (e ≡ Memory) ⊎ (e ≡ NotYetImplemented N4) ⊎ (e ≡ NotYetImplemented N5)
        ⊎ (e ≡ InvalidArgumentError A7) ⊎ (e ≡ Overflow V3)) }
{
    let nested = flat_path(alloc, array, &type_)?;
    array_to_page(alloc, array, type_, &nested, options, encoding)
}
