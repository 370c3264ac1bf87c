//! Pages of texts.
ghost use Rattle.std.specs.Prelude.{◌≡◌, ◌⊎◌, ◌≤◌, false, true, length, IfOk, IfErr};
ghost use Rattle.columns_base.specs.declared.error.Error.TheVariants.{Memory, NotYetImplemented, Overflow};
ghost use Rattle.columns_base.specs.declared.error.N.TheVariants.{N4};
ghost use Rattle.columns_base.specs.declared.error.V.TheVariants.{V3};
ghost use Rattle.leaf_pages.specs.Columns.{FitsArray, IsPageAlong, IsTooLarge, column_along, leaf_column};
ghost use Rattle.leaf_pages.specs.Forms.{IsPageNamed, has_form};
ghost use Rattle.levels.specs.Nested.{parts_of};
ghost use Rattle.pq_files.specs.Page.{plain};
ghost use Rattle.pq_tree.specs.Reads.{ComesWhere};
ghost use Rattle.pq_tree.specs.Views.{physical_view};
ghost use Rattle.shredding.specs.Parts.{IsPath};

use crate::page::{flat_page_in, plain_page};
use columns_base::Result;
use columns_leaf::Utf8Array;
use columns_native::OffsetArray;
use levels::Nested;
use pq_pages::DataPage;
use pq_tree::{Encoding, PrimitiveType};
use std::alloc::Global;
use write_pages::WriteOptions;

/// One page of a flat column of texts, in PLAIN or DELTA_LENGTH_BYTE_ARRAY (Parquet format, "Data Pages"; Encodings, "Plain", "Delta-length byte array"). It has
/// the statistics of its values exactly where they are asked for. The type fits the array.
///
/// # Errors
///
/// - `NotYetImplemented(N4)` exactly for another encoding.
/// - `Overflow(V3)` exactly where not, and the room of the page passes 2^31 - 1.
/// - `Memory`.
pub fn array_to_page<O: OffsetArray>(
    alloc: Global,
    array: &Utf8Array<O>,
    options: WriteOptions,
    type_: PrimitiveType,
    encoding: Encoding,
) -> Result<DataPage>
    requires fits { FitsArray (leaf_column type_ (O.text_tree array.now)) }
    ensures ok { IfOk result (IsPageNamed options encoding (leaf_column type_ (O.text_tree array.now))) }
    ensures form { ComesWhere (NotYetImplemented N4) (has_form encoding (physical_view type_.physical_type)
        ≡ false) result }
    ensures too_large { ComesWhere (Overflow V3) ((has_form encoding (physical_view type_.physical_type) ≡ true)
        × IsTooLarge (leaf_column type_ (O.text_tree array.now))) result }
    ensures err { IfErr result (λ e. (e ≡ Memory) ⊎ (e ≡ NotYetImplemented N4) ⊎ (e ≡ Overflow V3)) }
{
    array.know();
    let array = O::text_box(array.clone(alloc)?);
    flat_page_in(alloc, &array, type_, options, encoding)
}

/// One page of texts along a well-formed path, in PLAIN (Parquet format, "Data Pages", "Nested Encoding"). It has the statistics of its values exactly where they
/// are asked for. The path and the type fit the array.
///
/// # Errors
///
/// - `Overflow(V3)` exactly where the room of the page passes 2^31 - 1.
/// - `Memory`.
pub fn nested_array_to_page<O: OffsetArray>(
    alloc: Global,
    array: &Utf8Array<O>,
    options: WriteOptions,
    type_: PrimitiveType,
    nested: &[Nested],
) -> Result<DataPage>
    requires well { IsPath (parts_of nested.now) }
    requires parts { length nested.now ≤ 128 }
    requires fits { FitsArray (column_along type_ nested.now (O.text_tree array.now)) }
    ensures ok { IfOk result (IsPageAlong options plain (column_along type_ nested.now (O.text_tree array.now))) }
    ensures too_large { ComesWhere (Overflow V3) (IsTooLarge
        (column_along type_ nested.now (O.text_tree array.now))) result }
    ensures err { IfErr result (λ e. (e ≡ Memory) ⊎ (e ≡ Overflow V3)) }
{
    array.know();
    let array = O::text_box(array.clone(alloc)?);
    plain_page(alloc, &array, type_, nested, options)
}
