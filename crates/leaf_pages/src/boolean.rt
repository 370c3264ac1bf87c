//! Pages of truth values.
ghost use Rattle.std.specs.Prelude.{◌≡◌, ◌⊎◌, ◌≤◌, length, IfOk, IfErr};
ghost use Rattle.columns_base.specs.declared.error.Error.TheVariants.{Memory, Overflow};
ghost use Rattle.columns_base.specs.declared.error.V.TheVariants.{V3};
ghost use Rattle.columns_array.specs.Boxed.{boxed};
ghost use Rattle.columns_array.specs.declared.arrays.ArrayBox.TheVariants.{Boolean};
ghost use Rattle.leaf_pages.specs.Columns.{FitsArray, IsPageAlong, IsTooLarge, column_along, leaf_column};
ghost use Rattle.levels.specs.Nested.{parts_of};
ghost use Rattle.pq_files.specs.Page.{plain};
ghost use Rattle.pq_tree.specs.Reads.{ComesWhere};
ghost use Rattle.shredding.specs.Parts.{IsPath};

use crate::page::{flat_plain_page, plain_page};
use columns_array::ArrayBox;
use columns_base::Result;
use columns_leaf::BooleanArray;
use levels::Nested;
use pq_pages::DataPage;
use pq_tree::PrimitiveType;
use std::alloc::Global;
use write_pages::WriteOptions;

/// One page of a flat column of truth values, in PLAIN (Parquet format, "Data Pages"; Encodings, "Plain"). It has the statistics of its values exactly where
/// they are asked for. The type fits the array.
///
/// # Errors
///
/// - `Overflow(V3)` exactly where the room of the page passes 2^31 - 1.
/// - `Memory`.
pub fn array_to_page(
    alloc: Global,
    array: &BooleanArray,
    options: WriteOptions,
    type_: PrimitiveType,
) -> Result<DataPage>
    requires fits { FitsArray (leaf_column type_ (boxed (Boolean array.now))) }
    ensures ok { IfOk result (IsPageAlong options plain (leaf_column type_ (boxed (Boolean array.now)))) }
    ensures too_large { ComesWhere (Overflow V3) (IsTooLarge (leaf_column type_ (boxed (Boolean array.now)))) result }
    ensures err { IfErr result (λ e. (e ≡ Memory) ⊎ (e ≡ Overflow V3)) }
{
    array.know();
    let array = ArrayBox::Boolean(array.clone(alloc)?);
    flat_plain_page(alloc, &array, type_, options)
}

/// One page of truth values along a well-formed path, in PLAIN (Parquet format, "Data Pages", "Nested Encoding"). It has the statistics of its values exactly
/// where they are asked for. The path and the type fit the array.
///
/// # Errors
///
/// - `Overflow(V3)` exactly where the room of the page passes 2^31 - 1.
/// - `Memory`.
pub fn nested_array_to_page(
    alloc: Global,
    array: &BooleanArray,
    options: WriteOptions,
    type_: PrimitiveType,
    nested: &[Nested],
) -> Result<DataPage>
    requires well { IsPath (parts_of nested.now) }
    requires parts { length nested.now ≤ 128 }
    requires fits { FitsArray (column_along type_ nested.now (boxed (Boolean array.now))) }
    ensures ok { IfOk result (IsPageAlong options plain (column_along type_ nested.now (boxed (Boolean array.now)))) }
    ensures too_large { ComesWhere (Overflow V3) (IsTooLarge
        (column_along type_ nested.now (boxed (Boolean array.now)))) result }
    ensures err { IfErr result (λ e. (e ≡ Memory) ⊎ (e ≡ Overflow V3)) }
{
    array.know();
    let array = ArrayBox::Boolean(array.clone(alloc)?);
    plain_page(alloc, &array, type_, nested, options)
}
