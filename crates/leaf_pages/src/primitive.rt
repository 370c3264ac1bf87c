//! Pages of numbers.
ghost use Rattle.std.specs.Prelude.{◌≡◌, ◌⊎◌, ◌≤◌, true, false, length, IfOk, IfErr};
ghost use Rattle.columns_base.specs.declared.error.Error.TheVariants.{Memory, NotYetImplemented, Overflow};
ghost use Rattle.columns_base.specs.declared.error.N.TheVariants.{N4, N5};
ghost use Rattle.columns_base.specs.declared.error.V.TheVariants.{V3};
ghost use Rattle.leaf_pages.specs.Columns.{FitsArray, IsTooWide, IsPageAlong, IsTooLarge, column_along, leaf_column, is_in_pages};
ghost use Rattle.leaf_pages.specs.Encoded.{Encodes};
ghost use Rattle.leaf_pages.specs.Forms.{IsPageNamed, has_form};
ghost use Rattle.levels.specs.Nested.{parts_of};
ghost use Rattle.pq_files.specs.Page.{plain};
ghost use Rattle.pq_tree.specs.Reads.{ComesWhere};
ghost use Rattle.pq_tree.specs.Views.{physical_view};
ghost use Rattle.shredding.specs.Parts.{IsPath};

use crate::checked::{checked_flat_page, checked_page, checked_page_in};
use crate::encoded::{Encoded, count_values, encoded_page, level_body};
use crate::flat::{flat_path, is_optional};
use columns_base::Result;
use columns_core::{NativeType, ParquetNativeType};
use columns_leaf::PrimitiveArray;
use columns_native::{AsPrimitive, NativeArray};
use levels::Nested;
use pq_pages::DataPage;
use pq_tree::{Encoding, PrimitiveType};
use std::alloc::Global;
use write_pages::WriteOptions;
use write_values::Body;

/// One page of a flat column of numbers, stored as numbers of `P`, in PLAIN (Parquet format, "Data Pages"; Encodings, "Plain"). It has the statistics of its
/// values exactly where they are asked for. The type fits the array, and `P` holds each decimal that is not null.
///
/// # Errors
///
/// - `NotYetImplemented(N5)` exactly where pages have no values of the array's type.
/// - `Overflow(V3)` exactly where they have, and the room of the page passes 2^31 - 1.
/// - `Memory`.
pub fn array_to_page_plain<T: NativeArray + AsPrimitive<P>, P: ParquetNativeType>(
    alloc: Global,
    array: &PrimitiveArray<T>,
    options: WriteOptions,
    type_: PrimitiveType,
) -> Result<DataPage>
    requires fits { FitsArray (leaf_column type_ (T.tree array.now)) }
    requires physical { physical_view type_.physical_type ≡ physical_view P.physical }
    requires held { ¬ IsTooWide (leaf_column type_ (T.tree array.now)) }
    ensures ok { IfOk result (IsPageAlong options plain (leaf_column type_ (T.tree array.now))) }
    ensures unserved { ComesWhere (NotYetImplemented N5) (is_in_pages (T.tree array.now) ≡ false) result }
    ensures too_large { ComesWhere (Overflow V3) ((is_in_pages (T.tree array.now) ≡ true)
        × IsTooLarge (leaf_column type_ (T.tree array.now))) result }
    ensures err { IfErr result (λ e. (e ≡ Memory) ⊎ (e ≡ NotYetImplemented N5) ⊎ (e ≡ Overflow V3)) }
{
    let array = T::into_box(array.clone(alloc)?);
    checked_flat_page(alloc, &array, type_, options)
}

/// One page of a flat column of numbers, stored as numbers of `P`, in PLAIN or DELTA_BINARY_PACKED (Parquet format, "Data Pages"; Encodings, "Plain", "Delta
/// Encoding"). It has the statistics of its values exactly where they are asked for. The type fits the array, and `P` holds each decimal that is not null.
///
/// # Errors
///
/// - `NotYetImplemented(N5)` exactly where pages have no values of the array's type.
/// - `NotYetImplemented(N4)` exactly where they have, and the encoding is another one.
/// - `Overflow(V3)` exactly where neither is so, and the room of the page passes 2^31 - 1.
/// - `Memory`.
pub fn array_to_page_integer<T: NativeArray + AsPrimitive<P>, P: ParquetNativeType>(
    alloc: Global,
    array: &PrimitiveArray<T>,
    options: WriteOptions,
    type_: PrimitiveType,
    encoding: Encoding,
) -> Result<DataPage>
    requires fits { FitsArray (leaf_column type_ (T.tree array.now)) }
    requires physical { physical_view type_.physical_type ≡ physical_view P.physical }
    requires held { ¬ IsTooWide (leaf_column type_ (T.tree array.now)) }
    ensures ok { IfOk result (IsPageNamed options encoding (leaf_column type_ (T.tree array.now))) }
    ensures unserved { ComesWhere (NotYetImplemented N5) (is_in_pages (T.tree array.now) ≡ false) result }
    ensures form { ComesWhere (NotYetImplemented N4) ((is_in_pages (T.tree array.now) ≡ true)
        × (has_form encoding (physical_view type_.physical_type) ≡ false)) result }
    ensures too_large { ComesWhere (Overflow V3) ((is_in_pages (T.tree array.now) ≡ true)
        × (has_form encoding (physical_view type_.physical_type) ≡ true)
        × IsTooLarge (leaf_column type_ (T.tree array.now))) result }
    ensures err { IfErr result (λ e. (e ≡ Memory) ⊎ (e ≡ NotYetImplemented N5) ⊎ (e ≡ NotYetImplemented N4)
        ⊎ (e ≡ Overflow V3)) }
{
    let array = T::into_box(array.clone(alloc)?);
    checked_page_in(alloc, &array, type_, options, encoding)
}

/// One page of numbers along a well-formed path, stored as numbers of `P`, in PLAIN (Parquet format, "Data Pages", "Nested Encoding"). It has the statistics of
/// its values exactly where they are asked for. The path and the type fit the array, and `P` holds each decimal that is not null.
///
/// # Errors
///
/// - `NotYetImplemented(N5)` exactly where pages have no values of the array's type.
/// - `Overflow(V3)` exactly where they have, and the room of the page passes 2^31 - 1.
/// - `Memory`.
pub fn nested_array_to_page<T: NativeArray + AsPrimitive<P>, P: ParquetNativeType>(
    alloc: Global,
    array: &PrimitiveArray<T>,
    options: WriteOptions,
    type_: PrimitiveType,
    nested: &[Nested],
) -> Result<DataPage>
    requires well { IsPath (parts_of nested.now) }
    requires parts { length nested.now ≤ 128 }
    requires fits { FitsArray (column_along type_ nested.now (T.tree array.now)) }
    requires physical { physical_view type_.physical_type ≡ physical_view P.physical }
    requires held { ¬ IsTooWide (column_along type_ nested.now (T.tree array.now)) }
    ensures ok { IfOk result (IsPageAlong options plain (column_along type_ nested.now (T.tree array.now))) }
    ensures unserved { ComesWhere (NotYetImplemented N5) (is_in_pages (T.tree array.now) ≡ false) result }
    ensures too_large { ComesWhere (Overflow V3) ((is_in_pages (T.tree array.now) ≡ true)
        × IsTooLarge (column_along type_ nested.now (T.tree array.now))) result }
    ensures err { IfErr result (λ e. (e ≡ Memory) ⊎ (e ≡ NotYetImplemented N5) ⊎ (e ≡ Overflow V3)) }
{
    let array = T::into_box(array.clone(alloc)?);
    checked_page(alloc, &array, type_, nested, options)
}

/// How a caller spells the values of an array in a page.
pub trait Encode<T: NativeType> {
    ghost use Rattle.std.specs.Prelude.{◌≡◌, ◌++◌, Bool, List, IfOk, IfErr, ℕ};
    ghost use Rattle.columns_base.specs.declared.error.Error.TheVariants.{Memory};
    ghost use Rattle.columns_core.specs.Tree.{TypeTree};
    ghost use Rattle.columns_slots.specs.Tree.{Mask};

    // the texts that it may append for an array, whose leaf is optional or not
    ghost spells: { Self → TypeTree × (List T × Mask) → Bool → List ℕ → Type 0 };

    /// The level sections of the page, and behind them a spelling of the present values of the array, whose leaf is optional or not.
    ///
    /// # Errors
    ///
    /// `Memory`.
    fn encode(
        &self,
        array: &PrimitiveArray<T>,
        is_optional: bool,
        levels: Vec<u8>,
    ) -> Result<Vec<u8>>
        ensures ok { IfOk result (λ body. (text : List ℕ) × (body.items ≡ levels.items ++ text)
            × spells self.now array.now is_optional text) }
        ensures err { IfErr result (λ e. e ≡ Memory) };
}

/// One page of a flat column of numbers, stored as numbers of `P`, whose values the caller spells in the encoding (Parquet format, "Data Pages"; Encodings):
/// what `encode` appends to the level sections of the page is such a spelling, and the whole is within the room of the page. The page has the statistics of
/// its values exactly where they are asked for. The type fits the array, and `P` holds each decimal that is not null.
///
/// # Errors
///
/// - `NotYetImplemented(N5)` exactly where pages have no values of the array's type.
/// - `Overflow(V3)` exactly where they have, and the room of the page passes 2^31 - 1.
/// - `Memory`, that of `encode` too.
pub fn array_to_page<T: NativeArray + AsPrimitive<P>, P: ParquetNativeType, E: Encode<T> + Drop>(
    alloc: Global,
    array: &PrimitiveArray<T>,
    options: WriteOptions,
    type_: PrimitiveType,
    encoding: Encoding,
    encode: E,
) -> Result<DataPage>
    requires fits { FitsArray (leaf_column type_ (T.tree array.now)) }
    requires physical { physical_view type_.physical_type ≡ physical_view P.physical }
    requires held { ¬ IsTooWide (leaf_column type_ (T.tree array.now)) }
    requires encodes { Encodes (E.spells encode array.now) options.version encoding
        (leaf_column type_ (T.tree array.now)) }
    ensures ok { IfOk result (IsPageNamed options encoding (leaf_column type_ (T.tree array.now))) }
    ensures unserved { ComesWhere (NotYetImplemented N5) (is_in_pages (T.tree array.now) ≡ false) result }
    ensures too_large { ComesWhere (Overflow V3) ((is_in_pages (T.tree array.now) ≡ true)
        × IsTooLarge (leaf_column type_ (T.tree array.now))) result }
    ensures err { IfErr result (λ e. (e ≡ Memory) ⊎ (e ≡ NotYetImplemented N5) ⊎ (e ≡ Overflow V3)) }
{
    let values = T::into_box(array.clone(alloc)?);
    let nested = flat_path(alloc, &values, &type_)?;
    let count = count_values(&values, &type_, &nested)?;
    let levels = level_body(alloc, options.version, &nested)?;
    let repetition = levels.repetition;
    let definition = levels.definition;
    let buffer = encode.encode(array, is_optional(&type_), levels.buffer)?;
    let encoded = Encoded {
        body: Body {
            buffer,
            repetition,
            definition,
        },
        values: count,
    };
    encoded_page(alloc, &values, type_, &nested, options, encoding, encoded)
}
