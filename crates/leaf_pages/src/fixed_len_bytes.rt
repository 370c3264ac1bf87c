//! Pages of byte strings of one size.
ghost use Rattle.std.specs.Prelude.{◌≡◌, ◌⊎◌, IfOk, IfErr, false, true, option_map};
ghost use Rattle.columns_base.specs.declared.error.Error.TheVariants.{Memory, NotYetImplemented, Overflow};
ghost use Rattle.columns_base.specs.declared.error.N.TheVariants.{N5};
ghost use Rattle.columns_base.specs.declared.error.V.TheVariants.{V3};
ghost use Rattle.columns_array.specs.Boxed.{boxed};
ghost use Rattle.columns_array.specs.declared.arrays.ArrayBox.TheVariants.{FixedSizeBinary};
ghost use Rattle.leaf_pages.specs.Columns.{FitsArray, IsTooLarge, leaf_column, is_in_pages};
ghost use Rattle.leaf_pages.specs.Restated.{IsRestated, Restates, stated_fixed, restated};
ghost use Rattle.pq_tree.specs.Reads.{ComesWhere};
ghost use Rattle.pq_tree.specs.Views.{statistics_view};

use crate::checked::checked_flat_page;
use columns_array::ArrayBox;
use columns_base::Result;
use columns_leaf::FixedSizeBinaryArray;
use pq_pages::DataPage;
use pq_tree::{
    DataPageHeader, DataPageHeaderV1, DataPageHeaderV2, FixedLenStatistics, PrimitiveType,
    Statistics,
};
use std::alloc::Global;
use write_pages::WriteOptions;

// The header with these statistics in the place of its own.
fn restated(header: &DataPageHeader, statistics: Option<Statistics>) -> DataPageHeader
    ensures { result ≡ restated statistics header.now }
{
    match header {
        DataPageHeader::V1(header) => DataPageHeader::V1(DataPageHeaderV1 {
            num_values: header.num_values,
            encoding: header.encoding,
            definition_level_encoding: header.definition_level_encoding,
            repetition_level_encoding: header.repetition_level_encoding,
            statistics,
        }),
        DataPageHeader::V2(header) => DataPageHeader::V2(DataPageHeaderV2 {
            num_values: header.num_values,
            num_nulls: header.num_nulls,
            num_rows: header.num_rows,
            encoding: header.encoding,
            definition_levels_byte_length: header.definition_levels_byte_length,
            repetition_levels_byte_length: header.repetition_levels_byte_length,
            is_compressed: header.is_compressed,
            statistics,
        }),
    }
}

// The statistics as a header has them.
fn stated_of(statistics: Option<FixedLenStatistics>) -> Option<Statistics>
    ensures { option_map statistics_view result ≡ option_map stated_fixed statistics }
{
    let statistics = statistics?;
    Some(Statistics {
        null_count: statistics.null_count,
        max_value: statistics.max_value,
        min_value: statistics.min_value,
    })
}

// The page with these statistics in the place of its own.
fn restate(
    alloc: Global,
    page: &DataPage,
    statistics: Option<FixedLenStatistics>,
) -> Result<DataPage>
    ensures ok { IfOk result (Restates page.now (option_map stated_fixed statistics)) }
    ensures err { IfErr result (λ e. e ≡ Memory) }
{
    let header = restated(page.header(), stated_of(statistics));
    let body = Vec::from_slice(alloc, page.buffer())?;
    Ok(DataPage::new(header, body, page.descriptor().clone(alloc)?, None))
}

/// One page of a flat column of byte strings of one size, in PLAIN (Parquet format, "Data Pages"; Encodings, "Plain"). Its header states the statistics that are
/// given, whatever they are; those of the options are not looked at. The type fits the array.
///
/// # Errors
///
/// - `NotYetImplemented(N5)` exactly where the size passes 2^31 - 1.
/// - `Overflow(V3)` exactly where it does not, and the room of the page passes 2^31 - 1.
/// - `Memory`.
pub fn array_to_page(
    alloc: Global,
    array: &FixedSizeBinaryArray,
    options: WriteOptions,
    type_: PrimitiveType,
    statistics: Option<FixedLenStatistics>,
) -> Result<DataPage>
    requires fits { FitsArray (leaf_column type_ (boxed (FixedSizeBinary array.now))) }
    ensures ok { IfOk result (IsRestated options (option_map stated_fixed statistics)
        (leaf_column type_ (boxed (FixedSizeBinary array.now)))) }
    ensures unserved { ComesWhere (NotYetImplemented N5) (is_in_pages (boxed (FixedSizeBinary array.now))
        ≡ false) result }
    ensures too_large { ComesWhere (Overflow V3) ((is_in_pages (boxed (FixedSizeBinary array.now)) ≡ true)
        × IsTooLarge (leaf_column type_ (boxed (FixedSizeBinary array.now)))) result }
    ensures err { IfErr result (λ e. (e ≡ Memory) ⊎ (e ≡ NotYetImplemented N5) ⊎ (e ≡ Overflow V3)) }
{
    array.know();
    let array = ArrayBox::FixedSizeBinary(array.clone(alloc)?);
    let bare = WriteOptions {
        write_statistics: false,
        ..options
    };
    match checked_flat_page(alloc, &array, type_, bare) {
        Ok(page) => restate(alloc, &page, statistics),
        Err(error) => Err(error),
    }
}
