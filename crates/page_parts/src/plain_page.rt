//! A page from a body that is spelled.
ghost use Rattle.std.specs.Prelude.{◌≡◌, ◌⊎◌, ◌↔◌, ◌≤◌, ◌<◌, IfErr, IfOk, IsErrOf, length, option_map};
ghost use Rattle.columns_base.specs.declared.error.Error.TheVariants.{Memory, Overflow};
ghost use Rattle.columns_base.specs.declared.error.V.TheVariants.{V3};
ghost use Rattle.pq_pages.specs.DataPages.{IsEncodingNumber, number_in};
ghost use Rattle.pq_tree.specs.Views.{statistics_view};
ghost use Rattle.page_parts.specs.Plain.{HasHeader, IsPlainPage, greatest, max_number, stated};

use crate::stated::stated_of;
use columns_base::{Error, Result, V};
use pq_pages::DataPage;
use pq_tree::{
    DataPageHeader, DataPageHeaderV1, DataPageHeaderV2, Descriptor, Encoding, ParquetStatistics,
    PrimitiveType, Statistics, Version,
};
use write_pages::WriteOptions;

/// The largest number that a field of a header states.
const MAX_NUMBER: usize = 2_147_483_647;

// What the header of a page counts.
#[derive(Clone, Copy, Drop)]
struct Counts {
    values: usize,
    rows: usize,
    nulls: usize,
    repetition: usize,
    definition: usize,
}

impl Counts {
    // The greatest of these and of the body's size.
    fn greatest(self, size: usize) -> usize
        ensures { result
            ≡ greatest
            (record {
              values = self.values;
              rows = self.rows;
              nulls = self.nulls;
              repetition = self.repetition;
              definition =
                  self.definition;
            }) size }
    {
        let rows = self.values.max(self.rows);
        let levels = self.nulls.max(self.repetition);
        rows.max(levels).max(self.definition.max(size))
    }
}

// The number of an encoding (Parquet format, `Encoding`).
fn number_of(encoding: Encoding) -> i32
    ensures is { result ≡ number_in encoding }
    ensures named { IsEncodingNumber result }
{
    match encoding {
        Encoding::Plain => 0,
        Encoding::PlainDictionary => 2,
        Encoding::Rle => 3,
        Encoding::BitPacked => 4,
        Encoding::DeltaBinaryPacked => 5,
        Encoding::DeltaLengthByteArray => 6,
        Encoding::DeltaByteArray => 7,
        Encoding::RleDictionary => 8,
    }
}

fn header_of(
    version: Version,
    counts: Counts,
    encoding: Encoding,
    statistics: Option<Statistics>,
) -> DataPageHeader
    requires few { greatest
        (record {
          values = counts.values;
          rows = counts.rows;
          nulls = counts.nulls;
          repetition = counts.repetition;
          definition = counts.definition;
        }) 0 ≤ max_number }
    ensures { HasHeader version
        (record {
          values = counts.values;
          rows = counts.rows;
          nulls = counts.nulls;
          repetition = counts.repetition;
          definition = counts.definition;
        }) encoding (option_map statistics_view statistics) result }
{
    match version {
        Version::V1 => DataPageHeader::V1(DataPageHeaderV1 {
            num_values: counts.values as i32,
            encoding: number_of(encoding),
            definition_level_encoding: Some(3),
            repetition_level_encoding: Some(3),
            statistics,
        }),
        Version::V2 => DataPageHeader::V2(DataPageHeaderV2 {
            num_values: counts.values as i32,
            num_nulls: Some(counts.nulls as i32),
            num_rows: counts.rows as i32,
            encoding: number_of(encoding),
            definition_levels_byte_length: counts.definition as i32,
            repetition_levels_byte_length: counts.repetition as i32,
            is_compressed: Some(false),
            statistics,
        }),
    }
}

// The statistics, if there are any.
fn all_stated(buffer: &Vec<u8>, statistics: Option<ParquetStatistics>) -> Result<Option<Statistics>>
    ensures ok { IfOk result (λ s. option_map statistics_view s ≡ option_map stated statistics) }
    ensures err { IfErr result (λ e. e ≡ Memory) }
{
    match statistics {
        None => Ok(None),
        Some(statistics) => Ok(Some(stated_of(*buffer.allocator(), statistics)?)),
    }
}

/// The data page of this body, of a column without levels: both greatest levels of its descriptor are 0. Its header states the numbers that are
/// given, and bounds in plain bytes. It is made in the memory of the body's allocator.
///
/// # Errors
///
/// - `Overflow(V3)`: exactly where one of the numbers, or the number of the body's bytes, passes 2^31 - 1.
/// - `Memory`: memory ran out.
pub fn build_plain_page(
    buffer: Vec<u8>,
    num_values: usize,
    num_rows: usize,
    null_count: usize,
    repetition_levels_byte_length: usize,
    definition_levels_byte_length: usize,
    statistics: Option<ParquetStatistics>,
    type_: PrimitiveType,
    options: WriteOptions,
    encoding: Encoding,
) -> Result<DataPage>
    ensures ok { IfOk result (IsPlainPage options.version
        (record {
          values = num_values;
          rows = num_rows;
          nulls = null_count;
          repetition = repetition_levels_byte_length;
          definition = definition_levels_byte_length;
        }) encoding (option_map stated statistics) buffer.items type_) }
    ensures passes { IsErrOf result (Overflow V3) ↔ max_number < greatest
        (record {
          values = num_values;
          rows = num_rows;
          nulls = null_count;
          repetition = repetition_levels_byte_length;
          definition = definition_levels_byte_length;
        }) (length buffer.items) }
    ensures err { IfErr result (λ e. (e ≡ Memory) ⊎ (e ≡ Overflow V3)) }
{
    let counts = Counts {
        values: num_values,
        rows: num_rows,
        nulls: null_count,
        repetition: repetition_levels_byte_length,
        definition: definition_levels_byte_length,
    };
    if counts.greatest(buffer.len()) > MAX_NUMBER {
        return Err(Error::Overflow(V::V3));
    }
    let statistics = all_stated(&buffer, statistics)?;
    let header = header_of(options.version, counts, encoding, statistics);
    let descriptor = Descriptor {
        primitive_type: type_,
        max_def_level: 0,
        max_rep_level: 0,
    };
    Ok(DataPage::new(header, buffer, descriptor, Some(num_rows)))
}
