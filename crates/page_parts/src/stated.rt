//! Statistics as a page header states them.
ghost use Rattle.std.specs.Prelude.{◌≡◌, IfErr, IfOk, option_map};
ghost use Rattle.columns_base.specs.declared.error.Error.TheVariants.{Memory};
ghost use Rattle.pq_tree.specs.Views.{bytes_view, statistics_view};
ghost use Rattle.page_parts.specs.Plain.{stated, truth_text};

use columns_base::Result;
use columns_core::ParquetNativeType;
use pq_tree::{BooleanStatistics, ParquetStatistics, PrimitiveStatistics, Statistics};
use std::alloc::Global;

fn number_text<P: ParquetNativeType>(alloc: Global, number: Option<P>) -> Result<Option<Vec<u8>>>
    ensures ok { IfOk result (λ t. option_map bytes_view t ≡ option_map P.stored number) }
    ensures err { IfErr result (λ e. e ≡ Memory) }
{
    match number {
        None => Ok(None),
        Some(number) => {
            let mut text = Vec::new(alloc);
            number.push_le_bytes(&mut text)?;
            Ok(Some(text))
        }
    }
}

fn of_numbers<P: ParquetNativeType>(
    alloc: Global,
    statistics: &PrimitiveStatistics<P>,
) -> Result<Statistics>
    ensures ok { IfOk result (λ s. statistics_view s
        ≡ record {
          null_count = statistics.now.null_count;
          max_value = option_map P.stored statistics.now.max_value;
          min_value = option_map P.stored statistics.now.min_value;
        }) }
    ensures err { IfErr result (λ e. e ≡ Memory) }
{
    Ok(Statistics {
        null_count: statistics.null_count,
        max_value: number_text(alloc, statistics.max_value)?,
        min_value: number_text(alloc, statistics.min_value)?,
    })
}

fn byte_of(alloc: Global, truth: Option<bool>) -> Result<Option<Vec<u8>>>
    ensures ok { IfOk result (λ t. option_map bytes_view t ≡ option_map truth_text truth) }
    ensures err { IfErr result (λ e. e ≡ Memory) }
{
    match truth {
        None => Ok(None),
        Some(true) => Ok(Some(Vec::from_slice(alloc, &[1])?)),
        Some(false) => Ok(Some(Vec::from_slice(alloc, &[0])?)),
    }
}

fn of_truths(alloc: Global, statistics: &BooleanStatistics) -> Result<Statistics>
    ensures ok { IfOk result (λ s. statistics_view s
        ≡ record {
          null_count = statistics.now.null_count;
          max_value = option_map truth_text
              statistics.now.max_value;
          min_value = option_map truth_text statistics.now.min_value;
        }) }
    ensures err { IfErr result (λ e. e ≡ Memory) }
{
    Ok(Statistics {
        null_count: statistics.null_count,
        max_value: byte_of(alloc, statistics.max_value)?,
        min_value: byte_of(alloc, statistics.min_value)?,
    })
}

/// The statistics with their bounds in plain bytes.
pub fn stated_of(alloc: Global, statistics: ParquetStatistics) -> Result<Statistics>
    ensures ok { IfOk result (λ s. statistics_view s ≡ stated statistics) }
    ensures err { IfErr result (λ e. e ≡ Memory) }
{
    match statistics {
        ParquetStatistics::Boolean(truths) => of_truths(alloc, &truths),
        ParquetStatistics::Int32(numbers) => of_numbers(alloc, &numbers),
        ParquetStatistics::Int64(numbers) => of_numbers(alloc, &numbers),
        ParquetStatistics::Binary(strings) => Ok(Statistics {
            null_count: strings.null_count,
            max_value: strings.max_value,
            min_value: strings.min_value,
        }),
        ParquetStatistics::FixedLen(strings) => Ok(Statistics {
            null_count: strings.null_count,
            max_value: strings.max_value,
            min_value: strings.min_value,
        }),
    }
}
