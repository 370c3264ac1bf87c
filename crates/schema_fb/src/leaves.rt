//! Numbers with a meaning, and types without types within.

ghost use Rattle.std.specs.Prelude.{◌≡◌, Option};
ghost use Rattle.columns_core.specs.Tree.{TypeTree};
ghost use Rattle.columns_core.specs.View.{type_view};
ghost use Rattle.schema_codec.specs.Parse.{Gives};
ghost use Rattle.schema_codec.specs.Tags.{units, interval_units};
ghost use Rattle.schema_fb.specs.Reading.{truth_in, natural_in, choice_in, integer_in, decimal_of, decimal_in, time_in, timestamp_in, beside, leaf_in};
ghost use Rattle.schema_fb.specs.Steps.{seen};
ghost use Rattle.schema_fb.specs.Tags.{floats, dates};

use crate::places::{Table, byte_in, short_in, word_in};
use crate::tag::{
    Measured, date_from, float_from, integer_from, integer_type, interval_unit_of, unit_of,
};
use crate::texts::optional_text_in;
use columns_core::{DataType, IntegerType, IntervalUnit, TimeUnit};
use schema_codec::Refusal;
use std::alloc::Global;

/// How large a size, a precision or a scale may be.
const MAX_NATURAL: u32 = 2_147_483_647;

/// The truth value in a slot, false where it is absent.
pub fn truth_in(bytes: &[u8], table: &Table, i: u8) -> Result<bool, Refusal>
    ensures { Gives (λ x. x) result (truth_in bytes.now table.now i) }
{
    match byte_in(bytes, table, i, 0)? {
        0 => Ok(false),
        1 => Ok(true),
        _ => Err(Refusal::Unreadable),
    }
}

/// A size, a precision or a scale in a slot, 0 where it is absent.
pub fn natural_in(bytes: &[u8], table: &Table, i: u8) -> Result<usize, Refusal>
    ensures { Gives (λ x. x) result (natural_in bytes.now table.now i) }
{
    let number = word_in(bytes, table, i, 0)?;
    if number > MAX_NATURAL {
        return Err(Refusal::Unreadable);
    }
    Ok(number as usize)
}

/// The unit of times in a table's first slot, with the number of the default.
fn unit_in(bytes: &[u8], table: &Table, default: u16) -> Result<TimeUnit, Refusal>
    ensures { Gives (λ x. x) result (choice_in units default bytes.now table.now 0) }
{
    let number = short_in(bytes, table, 0, default)?;
    match unit_of(number) {
        Some(unit) => Ok(unit),
        None => Err(Refusal::Unreadable),
    }
}

/// The unit of intervals in a table's first slot.
fn interval_unit_in(bytes: &[u8], table: &Table) -> Result<IntervalUnit, Refusal>
    ensures { Gives (λ x. x) result (choice_in interval_units 0 bytes.now table.now 0) }
{
    let number = short_in(bytes, table, 0, 0)?;
    match interval_unit_of(number) {
        Some(unit) => Ok(unit),
        None => Err(Refusal::Unreadable),
    }
}

/// The type of floating-point numbers of the precision in a table's first slot.
fn float_in(bytes: &[u8], table: &Table) -> Result<DataType, Refusal>
    ensures { Gives type_view result (choice_in floats 0 bytes.now table.now 0) }
{
    let number = short_in(bytes, table, 0, 0)?;
    match float_from(number) {
        Some(data_type) => Ok(data_type),
        None => Err(Refusal::Unreadable),
    }
}

/// The type of dates of the unit in a table's first slot.
fn date_in(bytes: &[u8], table: &Table) -> Result<DataType, Refusal>
    ensures { Gives type_view result (choice_in dates 1 bytes.now table.now 0) }
{
    let number = short_in(bytes, table, 0, 1)?;
    match date_from(number) {
        Some(data_type) => Ok(data_type),
        None => Err(Refusal::Unreadable),
    }
}

/// The type of whole numbers that a table tells.
#[tactic(auto, unfolding(crate::specs::Reading::integer_in))]
pub fn integer_in(bytes: &[u8], table: &Table) -> Result<IntegerType, Refusal>
    ensures { Gives (λ x. x) result (integer_in bytes.now table.now) }
{
    let width = word_in(bytes, table, 0, 0)?;
    let signed = truth_in(bytes, table, 1)?;
    match integer_from(width, signed) {
        Some(key) => Ok(key),
        None => Err(Refusal::Unreadable),
    }
}

/// A type of decimal numbers from its table.
#[tactic(auto, unfolding(crate::specs::Reading::decimal_in))]
fn decimal_in(bytes: &[u8], table: &Table) -> Result<DataType, Refusal>
    ensures { Gives type_view result (decimal_in bytes.now table.now) }
{
    let precision = natural_in(bytes, table, 0)?;
    let scale = natural_in(bytes, table, 1)?;
    match word_in(bytes, table, 2, 128)? {
        128 => Ok(DataType::Decimal(precision, scale)),
        256 => Ok(DataType::Decimal256(precision, scale)),
        _ => Err(Refusal::Unreadable),
    }
}

/// A type of times of a day from its table.
#[tactic(auto, unfolding(crate::specs::Reading::time_in))]
fn time_in(bytes: &[u8], table: &Table) -> Result<DataType, Refusal>
    ensures { Gives type_view result (time_in bytes.now table.now) }
{
    let unit = unit_in(bytes, table, 1)?;
    match word_in(bytes, table, 1, 32)? {
        32 => Ok(DataType::Time32(unit)),
        64 => Ok(DataType::Time64(unit)),
        _ => Err(Refusal::Unreadable),
    }
}

/// A type of timestamps from its table.
#[tactic(auto, unfolding(crate::specs::Reading::timestamp_in))]
fn timestamp_in(
    alloc: Global,
    bytes: &[u8],
    table: &Table,
    left: u128,
) -> Result<(DataType, u128), Refusal>
    ensures { Gives (seen type_view) result (timestamp_in bytes.now table.now left) }
{
    let unit = unit_in(bytes, table, 0)?;
    let (zone, rest) = optional_text_in(alloc, bytes, table, 1, left)?;
    Ok((DataType::Timestamp(unit, zone), rest))
}

/// A type that is read, with what may still be read as it was.
fn beside(left: u128, data_type: Result<DataType, Refusal>) -> Result<(DataType, u128), Refusal>
    ensures { (read : Option TypeTree) → Gives type_view data_type read
        → Gives (seen type_view) result (beside left read) }
{
    Ok((data_type?, left))
}

/// A type of this tag, from its table.
pub fn leaf_in(
    alloc: Global,
    tag: Measured,
    bytes: &[u8],
    table: &Table,
    left: u128,
) -> Result<(DataType, u128), Refusal>
    ensures { Gives (seen type_view) result (leaf_in tag bytes.now table.now left) }
{
    match tag {
        Measured::Int => {
            let key = integer_in(bytes, table)?;
            Ok((integer_type(key), left))
        }
        Measured::FloatingPoint => beside(left, float_in(bytes, table)),
        Measured::Decimal => beside(left, decimal_in(bytes, table)),
        Measured::Date => beside(left, date_in(bytes, table)),
        Measured::Time => beside(left, time_in(bytes, table)),
        Measured::Timestamp => timestamp_in(alloc, bytes, table, left),
        Measured::Interval => {
            let unit = interval_unit_in(bytes, table)?;
            Ok((DataType::Interval(unit), left))
        }
        Measured::FixedSizeBinary => {
            let size = natural_in(bytes, table, 0)?;
            Ok((DataType::FixedSizeBinary(size), left))
        }
        Measured::Duration => {
            let unit = unit_in(bytes, table, 1)?;
            Ok((DataType::Duration(unit), left))
        }
    }
}
