//! The annotations of a node, by their numbers.
ghost use Rattle.std.specs.Prelude.{◌≡◌, ℕ, ℤ, pos, IfOk, OnErr, Some, option_map};
ghost use Rattle.std.specs.Option.{option_copied};
ghost use Rattle.std.specs.Result.{result_ok};
ghost use Rattle.pq_thrift.specs.Value.{Value, view, fields_view, field_view};
ghost use Rattle.pq_metadata.specs.Elements.{IsNatural, IsPhysical, number_of_repetition, converted_numbered, converted_of, natural_of, truth_of, unit_numbered, unit_in, unit_of_field, unit_of, logical_decimal, logical_time, integer_of, width_of, logical_integer, logical_numbered, is_member, logical_field, logical_last, logical_of};
ghost use Rattle.pq_metadata.specs.Ids.{get, last_field};
ghost use Rattle.pq_tree.specs.Reads.{HasNone};
ghost use Rattle.pq_tree.specs.Types.{Logical};
ghost use Rattle.pq_tree.specs.Views.{repetition_view, physical_view, unit_view, integer_view, converted_view, logical_view};

use crate::fields::{last_member, last_with};
use crate::kinds::{as_i8, as_i32, as_struct, as_truth};
use crate::misfit::Misfit;
use columns_base::PhysicalType;
use pq_thrift::Thrift;
use pq_tree::{ConvertedType, IntegerType, LogicalType, Repetition, TimeUnit};

/// A number from 0, which counts as 0 where it is absent.
pub fn natural_from(number: Option<i32>) -> Result<usize, Misfit>
    ensures found { IfOk result (IsNatural number) }
    ensures refused { OnErr result (HasNone (IsNatural number)) }
{
    match number {
        None => Ok(0),
        Some(number) => {
            if number < 0 {
                return Err(Misfit);
            }
            Ok(number as usize)
        }
    }
}

fn fixed_from(length: Option<i32>) -> Result<PhysicalType, Misfit>
    ensures found { IfOk result (λ p. IsPhysical (Some (pos 7)) length (Some (physical_view p))) }
    ensures refused { OnErr result (HasNone (λ p. IsPhysical (Some (pos 7)) length (Some p))) }
{
    let Some(length) = length else {
        return Err(Misfit);
    };
    if length < 1 {
        return Err(Misfit);
    }
    Ok(PhysicalType::FixedLenByteArray(length as usize))
}

fn physical_numbered(number: i32, length: Option<i32>) -> Result<PhysicalType, Misfit>
    ensures found { IfOk result (λ p. IsPhysical (Some number) length (Some (physical_view p))) }
    ensures refused { OnErr result (HasNone (λ p. IsPhysical (Some number) length (Some p))) }
{
    match number {
        0 => Ok(PhysicalType::Boolean),
        1 => Ok(PhysicalType::Int32),
        2 => Ok(PhysicalType::Int64),
        3 => Ok(PhysicalType::Int96),
        4 => Ok(PhysicalType::Float),
        5 => Ok(PhysicalType::Double),
        6 => Ok(PhysicalType::ByteArray),
        7 => fixed_from(length),
        _ => Err(Misfit),
    }
}

/// The type that the numbers of a node stand for. A group has none.
pub fn physical_from(
    number: Option<i32>,
    length: Option<i32>,
) -> Result<Option<PhysicalType>, Misfit>
    ensures found { IfOk result (λ p. IsPhysical number length (option_map physical_view p)) }
    ensures refused { OnErr result (HasNone (IsPhysical number length)) }
{
    match number {
        None => Ok(None),
        Some(number) => Ok(Some(physical_numbered(number, length)?)),
    }
}

/// The repetition that a number stands for.
pub fn repetition_from(number: Option<i32>) -> Result<Repetition, Misfit>
    ensures found { IfOk result (λ r. number ≡ Some (number_of_repetition (repetition_view r))) }
    ensures refused { OnErr result (HasNone (λ r. number ≡ Some (number_of_repetition r))) }
{
    match number {
        Some(0) => Ok(Repetition::Required),
        Some(1) => Ok(Repetition::Optional),
        Some(2) => Ok(Repetition::Repeated),
        _ => Err(Misfit),
    }
}

fn converted_from_number(number: u32, precision: usize, scale: usize) -> Option<ConvertedType>
    ensures { option_map converted_view result ≡ converted_numbered number precision scale }
{
    match number {
        0 => Some(ConvertedType::Utf8),
        1 => Some(ConvertedType::Map),
        2 => Some(ConvertedType::MapKeyValue),
        3 => Some(ConvertedType::List),
        4 => Some(ConvertedType::Enum),
        5 => Some(ConvertedType::Decimal(precision, scale)),
        6 => Some(ConvertedType::Date),
        7 => Some(ConvertedType::TimeMillis),
        8 => Some(ConvertedType::TimeMicros),
        9 => Some(ConvertedType::TimestampMillis),
        10 => Some(ConvertedType::TimestampMicros),
        11 => Some(ConvertedType::Uint8),
        12 => Some(ConvertedType::Uint16),
        13 => Some(ConvertedType::Uint32),
        14 => Some(ConvertedType::Uint64),
        15 => Some(ConvertedType::Int8),
        16 => Some(ConvertedType::Int16),
        17 => Some(ConvertedType::Int32),
        18 => Some(ConvertedType::Int64),
        19 => Some(ConvertedType::Json),
        20 => Some(ConvertedType::Bson),
        21 => Some(ConvertedType::Interval),
        _ => None,
    }
}

/// The converted type that a number stands for. An unknown one counts as absent.
pub fn converted_from(number: Option<i32>, precision: usize, scale: usize) -> Option<ConvertedType>
    ensures { option_map converted_view result ≡ converted_of number precision scale }
{
    match number {
        None => None,
        Some(number) => {
            if number < 0 {
                return None;
            }
            converted_from_number(number as u32, precision, scale)
        }
    }
}

/// A part of a logical type that is a number from 0, and 0 where it is absent.
fn natural_part_from(value: Option<&Thrift>) -> Result<usize, Misfit>
    ensures { result_ok result ≡ natural_of (option_map view (option_copied value.entry)) }
{
    let Some(value) = value else {
        return Ok(0);
    };
    match as_i32(value) {
        Some(number) if number >= 0 => Ok(number as usize),
        _ => Err(Misfit),
    }
}

fn truth_from(value: Option<&Thrift>) -> Result<bool, Misfit>
    ensures { result_ok result ≡ truth_of (option_map view (option_copied value.entry)) }
{
    let Some(value) = value else {
        return Err(Misfit);
    };
    match as_truth(value) {
        Some(truth) => Ok(truth),
        None => Err(Misfit),
    }
}

fn width_from(value: Option<&Thrift>) -> Result<i8, Misfit>
    ensures { result_ok result ≡ width_of (option_map view (option_copied value.entry)) }
{
    let Some(value) = value else {
        return Err(Misfit);
    };
    match as_i8(value) {
        Some(width) => Ok(width),
        None => Err(Misfit),
    }
}

fn unit_from_number(id: i16) -> Option<TimeUnit>
    ensures { option_map unit_view result ≡ unit_numbered id }
{
    match id {
        1 => Some(TimeUnit::Milliseconds),
        2 => Some(TimeUnit::Microseconds),
        3 => Some(TimeUnit::Nanoseconds),
        _ => None,
    }
}

/// The unit of a member. An unknown one counts as absent, and a known one is a struct.
fn unit_from_member(id: i16, value: &Thrift) -> Result<Option<TimeUnit>, Misfit>
    ensures { option_map (option_map unit_view) (result_ok result) ≡ unit_in (unit_numbered id) (view value.now) }
{
    let Some(unit) = unit_from_number(id) else {
        return Ok(None);
    };
    match as_struct(value) {
        Some(_) => Ok(Some(unit)),
        None => Err(Misfit),
    }
}

/// The time unit that the last member of the union names.
fn unit_from(value: Option<&Thrift>) -> Result<Option<TimeUnit>, Misfit>
    ensures { option_map (option_map unit_view) (result_ok result)
        ≡ unit_of (option_map view (option_copied value.entry)) }
{
    let Some(value) = value else {
        return Err(Misfit);
    };
    let Some(members) = as_struct(value) else {
        return Err(Misfit);
    };
    let Some((id, unit)) = last_member(members) else {
        return Err(Misfit);
    };
    unit_from_member(*id, unit)
}

fn decimal_from(parts: &[(i16, Thrift)]) -> Result<Option<LogicalType>, Misfit>
    ensures { option_map (option_map logical_view) (result_ok result) ≡ logical_decimal (fields_view parts.now) }
{
    let scale = natural_part_from(last_with(parts, 1))?;
    let precision = natural_part_from(last_with(parts, 2))?;
    Ok(Some(LogicalType::Decimal(precision, scale)))
}

fn time_from(parts: &[(i16, Thrift)]) -> Result<Option<LogicalType>, Misfit>
    ensures { option_map (option_map logical_view) (result_ok result)
        ≡ logical_time Logical.time (fields_view parts.now) }
{
    let is_adjusted_to_utc = truth_from(last_with(parts, 1))?;
    let unit = unit_from(last_with(parts, 2))?;
    match unit {
        Some(unit) => Ok(Some(LogicalType::Time {
            unit,
            is_adjusted_to_utc,
        })),
        None => Ok(None),
    }
}

fn timestamp_from(parts: &[(i16, Thrift)]) -> Result<Option<LogicalType>, Misfit>
    ensures { option_map (option_map logical_view) (result_ok result)
        ≡ logical_time Logical.timestamp (fields_view parts.now) }
{
    let is_adjusted_to_utc = truth_from(last_with(parts, 1))?;
    let unit = unit_from(last_with(parts, 2))?;
    match unit {
        Some(unit) => Ok(Some(LogicalType::Timestamp {
            unit,
            is_adjusted_to_utc,
        })),
        None => Ok(None),
    }
}

/// The type of an integer. One of another width counts as absent.
fn integer_from_width(width: i8, is_signed: bool) -> Option<IntegerType>
    ensures { option_map integer_view result ≡ integer_of width is_signed }
{
    match width {
        8 => Some(if is_signed {
            IntegerType::Int8
        } else {
            IntegerType::UInt8
        }),
        16 => Some(if is_signed {
            IntegerType::Int16
        } else {
            IntegerType::UInt16
        }),
        32 => Some(if is_signed {
            IntegerType::Int32
        } else {
            IntegerType::UInt32
        }),
        64 => Some(if is_signed {
            IntegerType::Int64
        } else {
            IntegerType::UInt64
        }),
        _ => None,
    }
}

fn integer_from(parts: &[(i16, Thrift)]) -> Result<Option<LogicalType>, Misfit>
    ensures { option_map (option_map logical_view) (result_ok result) ≡ logical_integer (fields_view parts.now) }
{
    let width = width_from(last_with(parts, 1))?;
    let is_signed = truth_from(last_with(parts, 2))?;
    match integer_from_width(width, is_signed) {
        Some(integer) => Ok(Some(LogicalType::Integer(integer))),
        None => Ok(None),
    }
}

fn logical_from_number(number: u16, parts: &[(i16, Thrift)]) -> Result<Option<LogicalType>, Misfit>
    ensures { option_map (option_map logical_view) (result_ok result)
        ≡ logical_numbered number (fields_view parts.now) }
{
    match number {
        1 => Ok(Some(LogicalType::String)),
        2 => Ok(Some(LogicalType::Map)),
        3 => Ok(Some(LogicalType::List)),
        4 => Ok(Some(LogicalType::Enum)),
        5 => decimal_from(parts),
        6 => Ok(Some(LogicalType::Date)),
        7 => time_from(parts),
        8 => timestamp_from(parts),
        10 => integer_from(parts),
        11 => Ok(Some(LogicalType::Unknown)),
        12 => Ok(Some(LogicalType::Json)),
        13 => Ok(Some(LogicalType::Bson)),
        14 => Ok(Some(LogicalType::Uuid)),
        _ => Ok(None),
    }
}

fn is_member(number: u16) -> bool
    ensures { result ≡ is_member number }
{
    1 <= number && number <= 14 && number != 9
}

/// A member that is not known counts as absent whatever it is, and one that is known is a struct.
fn logical_from_member(id: i16, value: &Thrift) -> Result<Option<LogicalType>, Misfit>
    ensures { option_map (option_map logical_view) (result_ok result) ≡ logical_field id (view value.now) }
{
    if id < 0 {
        return Ok(None);
    }
    match as_struct(value) {
        Some(parts) => logical_from_number(id as u16, parts),
        None if is_member(id as u16) => Err(Misfit),
        None => Ok(None),
    }
}

/// The logical type that the union's last member names. An unknown one counts as absent, and one
/// whose parts are not of their kinds is refused.
pub fn logical_from(members: Option<&[(i16, Thrift)]>) -> Result<Option<LogicalType>, Misfit>
    ensures { option_map (option_map logical_view) (result_ok result)
        ≡ logical_of (option_map fields_view (option_copied members.entry)) }
{
    let Some(members) = members else {
        return Ok(None);
    };
    let Some((id, value)) = last_member(members) else {
        return Ok(None);
    };
    logical_from_member(*id, value)
}
