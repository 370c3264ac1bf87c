//! Intervals and decimals from the bytes that a column stores (Parquet format, LogicalTypes, "INTERVAL" and "DECIMAL").
ghost use Rattle.std.specs.Prelude.{◌≡◌, ◌+◌, ◌≤◌, ◌^◌, option_map, length, take, drop};
ghost use Rattle.std.specs.Int.{w32, cast_signed};
ghost use Rattle.columns_core.specs.Natives.{value_days, value_i32, within_signed};
ghost use Rattle.columns_core.specs.Tree.{t_interval};
ghost use Rattle.columns_core.specs.declared.types.IntervalUnit.TheVariants.{YearMonth, DayTime};
ghost use Rattle.pq_files.specs.Stored.{big_endian, signed_big_endian};
ghost use Rattle.pq_numbers.specs.Texts.{number_of};
ghost use Rattle.shredding.specs.Slot.{number};
ghost use Rattle.read_leaf.specs.Fixed.{are_zeros, loaded_days, loaded_decimal, loaded_months};

use crate::cut::skip;
use crate::fixed::FixedValue;
use columns_core::DaysMs;
use columns_native::PlainNumber;

// Whether all bytes are zero.
fn are_zeros(bytes: &[u8]) -> bool
    ensures { result ≡ are_zeros bytes.now }
{
    match bytes {
        [] => true,
        [byte, rest @ ..] => *byte == 0 && are_zeros(rest),
    }
}

// The number of four bytes, the lowest first.
fn number_in(bytes: &[u8], from: usize) -> i32
    requires { from + 4 ≤ length bytes.now }
    ensures { result ≡ cast_signed w32 (number_of (take 4 (drop from bytes.now))) }
{
    i32::from_plain(&bytes[from..from + 4])
}

// An interval of months, whose days and milliseconds are zero.
fn months_of(bytes: &[u8]) -> Option<i32>
    ensures { option_map (value_i32 (t_interval YearMonth)) result ≡ loaded_months bytes.now }
{
    if bytes.len() != 12 {
        return None;
    }
    if !are_zeros(skip(bytes, 4)) {
        return None;
    }
    Some(number_in(bytes, 0))
}

// An interval of days and milliseconds, whose months are zero.
fn days_of(bytes: &[u8]) -> Option<DaysMs>
    ensures { option_map (value_days (t_interval DayTime)) result ≡ loaded_days bytes.now }
{
    if bytes.len() != 12 {
        return None;
    }
    if !are_zeros(&bytes[..4]) {
        return None;
    }
    Some(DaysMs {
        days: number_in(bytes, 4),
        milliseconds: number_in(bytes, 8),
    })
}

// The bytes as a number, the highest first, and the greatest one of as many bytes.
fn unsigned_number(bytes: &[u8]) -> (u128, u128)
    requires { length bytes.now ≤ 16 }
    ensures number { result.0 ≡ big_endian bytes.now }
    ensures greatest { result.1 + 1 ≡ 256 ^ length bytes.now }
    ensures below { result.0 ≤ result.1 }
{
    let mut number = 0;
    let mut greatest = 0;
    for i in 0..bytes.len() {
        number = number * 256 + u128::from(bytes[i]);
        greatest = greatest * 256 + 255;
    }
    (number, greatest)
}

// The bytes as a number in two's complement, the highest first.
fn signed_number(bytes: &[u8]) -> i128
    requires { length bytes.now ≤ 16 }
    ensures { result ≡ signed_big_endian bytes.now }
{
    let (number, greatest) = unsigned_number(bytes);
    if number <= greatest / 2 {
        number as i128
    } else {
        -1 - (greatest - number) as i128
    }
}

// A decimal of at most 128 bits.
fn decimal_of(bytes: &[u8]) -> Option<i128>
    ensures { option_map (λ x. number (within_signed 128 x)) result ≡ loaded_decimal bytes.now }
{
    if 16 < bytes.len() {
        return None;
    }
    Some(signed_number(bytes))
}

impl FixedValue for i32 {
    ghost use Rattle.columns_core.specs.Natives.{value_i32};
    ghost use Rattle.columns_core.specs.Tree.{t_interval};
    ghost use Rattle.columns_core.specs.declared.types.IntervalUnit.TheVariants.{YearMonth};
    ghost use Rattle.read_leaf.specs.Fixed.{loaded_months};
    ghost use Rattle.read_leaf.specs.FixedTypes.{months_held};

    ghost loaded = { loaded_months };

    ghost held = { value_i32 (t_interval YearMonth) };

    ghost worth = { months_held };

    fn from_bytes(bytes: &[u8]) -> Option<i32> {
        months_of(bytes)
    }

    fn blank() -> i32 {
        0
    }
}

impl FixedValue for DaysMs {
    ghost use Rattle.columns_core.specs.Natives.{value_days};
    ghost use Rattle.columns_core.specs.Tree.{t_interval};
    ghost use Rattle.columns_core.specs.declared.types.IntervalUnit.TheVariants.{DayTime};
    ghost use Rattle.read_leaf.specs.Fixed.{loaded_days};
    ghost use Rattle.read_leaf.specs.FixedTypes.{days_held};

    ghost loaded = { loaded_days };

    ghost held = { value_days (t_interval DayTime) };

    ghost worth = { days_held };

    fn from_bytes(bytes: &[u8]) -> Option<DaysMs> {
        days_of(bytes)
    }

    fn blank() -> DaysMs {
        DaysMs {
            days: 0,
            milliseconds: 0,
        }
    }
}

impl FixedValue for i128 {
    ghost use Rattle.shredding.specs.Slot.{number};
    ghost use Rattle.columns_core.specs.Natives.{within_signed};
    ghost use Rattle.read_leaf.specs.Fixed.{loaded_decimal};
    ghost use Rattle.read_leaf.specs.FixedTypes.{decimal_held};

    ghost loaded = { loaded_decimal };

    ghost held = { λ x. number (within_signed 128 x) };

    ghost worth = { decimal_held };

    fn from_bytes(bytes: &[u8]) -> Option<i128> {
        decimal_of(bytes)
    }

    fn blank() -> i128 {
        0
    }
}
