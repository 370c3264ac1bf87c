//! Each leaf type as pages have it: flat, in a list and in a struct where the type nests, in both versions, with statistics. The bytes are worked by hand (Parquet
//! format, "Types", LogicalTypes; Encodings, "Plain"; parquet.thrift: `Statistics`, `ColumnOrder`).
use crate::arrays::{boxed, large_strings, large_texts, pairs, strings, texts, truths};
use crate::shapes::{Shape, Wanted, is_unserved, is_written, is_written_flat};
use columns_array::ArrayBox;
use columns_base::{PhysicalType, Result};
use columns_core::{DataType, DaysMs, IntervalUnit, TimeUnit};
use columns_native::NativeArray;
use std::alloc::Global;

// The bounds are the values themselves, the first of them the least or the greatest.
fn ascending(plain: &[u8], width: usize) -> Wanted<'_> {
    Wanted {
        plain,
        least: &plain[..width.min(plain.len())],
        greatest: &plain[width.min(plain.len())..],
    }
}

fn descending(plain: &[u8], width: usize) -> Wanted<'_> {
    Wanted {
        plain,
        least: &plain[width.min(plain.len())..],
        greatest: &plain[..width.min(plain.len())],
    }
}

fn without_order(plain: &[u8]) -> Wanted<'_> {
    Wanted {
        plain,
        least: b"",
        greatest: b"",
    }
}

// Whether the first of these numbers, null and the last are written as wanted in each shape.
fn are_written<T: NativeArray>(
    alloc: Global,
    data_type: DataType,
    values: &[T],
    physical_type: PhysicalType,
    wanted: Wanted<'_>,
) -> Result<bool> {
    let array = boxed(alloc, data_type, values)?;
    is_written(alloc, &array, physical_type, wanted)
}

// The same of a type that does not nest: whether they are written flat, and refused in lists and in structs.
fn are_written_flat<T: NativeArray>(
    alloc: Global,
    data_type: DataType,
    values: &[T],
    physical_type: PhysicalType,
    wanted: Wanted<'_>,
) -> Result<bool> {
    let array = boxed(alloc, data_type, values)?;
    is_flat_alone(alloc, &array, physical_type, wanted)
}

fn is_flat_alone(
    alloc: Global,
    array: &ArrayBox,
    physical_type: PhysicalType,
    wanted: Wanted<'_>,
) -> Result<bool> {
    if !is_unserved(alloc, array, physical_type, Shape::List)
        || !is_unserved(alloc, array, physical_type, Shape::Struct)
    {
        return Ok(false);
    }
    is_written_flat(alloc, array, physical_type, wanted)
}

// Bit 0 is the first value.
#[test]
fn truth_values(rt: HostRuntime) -> Result<()> {
    let alloc = rt.alloc();
    let array = ArrayBox::Boolean(truths(alloc, &[true, true, false])?);
    let wanted = Wanted {
        plain: b"\x01",
        least: b"\x00",
        greatest: b"\x01",
    };
    assert!(rt; is_written(alloc, &array, PhysicalType::Boolean, wanted)?);
    Ok(())
}

// -1, null and 5 in four bytes each.
#[test]
fn small_numbers_with_a_sign(rt: HostRuntime) -> Result<()> {
    let alloc = rt.alloc();
    let int32 = PhysicalType::Int32;
    let wanted = ascending(b"\xff\xff\xff\xff\x05\x00\x00\x00", 4);
    assert!(rt; are_written(alloc, DataType::Int8, &[-1i8, 9, 5], int32, wanted)?);
    assert!(rt; are_written(alloc, DataType::Int16, &[-1i16, 9, 5], int32, wanted)?);
    assert!(rt; are_written(alloc, DataType::Int32, &[-1i32, 9, 5], int32, wanted)?);
    assert!(rt; are_written(alloc, DataType::Date32, &[-1i32, 9, 5], int32, wanted)?);
    Ok(())
}

#[test]
fn times_of_seconds_and_milliseconds(rt: HostRuntime) -> Result<()> {
    let alloc = rt.alloc();
    let int32 = PhysicalType::Int32;
    let wanted = descending(b"\x00\x01\x00\x00\x05\x00\x00\x00", 4);
    for unit in [TimeUnit::Second, TimeUnit::Millisecond] {
        let data_type = DataType::Time32(unit);
        assert!(rt; are_written(alloc, data_type, &[256i32, 9, 5], int32, wanted)?);
    }
    Ok(())
}

// The greatest number of each width, null and 1.
#[test]
fn small_numbers_without_a_sign(rt: HostRuntime) -> Result<()> {
    let alloc = rt.alloc();
    let int32 = PhysicalType::Int32;
    let of_uint8 = descending(b"\xff\x00\x00\x00\x01\x00\x00\x00", 4);
    let of_uint16 = descending(b"\xff\xff\x00\x00\x01\x00\x00\x00", 4);
    let of_uint32 = descending(b"\xff\xff\xff\xff\x01\x00\x00\x00", 4);
    let wide = b"\xff\xff\xff\xff\x00\x00\x00\x00\x01\x00\x00\x00\x00\x00\x00\x00";
    let values = [4_294_967_295u32, 9, 1];
    assert!(rt; are_written(alloc, DataType::UInt8, &[255u8, 9, 1], int32, of_uint8)?);
    assert!(rt;
        are_written(
            alloc,
            DataType::UInt16,
            &[65_535u16, 9, 1],
            int32,
            of_uint16
        )?
    );
    assert!(rt; are_written(alloc, DataType::UInt32, &values, int32, of_uint32)?);
    let int64 = PhysicalType::Int64;
    assert!(rt; are_written(alloc, DataType::UInt32, &values, int64, descending(wide, 8))?);
    Ok(())
}

// -2, null and 3 in eight bytes each.
#[test]
fn wide_numbers_with_a_sign(rt: HostRuntime) -> Result<()> {
    let alloc = rt.alloc();
    let int64 = PhysicalType::Int64;
    let values = [-2i64, 9, 3];
    let wanted = ascending(
        b"\xfe\xff\xff\xff\xff\xff\xff\xff\x03\x00\x00\x00\x00\x00\x00\x00",
        8,
    );
    assert!(rt; are_written(alloc, DataType::Int64, &values, int64, wanted)?);
    assert!(rt; are_written(alloc, DataType::Date64, &values, int64, wanted)?);
    for unit in [
        TimeUnit::Second,
        TimeUnit::Millisecond,
        TimeUnit::Microsecond,
        TimeUnit::Nanosecond,
    ] {
        assert!(rt; are_written(alloc, DataType::Duration(unit), &values, int64, wanted)?);
        let timestamp = DataType::Timestamp(unit, None);
        assert!(rt; are_written(alloc, timestamp, &values, int64, wanted)?);
    }
    Ok(())
}

#[test]
fn times_of_microseconds_and_nanoseconds(rt: HostRuntime) -> Result<()> {
    let alloc = rt.alloc();
    let values = [2i64, 9, 4_294_967_296];
    let wanted = ascending(
        b"\x02\x00\x00\x00\x00\x00\x00\x00\x00\x00\x00\x00\x01\x00\x00\x00",
        8,
    );
    for unit in [TimeUnit::Microsecond, TimeUnit::Nanosecond] {
        let data_type = DataType::Time64(unit);
        assert!(rt; are_written(alloc, data_type, &values, PhysicalType::Int64, wanted)?);
    }
    Ok(())
}

// 2^64 - 1, null and 1.
#[test]
fn wide_numbers_without_a_sign(rt: HostRuntime) -> Result<()> {
    let alloc = rt.alloc();
    let values = [18_446_744_073_709_551_615u64, 9, 1];
    let wanted = descending(
        b"\xff\xff\xff\xff\xff\xff\xff\xff\x01\x00\x00\x00\x00\x00\x00\x00",
        8,
    );
    assert!(rt;
        are_written(
            alloc,
            DataType::UInt64,
            &values,
            PhysicalType::Int64,
            wanted
        )?
    );
    Ok(())
}

// Whether `ab`, null and `a` are written so, each behind its length. The front of a string goes before it.
fn is_string(alloc: Global, array: ArrayBox) -> Result<bool> {
    let wanted = Wanted {
        plain: b"\x02\x00\x00\x00ab\x01\x00\x00\x00a",
        least: b"a",
        greatest: b"ab",
    };
    is_written(alloc, &array, PhysicalType::ByteArray, wanted)
}

#[test]
fn texts_and_byte_strings(rt: HostRuntime) -> Result<()> {
    let alloc = rt.alloc();
    assert!(rt; is_string(alloc, ArrayBox::Utf8(texts(alloc)?))?);
    assert!(rt; is_string(alloc, ArrayBox::LargeUtf8(large_texts(alloc)?))?);
    assert!(rt; is_string(alloc, ArrayBox::Binary(strings(alloc)?))?);
    assert!(rt; is_string(alloc, ArrayBox::LargeBinary(large_strings(alloc)?))?);
    Ok(())
}

#[test]
fn byte_strings_of_one_size(rt: HostRuntime) -> Result<()> {
    let alloc = rt.alloc();
    let array = ArrayBox::FixedSizeBinary(pairs(alloc, b"cd..ab")?);
    let physical_type = PhysicalType::FixedLenByteArray(2);
    assert!(rt; is_flat_alone(alloc, &array, physical_type, descending(b"cdab", 2))?);
    Ok(())
}

// Whether 2.56, null and -0.01 are written so.
fn are_decimals(alloc: Global, physical_type: PhysicalType, plain: &[u8]) -> Result<bool> {
    let wanted = descending(plain, plain.len() / 2);
    let data_type = DataType::Decimal(9, 2);
    are_written_flat(alloc, data_type, &[256i128, 9, -1], physical_type, wanted)
}

// As numbers the lowest byte first, as byte strings the highest.
#[test]
fn decimals(rt: HostRuntime) -> Result<()> {
    let alloc = rt.alloc();
    let int32 = b"\x00\x01\x00\x00\xff\xff\xff\xff";
    let int64 = b"\x00\x01\x00\x00\x00\x00\x00\x00\xff\xff\xff\xff\xff\xff\xff\xff";
    let bytes = b"\x00\x01\x00\xff\xff\xff";
    assert!(rt; are_decimals(alloc, PhysicalType::Int32, int32)?);
    assert!(rt; are_decimals(alloc, PhysicalType::Int64, int64)?);
    assert!(rt; are_decimals(alloc, PhysicalType::FixedLenByteArray(3), bytes)?);
    Ok(())
}

// Whether an interval, null and another are written so: months, days and milliseconds, each in four bytes.
fn are_intervals<T: NativeArray>(
    alloc: Global,
    unit: IntervalUnit,
    values: &[T],
    plain: &[u8],
) -> Result<bool> {
    let physical_type = PhysicalType::FixedLenByteArray(12);
    let wanted = without_order(plain);
    are_written_flat(
        alloc,
        DataType::Interval(unit),
        values,
        physical_type,
        wanted,
    )
}

#[test]
fn intervals(rt: HostRuntime) -> Result<()> {
    let alloc = rt.alloc();
    let of_months =
        b"\x0e\x00\x00\x00\x00\x00\x00\x00\x00\x00\x00\x00\xff\xff\xff\xff\x00\x00\x00\x00\x00\x00\x00\x00";
    let two_days = DaysMs {
        days: 2,
        milliseconds: -1,
    };
    let of_days =
        b"\x00\x00\x00\x00\x02\x00\x00\x00\xff\xff\xff\xff\x00\x00\x00\x00\x02\x00\x00\x00\xff\xff\xff\xff";
    let days = [two_days, two_days, two_days];
    assert!(rt; are_intervals(alloc, IntervalUnit::YearMonth, &[14i32, 9, -1], of_months)?);
    assert!(rt; are_intervals(alloc, IntervalUnit::DayTime, &days, of_days)?);
    Ok(())
}
