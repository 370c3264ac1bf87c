//! Orders and statistics, each at concrete types.
use columns_base::{PhysicalType, Result};
use columns_core::{Bitmap, DataType, NativeType};
use columns_leaf::PrimitiveArray;
use pq_tree::{FieldInfo, PrimitiveStatistics, PrimitiveType, Repetition};
use std::alloc::Global;
use std::cmp::Ordering;
use std::test::Fail;
use write_statistics::{build_statistics, ord_binary};

type TestResult = std::result::Result<(), Fail>;

/// The bytes of two strings, and how the first stands to the second.
const ORDERS: [(&[u8], &[u8], Ordering); 7] = [
    (b"", b"", Ordering::Equal),
    (b"", b"a", Ordering::Less),
    (b"ab", b"a", Ordering::Greater),
    (b"a", b"b", Ordering::Less),
    (b"\x7f", b"\x80", Ordering::Less),
    (b"\xff", b"\x00\xff", Ordering::Greater),
    (b"b", b"az", Ordering::Greater),
];

fn are_ordered() -> bool {
    for (a, b, order) in &ORDERS {
        if ord_binary(a, b) != *order {
            return false;
        }
    }
    true
}

#[test]
fn byte_strings_are_ordered_by_bytes_without_a_sign(rt: HostRuntime) -> TestResult {
    assert!(rt; are_ordered());
    Ok(())
}

fn leaf(alloc: Global, physical_type: PhysicalType) -> Result<PrimitiveType> {
    Ok(PrimitiveType {
        field_info: FieldInfo {
            name: String::from_str(alloc, "x")?,
            repetition: Repetition::Optional,
            id: None,
        },
        logical_type: None,
        converted_type: None,
        physical_type,
    })
}

/// Four numbers, null where one is not there.
fn numbers<T: NativeType>(
    alloc: Global,
    data_type: DataType,
    values: [T; 4],
    there: [bool; 4],
) -> Result<PrimitiveArray<T>> {
    let validity = Bitmap::from_slice(alloc, &there)?;
    PrimitiveArray::try_new(
        alloc,
        data_type,
        Vec::from_array(alloc, values)?,
        Some(validity),
    )
}

fn are_stated<P: PartialEq + Copy + Drop>(
    statistics: &PrimitiveStatistics<P>,
    nulls: i64,
    least: Option<P>,
    greatest: Option<P>,
) -> bool {
    statistics.null_count == Some(nulls)
        && statistics.min_value == least
        && statistics.max_value == greatest
}

/// By the number, where nulls are passed over: -7 is the least, and the null's -9 is not.
fn signed_are_stated(alloc: Global) -> Result<bool> {
    let values = [5i64, -9, -7, 5];
    let array = numbers(alloc, DataType::Int64, values, [true, false, true, true])?;
    let made = build_statistics::<i64, i64>(&array, leaf(alloc, PhysicalType::Int64)?);
    Ok(are_stated(&made, 1, Some(-7), Some(5)))
}

/// By the number without a sign, as it is stored: 2^31 + 1 is the greatest, and its bits are those of -2,147,483,647.
fn unsigned_are_stated(alloc: Global) -> Result<bool> {
    let values = [3u32, 0x8000_0001, 7, 3];
    let array = numbers(alloc, DataType::UInt32, values, [true, true, true, false])?;
    let made = build_statistics::<u32, i32>(&array, leaf(alloc, PhysicalType::Int32)?);
    Ok(are_stated(&made, 1, Some(3), Some(-2_147_483_647)))
}

fn nothing_is_stated_of_nulls(alloc: Global) -> Result<bool> {
    let array = numbers(alloc, DataType::Int64, [1i64, 2, 3, 4], [false; 4])?;
    let made = build_statistics::<i64, i64>(&array, leaf(alloc, PhysicalType::Int64)?);
    Ok(are_stated(&made, 4, None, None))
}

#[test]
fn least_and_greatest_present_numbers_are_stated(rt: HostRuntime) -> TestResult {
    let alloc = rt.alloc();
    assert!(rt; signed_are_stated(alloc)?);
    assert!(rt; unsigned_are_stated(alloc)?);
    assert!(rt; nothing_is_stated_of_nulls(alloc)?);
    Ok(())
}
