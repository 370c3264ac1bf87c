//! Pages of the leaf types by hand: their bytes, their nulls, and what is refused (Parquet format, "Types", LogicalTypes; Encodings, "Plain").
use crate::one_column::{are, optional, pages};
use columns_array::ArrayBox;
use columns_base::{A, Error, N, PhysicalType, Result};
use columns_core::{Bitmap, DataType, DaysMs, IntervalUnit};
use columns_leaf::{FixedSizeBinaryArray, PrimitiveArray};
use levels::Nested;
use pq_tree::Repetition;
use std::alloc::Global;

// The path of a required leaf.
fn required(alloc: Global, rows: usize) -> Result<Vec<Nested>> {
    let mut path = Vec::new(alloc);
    path.push(Nested::Primitive(None, false, rows))?;
    Ok(path)
}

// The path of an optional leaf without nulls in a required struct.
fn in_struct(alloc: Global, rows: usize) -> Result<Vec<Nested>> {
    let mut path = Vec::new(alloc);
    path.push(Nested::Struct(None, false, rows))?;
    path.push(Nested::Primitive(None, true, rows))?;
    Ok(path)
}

fn fixed(alloc: Global, width: usize, bytes: &[u8], there: &[bool]) -> Result<ArrayBox> {
    let values = bytes.to_vec(alloc)?;
    let mask = Bitmap::from_slice(alloc, there)?;
    let array = FixedSizeBinaryArray::try_new(
        alloc,
        DataType::FixedSizeBinary(width),
        values,
        Some(mask),
    )?;
    Ok(ArrayBox::FixedSizeBinary(array))
}

#[test]
fn fixed_byte_strings_stand_side_by_side(rt: HostRuntime) -> Result<()> {
    let alloc = rt.alloc();
    let array = fixed(alloc, 2, b"cdab", &[true, true])?;
    let path = required(alloc, 2)?;
    let pages = pages(
        alloc,
        &array,
        Repetition::Required,
        PhysicalType::FixedLenByteArray(2),
        &path,
    )?;
    assert!(rt; are(pages, b"cdab", 0, b"ab", b"cd")?);
    Ok(())
}

// The definition levels 1, 0, 1 are the bits 5 of one group of eight.
#[test]
fn fixed_byte_strings_of_nulls_are_left_out(rt: HostRuntime) -> Result<()> {
    let alloc = rt.alloc();
    let array = fixed(alloc, 2, b"cdxxab", &[true, false, true])?;
    let path = optional(alloc, &[true, false, true])?;
    let pages = pages(
        alloc,
        &array,
        Repetition::Optional,
        PhysicalType::FixedLenByteArray(2),
        &path,
    )?;
    assert!(rt; are(pages, b"\x03\x05cdab", 1, b"ab", b"cd")?);
    Ok(())
}

#[test]
fn fixed_byte_strings_in_structs_are_refused(rt: HostRuntime) -> Result<()> {
    let alloc = rt.alloc();
    let array = fixed(alloc, 2, b"abcd", &[true, true])?;
    let path = in_struct(alloc, 2)?;
    let refused = matches!(
        pages(
            alloc,
            &array,
            Repetition::Optional,
            PhysicalType::FixedLenByteArray(2),
            &path
        ),
        Err(Error::NotYetImplemented(N::N5))
    );
    assert!(rt; refused);
    Ok(())
}

#[test]
fn fixed_byte_strings_of_another_length_misfit(rt: HostRuntime) -> Result<()> {
    let alloc = rt.alloc();
    let array = fixed(alloc, 2, b"abcd", &[true, true])?;
    let path = required(alloc, 2)?;
    let refused = matches!(
        pages(
            alloc,
            &array,
            Repetition::Required,
            PhysicalType::FixedLenByteArray(4),
            &path
        ),
        Err(Error::InvalidArgumentError(A::A8))
    );
    assert!(rt; refused);
    Ok(())
}

// 14 months, and a null.
#[test]
fn intervals_of_months_have_no_bounds(rt: HostRuntime) -> Result<()> {
    let alloc = rt.alloc();
    let values = [14, 7].as_slice().to_vec(alloc)?;
    let mask = Bitmap::from_slice(alloc, &[true, false])?;
    let data_type = DataType::Interval(IntervalUnit::YearMonth);
    let array = ArrayBox::Int32(PrimitiveArray::try_new(alloc, data_type, values, Some(mask))?);
    let path = optional(alloc, &[true, false])?;
    let pages = pages(
        alloc,
        &array,
        Repetition::Optional,
        PhysicalType::FixedLenByteArray(12),
        &path,
    )?;
    let body = b"\x03\x01\x0e\x00\x00\x00\x00\x00\x00\x00\x00\x00\x00\x00";
    assert!(rt; are(pages, body, 1, b"", b"")?);
    Ok(())
}

// 2 days, and a millisecond less than none.
#[test]
fn intervals_of_days_have_no_months(rt: HostRuntime) -> Result<()> {
    let alloc = rt.alloc();
    let values = [DaysMs {
        days: 2,
        milliseconds: -1,
    }]
    .as_slice()
    .to_vec(alloc)?;
    let data_type = DataType::Interval(IntervalUnit::DayTime);
    let array = ArrayBox::DaysMs(PrimitiveArray::try_new(alloc, data_type, values, None)?);
    let path = required(alloc, 1)?;
    let pages = pages(
        alloc,
        &array,
        Repetition::Required,
        PhysicalType::FixedLenByteArray(12),
        &path,
    )?;
    let body = b"\x00\x00\x00\x00\x02\x00\x00\x00\xff\xff\xff\xff";
    assert!(rt; are(pages, body, 0, b"", b"")?);
    Ok(())
}
