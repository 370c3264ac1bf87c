//! Pages of decimals by hand: their bytes, their bounds, and what is refused (Parquet format, LogicalTypes, "DECIMAL"; Encodings, "Plain").
use crate::one_column::{self, are, optional};
use columns_array::ArrayBox;
use columns_base::{A, Error, PhysicalType, Result};
use columns_core::{Bitmap, DataType};
use columns_leaf::PrimitiveArray;
use pq_tree::Repetition;
use std::alloc::Global;
use write_pages::PageIter;

// 2^71, one more than nine bytes hold, and the least number that they hold.
const PAST: i128 = 2_361_183_241_434_822_606_848;

const LEAST: i128 = -2_361_183_241_434_822_606_848;

fn decimals(
    alloc: Global,
    precision: usize,
    scale: usize,
    values: &[i128],
    there: &[bool],
) -> Result<ArrayBox> {
    let values = values.to_vec(alloc)?;
    let mask = Bitmap::from_slice(alloc, there)?;
    let data_type = DataType::Decimal(precision, scale);
    Ok(ArrayBox::Int128(PrimitiveArray::try_new(alloc, data_type, values, Some(mask))?))
}

// The pages of an optional column of decimals.
fn pages(
    alloc: Global,
    array: &ArrayBox,
    there: &[bool],
    physical_type: PhysicalType,
) -> Result<PageIter> {
    let path = optional(alloc, there)?;
    one_column::pages(alloc, array, Repetition::Optional, physical_type, &path)
}

// 123.45 and -3.00, the lowest byte first, and between them a null whose number does not count.
#[test]
fn decimals_as_numbers(rt: HostRuntime) -> Result<()> {
    let alloc = rt.alloc();
    let there = [true, false, true];
    let values = [12345, PAST, -300];
    let array = decimals(alloc, 9, 2, &values, &there)?;
    let pages = pages(alloc, &array, &there, PhysicalType::Int32)?;
    let body = b"\x03\x05\x39\x30\x00\x00\xd4\xfe\xff\xff";
    assert!(rt; are(pages, body, 1, b"\xd4\xfe\xff\xff", b"\x39\x30\x00\x00")?);
    Ok(())
}

// The greatest and the least number of nine bytes, the highest byte first, and -2. The order is that of numbers with a sign.
#[test]
fn decimals_as_byte_strings(rt: HostRuntime) -> Result<()> {
    let alloc = rt.alloc();
    let there = [true, true, true];
    let values = [PAST - 1, LEAST, -2];
    let array = decimals(alloc, 19, 0, &values, &there)?;
    let pages = pages(alloc, &array, &there, PhysicalType::FixedLenByteArray(9))?;
    let body =
        b"\x03\x07\x7f\xff\xff\xff\xff\xff\xff\xff\xff\x80\x00\x00\x00\x00\x00\x00\x00\x00\xff\xff\xff\xff\xff\xff\xff\xff\xfe";
    let least = b"\x80\x00\x00\x00\x00\x00\x00\x00\x00";
    let greatest = b"\x7f\xff\xff\xff\xff\xff\xff\xff\xff";
    assert!(rt; are(pages, body, 0, least, greatest)?);
    Ok(())
}

#[test]
fn decimals_past_their_bytes_are_refused(rt: HostRuntime) -> Result<()> {
    let alloc = rt.alloc();
    let there = [true];
    let values = [PAST];
    let array = decimals(alloc, 19, 0, &values, &there)?;
    let refused = matches!(
        pages(alloc, &array, &there, PhysicalType::FixedLenByteArray(9)),
        Err(Error::InvalidArgumentError(A::A7))
    );
    assert!(rt; refused);
    Ok(())
}
