//! Arrays of a value, a null and a value, read from plain bytes (Parquet format, Encodings, "Plain").
ghost use Rattle.std.specs.Prelude.{◌≡◌, true};
ghost use Rattle.columns_core.specs.Shapes.{base};
ghost use Rattle.columns_core.specs.View.{type_view};

use columns_array::ArrayBox;
use columns_base::{Error, PhysicalType, Result, S};
use columns_core::{Bitmap, DataType, IntervalUnit, TimeUnit};
use read_leaf::{Bytes, Text};
use read_pieces::{LeafReader, PlainBytes, extend_leaf};
use read_state::{InitNested, init_nested};
use read_types::{LeafArray, LeafKind, Numbers, Strings, Truths};
use read_walk::NestedPage;
use std::alloc::Global;

// A packed run of the definition levels 1, 0, 1.
const DEFS: &[u8] = &[3, 0b0000_0101];

pub(crate) fn three<L: LeafArray>(
    leaf: &L,
    alloc: Global,
    bytes: &[u8],
    data_type: DataType,
) -> Result<ArrayBox>
    requires { L.makes leaf.now (base (type_view data_type)) ≡ true }
{
    let mut nested = init_nested(alloc, &[InitNested::Primitive(true)], 0)?;
    let mut values = leaf.begin(alloc)?;
    let mut page = NestedPage::try_new(&[], 0, DEFS, 1, 3)?;
    let mut bytes = PlainBytes {
        values: bytes,
        bit: 0,
    };
    extend_leaf(leaf, &mut page, &mut bytes, &mut nested, &mut values, 3)?;
    leaf.into_array(alloc, values, data_type)
}

fn makes_small_numbers(alloc: Global) -> Result<bool> {
    let bytes = &[200, 0, 0, 0, 7, 0, 0, 0];
    match three(&Numbers::<u8, i32>::new(), alloc, bytes, DataType::UInt8)? {
        ArrayBox::UInt8(array) => {
            Ok(array.values() == [200, 0, 7].as_slice() && array.null_count() == 1)
        }
        _ => Ok(false),
    }
}

fn makes_wide_numbers(alloc: Global) -> Result<bool> {
    let bytes = &[
        254, 255, 255, 255, 255, 255, 255, 255, 0, 1, 0, 0, 0, 0, 0, 0,
    ];
    match three(
        &Numbers::<i64, i64>::new(),
        alloc,
        bytes,
        DataType::Duration(TimeUnit::Second),
    )? {
        ArrayBox::Int64(array) => {
            Ok(array.values() == [-2, 0, 256].as_slice() && array.null_count() == 1)
        }
        _ => Ok(false),
    }
}

#[test]
fn numbers_are_made(rt: HostRuntime) -> Result<()> {
    assert!(rt; makes_small_numbers(rt.alloc())?);
    assert!(rt; makes_wide_numbers(rt.alloc())?);
    Ok(())
}

// As many bits as places, the lowest for the first.
pub(crate) fn has_bits(bits: &Bitmap, count: usize, want: u64) -> bool {
    bits.len() == count && count <= 64 && bits.word_at(0, count) == want
}

// The stored bits are 0 and 1.
fn makes_truths(alloc: Global) -> Result<bool> {
    match three(&Truths, alloc, &[0b0000_0010], DataType::Boolean)? {
        ArrayBox::Boolean(array) => {
            Ok(has_bits(array.values(), 3, 0b100) && array.null_count() == 1)
        }
        _ => Ok(false),
    }
}

#[test]
fn truths_are_made(rt: HostRuntime) -> Result<()> {
    assert!(rt; makes_truths(rt.alloc())?);
    Ok(())
}

// The truth values of the next rows of a page without levels.
fn next_truths(
    alloc: Global,
    page: &mut NestedPage<'_>,
    bytes: &mut PlainBytes<'_>,
    rows: usize,
) -> Result<Bitmap> {
    let mut nested = init_nested(alloc, &[InitNested::Primitive(false)], 0)?;
    let mut values = Truths.begin(alloc)?;
    extend_leaf(&Truths, page, bytes, &mut nested, &mut values, rows)?;
    values.into_parts().0.into_bitmap()
}

// Of nine bits the first three are 0, 1, 1, and the others 1, 0, 1, 0, 0, 1.
fn reads_pieces(alloc: Global) -> Result<bool> {
    let mut page = NestedPage::try_new(&[], 0, &[], 0, 9)?;
    let mut bytes = PlainBytes {
        values: &[0b0010_1110, 0b0000_0001],
        bit: 0,
    };
    let first = next_truths(alloc, &mut page, &mut bytes, 3)?;
    let others = next_truths(alloc, &mut page, &mut bytes, 6)?;
    Ok(has_bits(&first, 3, 0b110) && has_bits(&others, 6, 0b10_0101))
}

#[test]
fn pieces_go_on_inside_a_byte(rt: HostRuntime) -> Result<()> {
    assert!(rt; reads_pieces(rt.alloc())?);
    Ok(())
}

fn makes_texts(alloc: Global) -> Result<bool> {
    let bytes = &[1, 0, 0, 0, 97, 2, 0, 0, 0, 195, 164];
    match three(
        &Strings::<i64, Text>::new(),
        alloc,
        bytes,
        DataType::LargeUtf8,
    )? {
        ArrayBox::LargeUtf8(array) => Ok(
            array.offsets().buffer() == [0, 1, 1, 3].as_slice()
                && array.values() == [97, 195, 164].as_slice()
                && array.null_count() == 1,
        ),
        _ => Ok(false),
    }
}

fn makes_strings(alloc: Global) -> Result<bool> {
    let bytes = &[1, 0, 0, 0, 255, 0, 0, 0, 0];
    match three(
        &Strings::<i32, Bytes>::new(),
        alloc,
        bytes,
        DataType::Binary,
    )? {
        ArrayBox::Binary(array) => Ok(
            array.offsets().buffer() == [0, 1, 1, 1].as_slice()
                && array.values() == [255].as_slice()
                && array.null_count() == 1,
        ),
        _ => Ok(false),
    }
}

#[test]
fn strings_are_made(rt: HostRuntime) -> Result<()> {
    assert!(rt; makes_texts(rt.alloc())?);
    assert!(rt; makes_strings(rt.alloc())?);
    Ok(())
}

fn has_kind(data_type: DataType, physical_type: PhysicalType, want: Option<LeafKind>) -> bool {
    LeafKind::of(&data_type, physical_type) == want
}

#[test]
fn kinds_are_told(rt: HostRuntime) {
    let int32 = PhysicalType::Int32;
    let int64 = PhysicalType::Int64;
    let bytes = PhysicalType::ByteArray;
    let truth = PhysicalType::Boolean;
    assert!(rt;
        has_kind(DataType::Date32, int32, Some(LeafKind::Int32))
            && has_kind(DataType::UInt32, int64, Some(LeafKind::WideUInt32))
            && has_kind(DataType::Binary, bytes, Some(LeafKind::Binary))
            && has_kind(DataType::Int64, int32, None)
            && has_kind(DataType::Boolean, truth, Some(LeafKind::Boolean))
            && has_kind(DataType::Float32, PhysicalType::Float, None)
            && has_kind(DataType::Null, int32, Some(LeafKind::Null))
    );
}

fn decimals_are(physical_type: PhysicalType, want: Option<LeafKind>) -> bool {
    has_kind(DataType::Decimal(9, 2), physical_type, want)
}

#[test]
fn kinds_of_decimals_are_told(rt: HostRuntime) {
    let nine = PhysicalType::FixedLenByteArray(9);
    assert!(rt;
        decimals_are(PhysicalType::Int32, Some(LeafKind::Decimal))
            && decimals_are(PhysicalType::Int64, Some(LeafKind::WideDecimal))
            && decimals_are(nine, Some(LeafKind::FixedDecimal(9)))
            && decimals_are(PhysicalType::FixedLenByteArray(0), None)
            && decimals_are(PhysicalType::FixedLenByteArray(17), None)
    );
}

fn intervals_are(unit: IntervalUnit, size: usize, want: Option<LeafKind>) -> bool {
    let physical_type = PhysicalType::FixedLenByteArray(size);
    has_kind(DataType::Interval(unit), physical_type, want)
}

#[test]
fn kinds_of_intervals_are_told(rt: HostRuntime) {
    assert!(rt;
        intervals_are(IntervalUnit::YearMonth, 12, Some(LeafKind::Months))
            && intervals_are(IntervalUnit::YearMonth, 8, None)
            && intervals_are(IntervalUnit::MonthDayNano, 12, None)
    );
}
