//! An array of each kind, with three positions of which the second is null.
use columns_array::{
    ArrayBox, DictionaryArray, FixedSizeListArray, LargeListArray, ListArray, MapArray, StructArray,
};
use columns_base::Result;
use columns_core::{
    Bitmap, DataType, DaysMs, Field, IntegerType, IntervalUnit, Metadata, NativeType, Offset,
    OffsetsBuffer,
};
use columns_leaf::{
    BinaryArray, BooleanArray, DictionaryKeys, FixedSizeBinaryArray, NullArray, PrimitiveArray,
    Utf8Array,
};
use std::alloc::Global;

/// A field that may be null.
pub fn field(alloc: Global, data_type: DataType) -> Result<Field> {
    Ok(Field {
        name: String::from_str(alloc, "item")?,
        data_type,
        is_nullable: true,
        metadata: Metadata::new(alloc),
    })
}

fn item(alloc: Global, data_type: DataType) -> Result<Box<Field>> {
    let field = field(alloc, data_type)?;
    Ok(Box::new(alloc, field)?)
}

/// The second of three is null.
fn second_null(alloc: Global) -> Result<Option<Bitmap>> {
    Bitmap::from_slice(alloc, &[true, false, true]).map(Some)
}

fn places<O: Offset>(alloc: Global, offsets: [O; 4]) -> Result<OffsetsBuffer<O>> {
    OffsetsBuffer::try_from_vec(Vec::from_array(alloc, offsets)?)
}

pub fn nulls(alloc: Global) -> Result<ArrayBox> {
    Ok(ArrayBox::Null(NullArray::try_new(alloc, DataType::Null, 3)?))
}

pub fn truth_values(alloc: Global) -> Result<ArrayBox> {
    let values = Bitmap::from_slice(alloc, &[true, true, false])?;
    Ok(ArrayBox::Boolean(BooleanArray::try_new(
        alloc,
        DataType::Boolean,
        values,
        second_null(alloc)?,
    )?))
}

pub fn numbers<T: NativeType>(
    alloc: Global,
    data_type: DataType,
    values: [T; 3],
) -> Result<PrimitiveArray<T>> {
    let values = Vec::from_array(alloc, values)?;
    PrimitiveArray::try_new(alloc, data_type, values, second_null(alloc)?)
}

pub fn int8(alloc: Global) -> Result<ArrayBox> {
    Ok(ArrayBox::Int8(numbers(alloc, DataType::Int8, [-128i8, 0, 127])?))
}

pub fn int16(alloc: Global) -> Result<ArrayBox> {
    Ok(ArrayBox::Int16(numbers(alloc, DataType::Int16, [-1i16, 0, 300])?))
}

pub fn int32(alloc: Global) -> Result<ArrayBox> {
    Ok(ArrayBox::Int32(numbers(alloc, DataType::Int32, [-1i32, 0, 70_000])?))
}

pub fn int64(alloc: Global) -> Result<ArrayBox> {
    Ok(ArrayBox::Int64(numbers(alloc, DataType::Int64, [-1i64, 0, 1])?))
}

pub fn decimals(alloc: Global) -> Result<ArrayBox> {
    Ok(ArrayBox::Int128(numbers(alloc, DataType::Decimal(38, 2), [-1i128, 0, 1])?))
}

pub fn uint8(alloc: Global) -> Result<ArrayBox> {
    Ok(ArrayBox::UInt8(numbers(alloc, DataType::UInt8, [255u8, 0, 1])?))
}

pub fn uint16(alloc: Global) -> Result<ArrayBox> {
    Ok(ArrayBox::UInt16(numbers(alloc, DataType::UInt16, [65_535u16, 0, 1])?))
}

pub fn uint32(alloc: Global) -> Result<ArrayBox> {
    Ok(ArrayBox::UInt32(numbers(alloc, DataType::UInt32, [4_294_967_295u32, 0, 1])?))
}

pub fn uint64(alloc: Global) -> Result<ArrayBox> {
    Ok(ArrayBox::UInt64(numbers(
        alloc,
        DataType::UInt64,
        [18_446_744_073_709_551_615u64, 0, 1],
    )?))
}

fn days(count: i32) -> DaysMs {
    DaysMs {
        days: count,
        milliseconds: 1,
    }
}

pub fn intervals(alloc: Global) -> Result<ArrayBox> {
    let data_type = DataType::Interval(IntervalUnit::DayTime);
    Ok(ArrayBox::DaysMs(numbers(alloc, data_type, [days(1), days(0), days(-1)])?))
}

fn letters(alloc: Global) -> Result<Vec<u8>> {
    Ok(Vec::from_array(alloc, *b"abcde")?)
}

pub fn texts_of<O: Offset>(
    alloc: Global,
    data_type: DataType,
    offsets: [O; 4],
) -> Result<Utf8Array<O>> {
    let offsets = places(alloc, offsets)?;
    let values = letters(alloc)?;
    Utf8Array::try_new(alloc, data_type, offsets, values, second_null(alloc)?)
}

pub fn strings_of<O: Offset>(
    alloc: Global,
    data_type: DataType,
    offsets: [O; 4],
) -> Result<BinaryArray<O>> {
    let offsets = places(alloc, offsets)?;
    let values = letters(alloc)?;
    BinaryArray::try_new(alloc, data_type, offsets, values, second_null(alloc)?)
}

pub fn texts(alloc: Global) -> Result<ArrayBox> {
    Ok(ArrayBox::Utf8(texts_of(alloc, DataType::Utf8, [0i32, 1, 3, 4])?))
}

pub fn large_texts(alloc: Global) -> Result<ArrayBox> {
    Ok(ArrayBox::LargeUtf8(texts_of(alloc, DataType::LargeUtf8, [0i64, 1, 3, 4])?))
}

pub fn strings(alloc: Global) -> Result<ArrayBox> {
    Ok(ArrayBox::Binary(strings_of(alloc, DataType::Binary, [0i32, 1, 3, 4])?))
}

pub fn large_strings(alloc: Global) -> Result<ArrayBox> {
    Ok(ArrayBox::LargeBinary(strings_of(alloc, DataType::LargeBinary, [0i64, 1, 3, 4])?))
}

pub fn fixed_strings(alloc: Global) -> Result<ArrayBox> {
    let values = Vec::from_array(alloc, *b"abcdef")?;
    Ok(ArrayBox::FixedSizeBinary(FixedSizeBinaryArray::try_new(
        alloc,
        DataType::FixedSizeBinary(2),
        values,
        second_null(alloc)?,
    )?))
}

/// The keys 2, 0 (null) and 1 over the three numbers, the second of which is null.
pub fn dictionary(alloc: Global) -> Result<ArrayBox> {
    let keys = DictionaryKeys::UInt8(numbers(alloc, DataType::UInt8, [2u8, 0, 0])?);
    let entries = int32(alloc)?;
    let value_type = Box::new(alloc, DataType::Int32)?;
    let data_type = DataType::Dictionary(IntegerType::UInt8, value_type, false);
    Ok(ArrayBox::Dictionary(DictionaryArray::try_new(alloc, data_type, keys, entries)?))
}

/// [-1], null and [null, 70,000].
pub fn lists(alloc: Global) -> Result<ArrayBox> {
    let data_type = DataType::List(item(alloc, DataType::Int32)?);
    let offsets = places(alloc, [0, 1, 1, 3])?;
    let items = int32(alloc)?;
    Ok(ArrayBox::List(ListArray::try_new(alloc, data_type, offsets, items, second_null(alloc)?)?))
}

pub fn large_lists(alloc: Global) -> Result<ArrayBox> {
    let data_type = DataType::LargeList(item(alloc, DataType::Int32)?);
    let offsets = places(alloc, [0, 1, 1, 3])?;
    let items = int32(alloc)?;
    Ok(ArrayBox::LargeList(LargeListArray::try_new(
        alloc,
        data_type,
        offsets,
        items,
        second_null(alloc)?,
    )?))
}

/// The same as a map, whose entries may be of any type.
pub fn maps(alloc: Global) -> Result<ArrayBox> {
    let data_type = DataType::Map(item(alloc, DataType::Int32)?, false);
    let offsets = places(alloc, [0, 1, 1, 3])?;
    let entries = int32(alloc)?;
    Ok(ArrayBox::Map(MapArray::try_new(alloc, data_type, offsets, entries, second_null(alloc)?)?))
}

pub fn singles(alloc: Global) -> Result<ArrayBox> {
    let data_type = DataType::FixedSizeList(item(alloc, DataType::Int32)?, 1);
    let items = int32(alloc)?;
    Ok(ArrayBox::FixedSizeList(FixedSizeListArray::try_new(
        alloc,
        data_type,
        items,
        second_null(alloc)?,
    )?))
}

pub fn structs(alloc: Global) -> Result<ArrayBox> {
    let mut fields = Vec::new(alloc);
    fields.push(field(alloc, DataType::Int32)?)?;
    let mut values = Vec::new(alloc);
    values.push(int32(alloc)?)?;
    Ok(ArrayBox::Struct(StructArray::try_new(
        alloc,
        DataType::Struct(fields),
        values,
        second_null(alloc)?,
    )?))
}
