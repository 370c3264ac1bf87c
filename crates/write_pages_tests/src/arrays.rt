//! Arrays of three slots, the second of them null.
use crate::shapes::THERE;
use columns_array::ArrayBox;
use columns_base::Result;
use columns_core::{Bitmap, DataType, OffsetsBuffer};
use columns_leaf::{BinaryArray, BooleanArray, FixedSizeBinaryArray, PrimitiveArray, Utf8Array};
use columns_native::NativeArray;
use std::alloc::Global;

fn mask(alloc: Global) -> Result<Option<Bitmap>> {
    Ok(Some(Bitmap::from_slice(alloc, &THERE)?))
}

pub fn truths(alloc: Global, values: &[bool]) -> Result<BooleanArray> {
    let values = Bitmap::from_slice(alloc, values)?;
    BooleanArray::try_new(alloc, DataType::Boolean, values, mask(alloc)?)
}

pub fn numbers<T: NativeArray>(
    alloc: Global,
    data_type: DataType,
    values: &[T],
) -> Result<PrimitiveArray<T>> {
    let values = values.to_vec(alloc)?;
    PrimitiveArray::try_new(alloc, data_type, values, mask(alloc)?)
}

pub fn boxed<T: NativeArray>(alloc: Global, data_type: DataType, values: &[T]) -> Result<ArrayBox> {
    Ok(T::into_box(numbers(alloc, data_type, values)?))
}

// The offsets of `ab`, nothing and `a`.
fn offsets32(alloc: Global) -> Result<OffsetsBuffer<i32>> {
    OffsetsBuffer::try_from_vec([0, 2, 2, 3].as_slice().to_vec(alloc)?)
}

fn offsets64(alloc: Global) -> Result<OffsetsBuffer<i64>> {
    OffsetsBuffer::try_from_vec([0, 2, 2, 3].as_slice().to_vec(alloc)?)
}

fn letters(alloc: Global) -> Result<Vec<u8>> {
    Ok(b"aba".as_slice().to_vec(alloc)?)
}

/// `ab`, null and `a`.
pub fn texts(alloc: Global) -> Result<Utf8Array<i32>> {
    Utf8Array::try_new(
        alloc,
        DataType::Utf8,
        offsets32(alloc)?,
        letters(alloc)?,
        mask(alloc)?,
    )
}

pub fn large_texts(alloc: Global) -> Result<Utf8Array<i64>> {
    Utf8Array::try_new(
        alloc,
        DataType::LargeUtf8,
        offsets64(alloc)?,
        letters(alloc)?,
        mask(alloc)?,
    )
}

pub fn strings(alloc: Global) -> Result<BinaryArray<i32>> {
    BinaryArray::try_new(
        alloc,
        DataType::Binary,
        offsets32(alloc)?,
        letters(alloc)?,
        mask(alloc)?,
    )
}

pub fn large_strings(alloc: Global) -> Result<BinaryArray<i64>> {
    BinaryArray::try_new(
        alloc,
        DataType::LargeBinary,
        offsets64(alloc)?,
        letters(alloc)?,
        mask(alloc)?,
    )
}

/// Byte strings of two bytes each.
pub fn pairs(alloc: Global, bytes: &[u8]) -> Result<FixedSizeBinaryArray> {
    let values = bytes.to_vec(alloc)?;
    FixedSizeBinaryArray::try_new(alloc, DataType::FixedSizeBinary(2), values, mask(alloc)?)
}
