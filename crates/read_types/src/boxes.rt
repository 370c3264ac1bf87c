//! Arrays of one kind of numbers as arrays of any.
ghost use Rattle.std.specs.Prelude.{◌≡◌, Some, true, length, map, IfOk, IfErr};
ghost use Rattle.columns_base.specs.declared.error.Error.TheVariants.{Memory};
ghost use Rattle.columns_core.specs.Natives.{stores_i8, stores_i16, stores_i32, stores_i64, stores_i128, stores_days, stores_u8, stores_u16, stores_u32, stores_u64, value_i8, value_i16, value_i32, value_i64, value_i128, value_days, value_u8, value_u16, value_u32, value_u64};
ghost use Rattle.columns_core.specs.Shapes.{base};
ghost use Rattle.columns_core.specs.View.{type_view};
ghost use Rattle.columns_array.specs.Boxed.{boxed};
ghost use Rattle.read_types.specs.Arrays.{masked_leaf};

use columns_array::ArrayBox;
use columns_base::{Error, Result};
use columns_core::{Bitmap, DataType, DaysMs, NativeType};
use columns_leaf::PrimitiveArray;
use std::alloc::Global;

// Numbers and which of them are there, as an array of their kind.
fn primitive_array<T: NativeType>(
    alloc: Global,
    data_type: DataType,
    numbers: Vec<T>,
    validity: Bitmap,
) -> Result<PrimitiveArray<T>>
    requires mask { length validity ≡ length numbers.items }
    requires typed { T.stores (base (type_view data_type)) ≡ true }
    ensures ok { IfOk result (λ a. a ≡ (type_view data_type, (numbers.items, Some validity))) }
    ensures err { IfErr result (λ e. e ≡ Memory) }
{
    match PrimitiveArray::try_new(alloc, data_type, numbers, Some(validity)) {
        Ok(array) => Ok(array),
        Err(error) => Err(error),
    }
}

/// A number whose arrays are a variant of `ArrayBox`.
pub trait NumberBox: NativeType {
    /// The array of numbers, and of which of them are there.
    ///
    /// # Errors
    ///
    /// `Memory`.
    fn array(
        alloc: Global,
        data_type: DataType,
        numbers: Vec<Self>,
        validity: Bitmap,
    ) -> Result<ArrayBox>
        requires mask { length validity ≡ length numbers.items }
        requires typed { Self.stores (base (type_view data_type)) ≡ true }
        ensures ok { IfOk result (λ a. boxed a ≡ masked_leaf (type_view data_type)
            (map (Self.value (base (type_view data_type))) numbers.items) validity) }
        ensures err { IfErr result (λ e. e ≡ Memory) };
}

impl NumberBox for i8 {
    fn array(
        alloc: Global,
        data_type: DataType,
        numbers: Vec<i8>,
        validity: Bitmap,
    ) -> Result<ArrayBox>
        requires mask { length validity ≡ length numbers.items }
        requires typed { stores_i8 (base (type_view data_type)) ≡ true }
        ensures ok { IfOk result (λ a. boxed a ≡ masked_leaf (type_view data_type)
            (map (value_i8 (base (type_view data_type))) numbers.items) validity) }
        ensures err { IfErr result (λ e. e ≡ Memory) }
    {
        match primitive_array(alloc, data_type, numbers, validity) {
            Ok(array) => Ok(ArrayBox::Int8(array)),
            Err(error) => Err(error),
        }
    }
}

impl NumberBox for i16 {
    fn array(
        alloc: Global,
        data_type: DataType,
        numbers: Vec<i16>,
        validity: Bitmap,
    ) -> Result<ArrayBox>
        requires mask { length validity ≡ length numbers.items }
        requires typed { stores_i16 (base (type_view data_type)) ≡ true }
        ensures ok { IfOk result (λ a. boxed a ≡ masked_leaf (type_view data_type)
            (map (value_i16 (base (type_view data_type))) numbers.items) validity) }
        ensures err { IfErr result (λ e. e ≡ Memory) }
    {
        match primitive_array(alloc, data_type, numbers, validity) {
            Ok(array) => Ok(ArrayBox::Int16(array)),
            Err(error) => Err(error),
        }
    }
}

impl NumberBox for i32 {
    fn array(
        alloc: Global,
        data_type: DataType,
        numbers: Vec<i32>,
        validity: Bitmap,
    ) -> Result<ArrayBox>
        requires mask { length validity ≡ length numbers.items }
        requires typed { stores_i32 (base (type_view data_type)) ≡ true }
        ensures ok { IfOk result (λ a. boxed a ≡ masked_leaf (type_view data_type)
            (map (value_i32 (base (type_view data_type))) numbers.items) validity) }
        ensures err { IfErr result (λ e. e ≡ Memory) }
    {
        match primitive_array(alloc, data_type, numbers, validity) {
            Ok(array) => Ok(ArrayBox::Int32(array)),
            Err(error) => Err(error),
        }
    }
}

impl NumberBox for i64 {
    fn array(
        alloc: Global,
        data_type: DataType,
        numbers: Vec<i64>,
        validity: Bitmap,
    ) -> Result<ArrayBox>
        requires mask { length validity ≡ length numbers.items }
        requires typed { stores_i64 (base (type_view data_type)) ≡ true }
        ensures ok { IfOk result (λ a. boxed a ≡ masked_leaf (type_view data_type)
            (map (value_i64 (base (type_view data_type))) numbers.items) validity) }
        ensures err { IfErr result (λ e. e ≡ Memory) }
    {
        match primitive_array(alloc, data_type, numbers, validity) {
            Ok(array) => Ok(ArrayBox::Int64(array)),
            Err(error) => Err(error),
        }
    }
}

impl NumberBox for i128 {
    fn array(
        alloc: Global,
        data_type: DataType,
        numbers: Vec<i128>,
        validity: Bitmap,
    ) -> Result<ArrayBox>
        requires mask { length validity ≡ length numbers.items }
        requires typed { stores_i128 (base (type_view data_type)) ≡ true }
        ensures ok { IfOk result (λ a. boxed a ≡ masked_leaf (type_view data_type)
            (map (value_i128 (base (type_view data_type))) numbers.items) validity) }
        ensures err { IfErr result (λ e. e ≡ Memory) }
    {
        match primitive_array(alloc, data_type, numbers, validity) {
            Ok(array) => Ok(ArrayBox::Int128(array)),
            Err(error) => Err(error),
        }
    }
}

impl NumberBox for u8 {
    fn array(
        alloc: Global,
        data_type: DataType,
        numbers: Vec<u8>,
        validity: Bitmap,
    ) -> Result<ArrayBox>
        requires mask { length validity ≡ length numbers.items }
        requires typed { stores_u8 (base (type_view data_type)) ≡ true }
        ensures ok { IfOk result (λ a. boxed a ≡ masked_leaf (type_view data_type)
            (map (value_u8 (base (type_view data_type))) numbers.items) validity) }
        ensures err { IfErr result (λ e. e ≡ Memory) }
    {
        match primitive_array(alloc, data_type, numbers, validity) {
            Ok(array) => Ok(ArrayBox::UInt8(array)),
            Err(error) => Err(error),
        }
    }
}

impl NumberBox for u16 {
    fn array(
        alloc: Global,
        data_type: DataType,
        numbers: Vec<u16>,
        validity: Bitmap,
    ) -> Result<ArrayBox>
        requires mask { length validity ≡ length numbers.items }
        requires typed { stores_u16 (base (type_view data_type)) ≡ true }
        ensures ok { IfOk result (λ a. boxed a ≡ masked_leaf (type_view data_type)
            (map (value_u16 (base (type_view data_type))) numbers.items) validity) }
        ensures err { IfErr result (λ e. e ≡ Memory) }
    {
        match primitive_array(alloc, data_type, numbers, validity) {
            Ok(array) => Ok(ArrayBox::UInt16(array)),
            Err(error) => Err(error),
        }
    }
}

impl NumberBox for u32 {
    fn array(
        alloc: Global,
        data_type: DataType,
        numbers: Vec<u32>,
        validity: Bitmap,
    ) -> Result<ArrayBox>
        requires mask { length validity ≡ length numbers.items }
        requires typed { stores_u32 (base (type_view data_type)) ≡ true }
        ensures ok { IfOk result (λ a. boxed a ≡ masked_leaf (type_view data_type)
            (map (value_u32 (base (type_view data_type))) numbers.items) validity) }
        ensures err { IfErr result (λ e. e ≡ Memory) }
    {
        match primitive_array(alloc, data_type, numbers, validity) {
            Ok(array) => Ok(ArrayBox::UInt32(array)),
            Err(error) => Err(error),
        }
    }
}

impl NumberBox for u64 {
    fn array(
        alloc: Global,
        data_type: DataType,
        numbers: Vec<u64>,
        validity: Bitmap,
    ) -> Result<ArrayBox>
        requires mask { length validity ≡ length numbers.items }
        requires typed { stores_u64 (base (type_view data_type)) ≡ true }
        ensures ok { IfOk result (λ a. boxed a ≡ masked_leaf (type_view data_type)
            (map (value_u64 (base (type_view data_type))) numbers.items) validity) }
        ensures err { IfErr result (λ e. e ≡ Memory) }
    {
        match primitive_array(alloc, data_type, numbers, validity) {
            Ok(array) => Ok(ArrayBox::UInt64(array)),
            Err(error) => Err(error),
        }
    }
}

impl NumberBox for DaysMs {
    fn array(
        alloc: Global,
        data_type: DataType,
        numbers: Vec<DaysMs>,
        validity: Bitmap,
    ) -> Result<ArrayBox>
        requires mask { length validity ≡ length numbers.items }
        requires typed { stores_days (base (type_view data_type)) ≡ true }
        ensures ok { IfOk result (λ a. boxed a ≡ masked_leaf (type_view data_type)
            (map (value_days (base (type_view data_type))) numbers.items) validity) }
        ensures err { IfErr result (λ e. e ≡ Memory) }
    {
        match primitive_array(alloc, data_type, numbers, validity) {
            Ok(array) => Ok(ArrayBox::DaysMs(array)),
            Err(error) => Err(error),
        }
    }
}
