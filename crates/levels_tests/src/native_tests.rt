//! Numbers and arrays over a type parameter, each call through its bound.
use super::build;
use columns_array::ArrayBox;
use columns_base::{A, Error, Result};
use columns_core::DataType;
use columns_leaf::{BinaryArray, DictionaryKeys, PrimitiveArray, Utf8Array};
use columns_native::{
    AsPrimitive, KeyArray, NativeArray, OffsetArray, OrderedNative, PlainNumber, StoredAs,
};
use std::alloc::Global;
use std::test::Fail;

type TestResult = std::result::Result<(), Fail>;

fn boxed_of<T: NativeArray>(array: PrimitiveArray<T>) -> ArrayBox {
    T::into_box(array)
}

fn keys_of<K: KeyArray>(array: PrimitiveArray<K>) -> DictionaryKeys {
    K::into_keys(array)
}

fn text_of<O: OffsetArray>(array: Utf8Array<O>) -> ArrayBox {
    O::text_box(array)
}

fn strings_of<O: OffsetArray>(array: BinaryArray<O>) -> ArrayBox {
    O::binary_box(array)
}

fn is_number(alloc: Global) -> Result<bool> {
    let array = build::numbers(alloc, DataType::Int16, [7i16, 0, 1])?;
    Ok(matches!(&boxed_of(array), ArrayBox::Int16(_)))
}

fn is_key(alloc: Global) -> Result<bool> {
    let array = build::numbers(alloc, DataType::UInt8, [3u8, 0, 1])?;
    Ok(matches!(&keys_of(array), DictionaryKeys::UInt8(_)))
}

fn is_text(alloc: Global) -> Result<bool> {
    let array = build::texts_of(alloc, DataType::LargeUtf8, [0i64, 1, 3, 4])?;
    Ok(matches!(&text_of(array), ArrayBox::LargeUtf8(_)))
}

fn is_string(alloc: Global) -> Result<bool> {
    let array = build::strings_of(alloc, DataType::Binary, [0i32, 1, 3, 4])?;
    Ok(matches!(&strings_of(array), ArrayBox::Binary(_)))
}

#[test]
fn arrays_go_into_their_variant(rt: HostRuntime) -> TestResult {
    let alloc = rt.alloc();
    assert!(rt; is_number(alloc)? && is_key(alloc)? && is_text(alloc)? && is_string(alloc)?);
    Ok(())
}

fn low_bits<T: AsPrimitive<i32>>(number: T) -> i32 {
    number.as_()
}

/// Two's complement at the ends of the types.
fn bits_are_kept() -> bool {
    low_bits(0x7fff_ffffi64) == i32::MAX
        && low_bits(0x8000_0000i64) == i32::MIN
        && low_bits(0x1_0000_0001i64) == 1
        && low_bits(u32::MAX) == -1
        && low_bits(255u8) == 255
}

fn stored<P: PlainNumber, T: StoredAs<P>>(number: T) -> Result<P> {
    if !number.can_be_stored() {
        return Err(Error::InvalidArgumentError(A::A7));
    }
    Ok(number.to_stored())
}

fn again<P: PlainNumber>(alloc: Global, number: P) -> Result<P> {
    let mut bytes = Vec::new(alloc);
    number.push_le_bytes(&mut bytes)?;
    if bytes.len() != P::width() {
        return Ok(number);
    }
    Ok(P::from_plain(&bytes))
}

fn least<T: OrderedNative>(a: T, b: T) -> T {
    if b.is_less(&a) { b } else { a }
}

fn are_stored(alloc: Global) -> Result<bool> {
    let small: i32 = stored(u32::MAX)?;
    let wide: i64 = stored(u32::MAX)?;
    let decimal: Result<i32> = stored(0x8000_0000i128);
    Ok(
        small == -1
            && wide == 0xffff_ffff
            && decimal.is_err()
            && again(alloc, -2i32)? == -2
            && again(alloc, i64::MIN)? == i64::MIN
            && least(255u8, 1) == 1,
    )
}

#[test]
fn numbers_are_stored_by_their_low_bits(rt: HostRuntime) -> TestResult {
    assert!(rt; bits_are_kept());
    assert!(rt; are_stored(rt.alloc())?);
    Ok(())
}
