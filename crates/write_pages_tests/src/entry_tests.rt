//! The pages of a small dictionary by hand (Parquet format, Encodings, "Plain", "Dictionary Encoding" and "Run Length Encoding / Bit-Packing
//! Hybrid").
use crate::shapes::optional;
use columns_array::{ArrayBox, DictionaryArray};
use columns_base::{A, Error, PhysicalType, Result};
use columns_core::{Bitmap, DataType, IntegerType, OffsetsBuffer, TimeUnit};
use columns_leaf::keys::DictionaryKeys;
use columns_leaf::{PrimitiveArray, Utf8Array};
use dictionary_pages::{
    dictionary_page, dictionary_statistics, index_page, is_entry, reaches_entries,
};
use levels::{Nested, is_well_formed, leaf_len};
use pq_pages::DataPage;
use pq_tree::{Statistics, Version};
use std::alloc::Global;
use write_values::PageForm;

const MISFIT: Error = Error::InvalidArgumentError(A::A8);

const THERE: &[bool] = &[true, true, false, true, true];

const FORM: PageForm = PageForm {
    version: Version::V2,
    with_statistics: true,
    with_deltas: false,
};

fn keys(alloc: Global, numbers: &[i8]) -> Result<DictionaryKeys> {
    let numbers = numbers.to_vec(alloc)?;
    let there = Bitmap::from_slice(alloc, THERE)?;
    let keys = PrimitiveArray::try_new(alloc, DataType::Int8, numbers, Some(there))?;
    Ok(DictionaryKeys::Int8(keys))
}

fn entries(alloc: Global) -> Result<ArrayBox> {
    let offsets = OffsetsBuffer::try_from_vec([0i32, 2, 2, 3].as_slice().to_vec(alloc)?)?;
    let values = b"abc".as_slice().to_vec(alloc)?;
    Ok(ArrayBox::Utf8(Utf8Array::try_new(alloc, DataType::Utf8, offsets, values, None)?))
}

// Of five keys the third is null.
const ALL: &[i8] = &[2, 0, -7, 2, 1];

// The last entry has no key.
const SOME: &[i8] = &[0, 1, -7, 0, 1];

// "ab", "" and "c" by keys. The key beneath the null numbers no entry.
fn some_texts(alloc: Global, numbers: &[i8]) -> Result<DictionaryArray> {
    let data_type = DataType::Dictionary(
        IntegerType::Int8,
        Box::new(alloc, DataType::Utf8)?,
        false,
    );
    DictionaryArray::try_new(alloc, data_type, keys(alloc, numbers)?, entries(alloc)?)
}

fn flat(alloc: Global) -> Result<Vec<Nested>> {
    let mut path = Vec::new(alloc);
    path.push(Nested::Primitive(Some(Bitmap::from_slice(alloc, THERE)?), true, 5))?;
    Ok(path)
}

// The page of keys, where the path reaches entries.
fn page(alloc: Global, array: &DictionaryArray, nested: &[Nested]) -> Result<DataPage> {
    if !is_well_formed(nested) || nested.len() > 128 || leaf_len(nested) != array.len() {
        return Err(MISFIT);
    }
    if !is_entry(array.values().data_type(), PhysicalType::ByteArray) {
        return Err(MISFIT);
    }
    if !reaches_entries(array, nested) {
        return Err(MISFIT);
    }
    index_page(
        alloc,
        array,
        optional(alloc, PhysicalType::ByteArray)?,
        nested,
        FORM,
    )
}

// The statistics of its column, where the path reaches entries.
fn statistics(
    alloc: Global,
    array: &DictionaryArray,
    nested: &[Nested],
) -> Result<Option<Statistics>> {
    if !is_well_formed(nested) || nested.len() > 128 || leaf_len(nested) != array.len() {
        return Err(MISFIT);
    }
    if !is_entry(array.values().data_type(), PhysicalType::ByteArray) {
        return Err(MISFIT);
    }
    if !reaches_entries(array, nested) {
        return Err(MISFIT);
    }
    dictionary_statistics(alloc, array, PhysicalType::ByteArray, nested, true)
}

fn is_bound(bound: &Option<Vec<u8>>, want: &[u8]) -> bool {
    match bound {
        Some(bytes) => bytes.as_slice() == want,
        None => false,
    }
}

// One null; of the entries "" is the least and "c", which has no key, the greatest.
fn are_stated(alloc: Global) -> Result<bool> {
    let array = some_texts(alloc, SOME)?;
    let path = flat(alloc)?;
    match statistics(alloc, &array, &path)? {
        Some(stated) => Ok(
            stated.null_count == Some(1)
                && is_bound(&stated.min_value, b"")
                && is_bound(&stated.max_value, b"c"),
        ),
        None => Ok(false),
    }
}

// The entries plain, each behind its length.
fn are_entries(alloc: Global) -> Result<bool> {
    let page = dictionary_page(alloc, &entries(alloc)?, PhysicalType::ByteArray)?;
    let body = b"\x02\0\0\0ab\0\0\0\0\x01\0\0\0c";
    Ok(page.num_values == 3 && !page.is_sorted && page.buffer.as_slice() == body.as_slice())
}

// Levels 1, 1, 0, 1, 1, and 2, 0, 2, 1 in two bits each.
fn are_keys(alloc: Global) -> Result<bool> {
    let array = some_texts(alloc, ALL)?;
    let path = flat(alloc)?;
    let page = page(alloc, &array, &path)?;
    Ok(page.num_values() == 5 && page.buffer() == b"\x03\x1b\x02\x03\x62\0".as_slice())
}

#[test]
fn entries_stand_plain(rt: HostRuntime) -> Result<()> {
    assert!(rt; are_entries(rt.alloc())?);
    Ok(())
}

#[test]
fn keys_stand_by_their_entries(rt: HostRuntime) -> Result<()> {
    assert!(rt; are_keys(rt.alloc())?);
    Ok(())
}

#[test]
fn statistics_are_of_all_entries(rt: HostRuntime) -> Result<()> {
    assert!(rt; are_stated(rt.alloc())?);
    Ok(())
}

const PAIRS: PhysicalType = PhysicalType::FixedLenByteArray(2);

#[test]
fn types_of_entries(rt: HostRuntime) -> Result<()> {
    let seconds = DataType::Timestamp(TimeUnit::Second, None);
    assert!(rt; is_entry(&seconds, PhysicalType::Int64));
    assert!(rt; is_entry(&DataType::UInt32, PhysicalType::Int32));
    assert!(rt; is_entry(&DataType::UInt32, PhysicalType::Int64));
    assert!(rt; is_entry(&DataType::FixedSizeBinary(2), PAIRS));
    assert!(rt; !is_entry(&DataType::FixedSizeBinary(3), PAIRS));
    assert!(rt; !is_entry(&DataType::Decimal(5, 2), PhysicalType::Int32));
    assert!(rt; !is_entry(&DataType::Null, PhysicalType::Int32));
    Ok(())
}
