//! The pages of each column, one of its entries and one of their indices, are read as the rows that they were made of (Parquet format, "Dictionary Page";
//! Encodings, "Dictionary Encoding").
use crate::fields::open;
use crate::written_columns::{Column, field_of, rows_of};
use columns_array::{ArrayBox, DictionaryArray};
use columns_base::{Error, N, Result};
use columns_core::{Bitmap, DataType, Field, IntegerType};
use columns_leaf::PrimitiveArray;
use columns_leaf::keys::DictionaryKeys;
use levels::Nested;
use nested_paths::{to_leaves, to_nested, to_parquet_leaves};
use pq_pages::VecPages;
use pq_tree::{CompressionOptions, Encoding, PrimitiveType, Version};
use schema_to_tree::to_parquet_type;
use std::alloc::Global;
use write_pages::{WriteOptions, dictionary};

const OPTIONS: WriteOptions = WriteOptions {
    write_statistics: false,
    version: Version::V2,
    compression: CompressionOptions::Uncompressed,
    data_pagesize_limit: None,
};

// The keys 0, 1 and so on, null where the mask says so.
fn keys(alloc: Global, count: usize, mask: Option<Bitmap>) -> Result<DictionaryKeys> {
    let mut keys = Vec::new(alloc);
    for i in 0..count {
        keys.push(i64::try_from(i).unwrap_or(0))?;
    }
    Ok(DictionaryKeys::Int64(PrimitiveArray::try_new(alloc, DataType::Int64, keys, mask)?))
}

// The same rows, with an entry for each.
fn keyed(alloc: Global, leaf: &ArrayBox) -> Result<DictionaryArray> {
    let mask = match leaf.validity() {
        Some(mask) => Some(mask.clone()?),
        None => None,
    };
    let keys = keys(alloc, leaf.len(), mask)?;
    let entries = Box::new(alloc, leaf.data_type().clone(alloc)?)?;
    let data_type = DataType::Dictionary(IntegerType::Int64, entries, false);
    DictionaryArray::try_new(alloc, data_type, keys, leaf.clone(alloc)?)
}

// Its two pages.
fn pages_of(
    alloc: Global,
    leaf: &ArrayBox,
    type_: PrimitiveType,
    nested: &[Nested],
) -> Result<VecPages> {
    if nested.len() > 128 {
        return Err(Error::NotYetImplemented(N::N7));
    }
    let array = keyed(alloc, leaf)?;
    let mut pages = dictionary::array_to_pages(
        alloc,
        &array,
        type_,
        nested,
        OPTIONS,
        Encoding::RleDictionary,
    )?;
    let mut given = Vec::new(alloc);
    while let Some(page) = pages.next() {
        given.push(page)?;
    }
    Ok(VecPages::new(given))
}

// The pages of the columns of a field's array, and the types of their leaves.
fn columns_of(
    alloc: Global,
    array: &ArrayBox,
    field: &Field,
) -> Result<(Vec<VecPages>, Vec<PrimitiveType>)> {
    if !field.nests_within(128) {
        return Err(Error::NotYetImplemented(N::N7));
    }
    let tree = to_parquet_type(alloc, field)?;
    let paths = to_nested(alloc, array, &tree)?;
    let leaves = to_leaves(alloc, array)?;
    let types = to_parquet_leaves(alloc, tree)?;
    let mut columns = Vec::new(alloc);
    for (i, path) in paths.iter().enumerate() {
        if let (Some(leaf), Some(type_)) = (leaves.get(i), types.get(i)) {
            columns.push(pages_of(alloc, leaf, type_.clone(alloc)?, path)?)?;
        }
    }
    Ok((columns, types))
}

// The array that is read of the pages of its columns is the same, and has as many of them as are said.
fn comes_back(alloc: Global, column: Column, count: usize) -> Result<bool> {
    let array = rows_of(alloc, column)?;
    let field = field_of(alloc, column, array.data_type().clone(alloc)?)?;
    let (columns, types) = columns_of(alloc, &array, &field)?;
    let found = columns.len();
    let mut arrays = open(alloc, columns, types, field, None, array.len())?;
    match arrays.next() {
        Some(read) => Ok(found == count && read?.equal(&array) && arrays.next().is_none()),
        None => Ok(false),
    }
}

#[test]
fn columns_of_entries_come_back(rt: HostRuntime) -> Result<()> {
    let alloc = rt.alloc();
    assert!(rt; comes_back(alloc, Column::Id, 1)?);
    assert!(rt; comes_back(alloc, Column::Name, 1)?);
    assert!(rt; comes_back(alloc, Column::Points, 2)?);
    assert!(rt; comes_back(alloc, Column::Tags, 2)?);
    Ok(())
}
