//! The pages of dictionaries (Parquet format, "Dictionary Page"; Encodings, "Plain" and "Dictionary Encoding"; Arrow columnar format,
//! "Dictionary-encoded Layout").
use crate::shapes::{Shape, THERE, Wanted, ends_so, optional, options, pages_along, required};
use columns_array::{ArrayBox, DictionaryArray};
use columns_base::{A, Error, N, PhysicalType, Result};
use columns_core::{Bitmap, DataType, IntegerType, OffsetsBuffer};
use columns_leaf::keys::DictionaryKeys;
use columns_leaf::{PrimitiveArray, Utf8Array};
use levels::Nested;
use pq_pages::Page;
use pq_tree::{Encoding, Version};
use std::alloc::Global;
use write_pages::{PageIter, array_to_pages, dictionary};

fn mask(alloc: Global, there: &[bool]) -> Result<Option<Bitmap>> {
    if there.is_empty() {
        return Ok(None);
    }
    Ok(Some(Bitmap::from_slice(alloc, there)?))
}

fn keyed(
    alloc: Global,
    keys: &[i32],
    there: &[bool],
    entry_type: DataType,
    entries: ArrayBox,
) -> Result<DictionaryArray> {
    let keys = PrimitiveArray::try_new(
        alloc,
        DataType::Int32,
        keys.to_vec(alloc)?,
        mask(alloc, there)?,
    )?;
    let data_type = DataType::Dictionary(IntegerType::Int32, Box::new(alloc, entry_type)?, false);
    DictionaryArray::try_new(alloc, data_type, DictionaryKeys::Int32(keys), entries)
}

// The texts "a" and "bc" by these keys. What is not there is null.
fn texts(alloc: Global, keys: &[i32], there: &[bool], entries: &[bool]) -> Result<DictionaryArray> {
    let offsets = OffsetsBuffer::<i32>::try_from_vec([0, 1, 3].as_slice().to_vec(alloc)?)?;
    let values = b"abc".as_slice().to_vec(alloc)?;
    let entries = Utf8Array::try_new(
        alloc,
        DataType::Utf8,
        offsets,
        values,
        mask(alloc, entries)?,
    )?;
    keyed(alloc, keys, there, DataType::Utf8, ArrayBox::Utf8(entries))
}

// The numbers 7 and -1 by these keys.
fn numbers(
    alloc: Global,
    keys: &[i32],
    there: &[bool],
    entries: &[bool],
) -> Result<DictionaryArray> {
    let values = [7, -1].as_slice().to_vec(alloc)?;
    let entries = PrimitiveArray::<i32>::try_new(
        alloc,
        DataType::Int32,
        values,
        mask(alloc, entries)?,
    )?;
    keyed(
        alloc,
        keys,
        there,
        DataType::Int32,
        ArrayBox::Int32(entries),
    )
}

// The pages of a column of required texts.
fn pages(alloc: Global, array: &DictionaryArray, encoding: Encoding) -> Result<PageIter> {
    let path = [Nested::Primitive(None, false, array.len())];
    let type_ = required(alloc, PhysicalType::ByteArray)?;
    dictionary::array_to_pages(alloc, array, type_, &path, options(Version::V2), encoding)
}

// Whether the next page is that of so many entries, with this body.
fn has_entries(pages: &mut PageIter, count: usize, body: &[u8]) -> Result<bool> {
    match pages.next_page() {
        Some(Ok(Page::Dict(page))) => {
            Ok(page.buffer.as_slice() == body && page.num_values == count && !page.is_sorted)
        }
        Some(Err(error)) => Err(error),
        _ => Ok(false),
    }
}

// Whether the next page is the last one, of so many pairs, with this body.
fn has_keys(pages: &mut PageIter, pairs: usize, body: &[u8]) -> Result<bool> {
    match pages.next_page() {
        Some(Ok(Page::Data(page))) => Ok(
            page.buffer() == body
                && page.num_values() == pairs
                && page.encoding() == Encoding::RleDictionary
                && pages.next_page().is_none(),
        ),
        Some(Err(error)) => Err(error),
        _ => Ok(false),
    }
}

// The first entry three times: of index 0 alone no bits are written.
#[test]
fn the_page_of_entries_comes_first(rt: HostRuntime) -> Result<()> {
    let alloc = rt.alloc();
    let array = texts(alloc, &[0, 0, 0], &[], &[])?;
    let mut pages = pages(alloc, &array, Encoding::PlainDictionary)?;
    assert!(rt; has_entries(&mut pages, 2, b"\x01\x00\x00\x00a\x02\x00\x00\x00bc")?);
    assert!(rt; has_keys(&mut pages, 3, b"\x00")?);
    Ok(())
}

#[test]
fn no_rows_have_no_page(rt: HostRuntime) -> Result<()> {
    let alloc = rt.alloc();
    let array = texts(alloc, &[], &[], &[])?;
    let mut pages = pages(alloc, &array, Encoding::RleDictionary)?;
    assert!(rt; pages.next_page().is_none());
    Ok(())
}

// Whether the column is refused for this reason.
fn is_refused(pages: Result<PageIter>, reason: Error) -> bool {
    match pages {
        Ok(_) => false,
        Err(error) => error == reason,
    }
}

#[test]
fn keys_are_not_written_plain(rt: HostRuntime) -> Result<()> {
    let alloc = rt.alloc();
    let array = texts(alloc, &[0], &[], &[])?;
    assert!(rt;
        is_refused(
            pages(alloc, &array, Encoding::Plain),
            Error::NotYetImplemented(N::N4)
        )
    );
    Ok(())
}

// A null entry, and a key past the entries beneath a mask that a required leaf does not look at.
#[test]
fn a_required_key_numbers_an_entry(rt: HostRuntime) -> Result<()> {
    let alloc = rt.alloc();
    let misfit = Error::InvalidArgumentError(A::A8);
    let null = texts(alloc, &[1], &[], &[true, false])?;
    assert!(rt; is_refused(pages(alloc, &null, Encoding::RleDictionary), misfit));
    let past = texts(alloc, &[2], &[false], &[])?;
    assert!(rt; is_refused(pages(alloc, &past, Encoding::RleDictionary), misfit));
    Ok(())
}

// The pages of a column with an optional leaf: its entries, and what stands in the data page behind the levels of the shape.
#[derive(Clone, Copy)]
struct Column<'a> {
    entries: &'a [u8],
    wanted: Wanted<'a>,
}

// Two entries, and 0 and 1 in one bit each.
const TEXTS: Column<'static> = Column {
    entries: b"\x01\x00\x00\x00a\x02\x00\x00\x00bc",
    wanted: Wanted {
        plain: b"\x01\x03\x02",
        least: b"a",
        greatest: b"bc",
    },
};

const NUMBERS: Column<'static> = Column {
    entries: b"\x07\x00\x00\x00\xff\xff\xff\xff",
    wanted: Wanted {
        plain: b"\x01\x03\x02",
        least: b"\xff\xff\xff\xff",
        greatest: b"\x07\x00\x00\x00",
    },
};

// Zero in the place of the null entry, and the first one twice, without bits.
const NULL_ENTRY: Column<'static> = Column {
    entries: b"\x07\x00\x00\x00\x00\x00\x00\x00",
    wanted: Wanted {
        plain: b"\x00",
        least: b"\x07\x00\x00\x00",
        greatest: b"\x07\x00\x00\x00",
    },
};

// Whether these are the pages of the column, whose levels are those of the shape.
fn are_pages(
    alloc: Global,
    mut pages: PageIter,
    column: Column<'_>,
    shape: Shape,
    version: Version,
) -> Result<bool> {
    if !has_entries(&mut pages, 2, column.entries)? {
        return Ok(false);
    }
    ends_so(alloc, &mut pages, column.wanted, shape, version)
}

// Whether the keys 0, null and 1 are written so in the shape. The key beneath the null numbers no entry.
fn are_texts(alloc: Global, shape: Shape, version: Version) -> Result<bool> {
    let array = ArrayBox::Dictionary(texts(alloc, &[0, 9, 1], &THERE, &[])?);
    let pages = pages_along(alloc, &array, PhysicalType::ByteArray, shape, version)?;
    are_pages(alloc, pages, TEXTS, shape, version)
}

fn are_numbers(alloc: Global, shape: Shape, version: Version) -> Result<bool> {
    let array = ArrayBox::Dictionary(numbers(alloc, &[0, 9, 1], &THERE, &[])?);
    let pages = pages_along(alloc, &array, PhysicalType::Int32, shape, version)?;
    are_pages(alloc, pages, NUMBERS, shape, version)
}

// The keys 0, 1 and 0, the second of a null entry.
fn is_null_entry(alloc: Global) -> Result<bool> {
    let array = ArrayBox::Dictionary(numbers(alloc, &[0, 1, 0], &[], &[true, false])?);
    let path = [Nested::Primitive(None, true, 3)];
    let type_ = optional(alloc, PhysicalType::Int32)?;
    let options = options(Version::V2);
    let pages = array_to_pages(
        alloc,
        &array,
        type_,
        &path,
        options,
        Encoding::RleDictionary,
    )?;
    are_pages(alloc, pages, NULL_ENTRY, Shape::Flat, Version::V2)
}

#[test]
fn texts_by_keys(rt: HostRuntime) -> Result<()> {
    assert!(rt; are_texts(rt.alloc(), Shape::Flat, Version::V2)?);
    Ok(())
}

#[test]
fn texts_by_keys_in_lists(rt: HostRuntime) -> Result<()> {
    assert!(rt; are_texts(rt.alloc(), Shape::List, Version::V1)?);
    Ok(())
}

#[test]
fn numbers_by_keys(rt: HostRuntime) -> Result<()> {
    assert!(rt; are_numbers(rt.alloc(), Shape::Flat, Version::V1)?);
    Ok(())
}

#[test]
fn numbers_by_keys_in_structs(rt: HostRuntime) -> Result<()> {
    assert!(rt; are_numbers(rt.alloc(), Shape::Struct, Version::V2)?);
    Ok(())
}

#[test]
fn the_key_of_a_null_entry_is_null(rt: HostRuntime) -> Result<()> {
    assert!(rt; is_null_entry(rt.alloc())?);
    Ok(())
}

// Entries of UInt64 are in flat columns alone.
#[test]
fn wide_entries_do_not_nest(rt: HostRuntime) -> Result<()> {
    let alloc = rt.alloc();
    let entries = PrimitiveArray::try_new(
        alloc,
        DataType::UInt64,
        [7u64].as_slice().to_vec(alloc)?,
        None,
    )?;
    let array = keyed(
        alloc,
        &[0],
        &[],
        DataType::UInt64,
        ArrayBox::UInt64(entries),
    )?;
    let path = [
        Nested::Struct(None, false, 1),
        Nested::Primitive(None, false, 1),
    ];
    let type_ = required(alloc, PhysicalType::Int64)?;
    let pages = array_to_pages(
        alloc,
        &ArrayBox::Dictionary(array),
        type_,
        &path,
        options(Version::V1),
        Encoding::RleDictionary,
    );
    assert!(rt; is_refused(pages, Error::NotYetImplemented(N::N5)));
    Ok(())
}
