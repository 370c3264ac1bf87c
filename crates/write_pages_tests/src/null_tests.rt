//! Pages of nulls alone by hand (Arrow columnar format, "Null Layout"; Parquet format, "Data Pages", "Nested Encoding", LogicalTypes, "UNKNOWN"): their
//! levels, no value behind them, and statistics of the number of nulls alone.
use crate::shapes::{leaf, options};
use columns_array::ArrayBox;
use columns_base::{A, Error, PhysicalType, Result, V};
use columns_core::{Bitmap, DataType, OffsetsBuffer};
use columns_leaf::NullArray;
use levels::{ListNested, Nested};
use pq_pages::{DataPage, Page};
use pq_tree::{DataPageHeader, Encoding, Repetition, Statistics, Version};
use std::alloc::Global;
use write_pages::{PageIter, WriteOptions, array_to_pages};

/// Where the nulls stand.
#[derive(Clone, Copy)]
enum Place {
    /// Forty rows.
    Flat,
    /// The rows [null, null, null], null, [] and [null].
    InLists,
    /// A struct with a null, a null struct, and a struct with a null.
    InStructs,
}

/// A page of nulls, and what its header counts.
struct Case {
    place: Place,
    version: Version,
    encoding: Encoding,
    values: i32,
    body: &'static [u8],
}

// Forty levels 0 are a run of copies. Of the lists the repetition levels are 0, 1, 1, 0, 0, 0 and the definition levels 2, 2, 2, 0, 1, 2, of the structs the
// definition levels 1, 0, 1, in groups of eight numbers of one and of two bits. In version 1 the length of each section stands before it.
const CASES: &[Case] = &[
    Case {
        place: Place::Flat,
        version: Version::V1,
        encoding: Encoding::Plain,
        values: 40,
        body: b"\x02\x00\x00\x00\x50\x00",
    },
    Case {
        place: Place::Flat,
        version: Version::V2,
        encoding: Encoding::DeltaBinaryPacked,
        values: 40,
        body: b"\x50\x00",
    },
    Case {
        place: Place::InLists,
        version: Version::V1,
        encoding: Encoding::Plain,
        values: 6,
        body: b"\x02\x00\x00\x00\x03\x06\x03\x00\x00\x00\x03\x2a\x09",
    },
    Case {
        place: Place::InLists,
        version: Version::V2,
        encoding: Encoding::Plain,
        values: 6,
        body: b"\x03\x06\x03\x2a\x09",
    },
    Case {
        place: Place::InStructs,
        version: Version::V1,
        encoding: Encoding::Plain,
        values: 3,
        body: b"\x03\x00\x00\x00\x03\x11\x00",
    },
    Case {
        place: Place::InStructs,
        version: Version::V2,
        encoding: Encoding::Plain,
        values: 3,
        body: b"\x03\x11\x00",
    },
];

// How pages of nulls are written.
fn nulls_by(version: Version, write_statistics: bool) -> WriteOptions {
    WriteOptions {
        write_statistics,
        ..options(version)
    }
}

fn nulls(alloc: Global, count: usize) -> Result<ArrayBox> {
    Ok(ArrayBox::Null(NullArray::try_new(alloc, DataType::Null, count)?))
}

// Lists of these offsets and nulls over a leaf of so many items.
fn lists(
    alloc: Global,
    offsets: &[i32],
    validity: Option<Bitmap>,
    is_optional: bool,
    items: usize,
) -> Result<Vec<Nested>> {
    let offsets = OffsetsBuffer::try_from_vec(offsets.to_vec(alloc)?)?;
    let mut path = Vec::new(alloc);
    path.push(Nested::List(ListNested::new(offsets, validity, true)))?;
    path.push(Nested::Primitive(None, is_optional, items))?;
    Ok(path)
}

// The path to the nulls, and how many there are.
fn path_to(alloc: Global, place: Place) -> Result<(Vec<Nested>, usize)> {
    let mut path = Vec::new(alloc);
    match place {
        Place::Flat => {
            path.push(Nested::Primitive(None, true, 40))?;
            Ok((path, 40))
        }
        Place::InLists => {
            let mask = Bitmap::from_slice(alloc, &[true, false, true, true])?;
            Ok((lists(alloc, &[0, 3, 3, 3, 4], Some(mask), true, 4)?, 4))
        }
        Place::InStructs => {
            let mask = Bitmap::from_slice(alloc, &[true, false, true])?;
            path.push(Nested::Struct(Some(mask), true, 3))?;
            path.push(Nested::Primitive(None, true, 3))?;
            Ok((path, 3))
        }
    }
}

fn pages(
    alloc: Global,
    count: usize,
    path: &[Nested],
    repetition: Repetition,
    options: WriteOptions,
    encoding: Encoding,
) -> Result<PageIter> {
    // a path of a schema is no deeper
    if path.len() > 128 {
        return Err(Error::InvalidArgumentError(A::A8));
    }
    let type_ = leaf(alloc, repetition, PhysicalType::Int32)?;
    array_to_pages(alloc, &nulls(alloc, count)?, type_, path, options, encoding)
}

// Whether so many nulls and no bounds are stated, and nothing where statistics are not wanted.
fn states(stated: &Option<Statistics>, is_wanted: bool, nulls: i64) -> bool {
    match stated {
        Some(stated) => {
            is_wanted
                && stated.null_count == Some(nulls)
                && stated.min_value.is_none()
                && stated.max_value.is_none()
        }
        None => !is_wanted,
    }
}

// Whether the header counts so many pairs, and states that they are nulls.
fn counts(page: &DataPage, is_wanted: bool, values: i32) -> bool {
    match page.header() {
        DataPageHeader::V1(header) => {
            header.num_values == values && states(&header.statistics, is_wanted, values as i64)
        }
        DataPageHeader::V2(header) => {
            header.num_values == values
                && header.num_nulls == Some(values)
                && states(&header.statistics, is_wanted, values as i64)
        }
    }
}

// Whether the only page is that of the case, in PLAIN whatever is asked for.
fn is_written(alloc: Global, case: &Case, is_wanted: bool) -> Result<bool> {
    let (path, count) = path_to(alloc, case.place)?;
    let options = nulls_by(case.version, is_wanted);
    let mut pages = pages(
        alloc,
        count,
        &path,
        Repetition::Optional,
        options,
        case.encoding,
    )?;
    if !states(pages.statistics(), is_wanted, case.values as i64) {
        return Ok(false);
    }
    match pages.next_page() {
        Some(Ok(Page::Data(page))) => Ok(
            page.encoding() == Encoding::Plain
                && page.buffer() == case.body
                && counts(&page, is_wanted, case.values)
                && pages.next_page().is_none(),
        ),
        Some(Err(error)) => Err(error),
        _ => Ok(false),
    }
}

#[test]
fn nulls_alone_are_written(rt: HostRuntime) -> Result<()> {
    for case in CASES {
        assert!(rt; is_written(rt.alloc(), case, false)?);
        assert!(rt; is_written(rt.alloc(), case, true)?);
    }
    Ok(())
}

// Lists of these offsets over required items.
fn required(alloc: Global, offsets: &[i32], items: usize) -> Result<PageIter> {
    let path = lists(alloc, offsets, None, false, items)?;
    let options = options(Version::V2);
    pages(
        alloc,
        items,
        &path,
        Repetition::Required,
        options,
        Encoding::Plain,
    )
}

// An item that is reached would be null, and is not allowed to be. Those behind the last list are not reached.
#[test]
fn required_nulls_are_not_reached(rt: HostRuntime) -> Result<()> {
    let refused = required(rt.alloc(), &[0, 0, 1], 2);
    assert!(rt; refused.is_err_and(|e| e == Error::InvalidArgumentError(A::A8)));
    assert!(rt; required(rt.alloc(), &[0, 0, 0], 2)?.next_page().is_some());
    Ok(())
}

// The pages of so many rows, which all go into one.
fn one_page(alloc: Global, rows: usize) -> Result<PageIter> {
    let mut path = Vec::new(alloc);
    path.push(Nested::Primitive(None, true, rows))?;
    let options = WriteOptions {
        data_pagesize_limit: Some(2_000_000_000),
        ..options(Version::V2)
    };
    pages(
        alloc,
        rows,
        &path,
        Repetition::Optional,
        options,
        Encoding::Plain,
    )
}

// Whether the page is refused for its room.
fn is_too_large(mut pages: PageIter) -> bool {
    match pages.next_page() {
        Some(Err(error)) => error == Error::Overflow(V::V3),
        _ => false,
    }
}

// 2,048 bytes and 14 a pair are within 2^31 - 1 up to 153,391,542 rows.
#[test]
fn a_page_has_room_for_its_levels(rt: HostRuntime) -> Result<()> {
    assert!(rt; !is_too_large(one_page(rt.alloc(), 40)?));
    assert!(rt; is_too_large(one_page(rt.alloc(), 160_000_000)?));
    Ok(())
}
