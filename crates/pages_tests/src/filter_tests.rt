//! Pages of a chunk that a filter keeps (Parquet format, "Column chunks", "Data Pages" and "Dictionary Page").
ghost use Rattle.std.specs.Prelude.{◌≡◌, IfOk, IfSome};
ghost use Rattle.pq_pages.specs.Outcomes.{HasLevels};
ghost use Rattle.pages_tests.specs.Plain.{is_zero};

use columns_base::{Error, PhysicalType, Result as Outcome, S};
use page_filters::{FilteredPages, PageFilter, get_page_iterator};
use pq_pages::{DictPage, Page, Pages, VecPages};
use pq_tree::{
    ColumnChunkMetaData, DataPageHeader, Descriptor, FieldInfo, PrimitiveType, Repetition,
};
use std::alloc::Global;
use std::test::Fail;

/// A file of one chunk: the magic bytes, a dictionary page of one entry, and data pages of two, five and three values, the first and the third by the
/// dictionary, the second plain. The headers have 13, 17, 17 and 17 bytes, the bodies 4, 2, 20 and 2.
const FILE: &[u8] = &[
    0x50, 0x41, 0x52, 0x31, 0x15, 0x04, 0x15, 0x08, 0x15, 0x08, 0x4c, 0x15, 0x02, 0x15, 0x00, 0x00,
    0x00, 0x07, 0x00, 0x00, 0x00, 0x15, 0x00, 0x15, 0x04, 0x15, 0x04, 0x2c, 0x15, 0x04, 0x15, 0x10,
    0x15, 0x06, 0x15, 0x06, 0x00, 0x00, 0x00, 0x04, 0x15, 0x00, 0x15, 0x28, 0x15, 0x28, 0x2c, 0x15,
    0x0a, 0x15, 0x00, 0x15, 0x06, 0x15, 0x06, 0x00, 0x00, 0x01, 0x00, 0x00, 0x00, 0x02, 0x00, 0x00,
    0x00, 0x03, 0x00, 0x00, 0x00, 0x04, 0x00, 0x00, 0x00, 0x05, 0x00, 0x00, 0x00, 0x15, 0x00, 0x15,
    0x04, 0x15, 0x04, 0x2c, 0x15, 0x06, 0x15, 0x10, 0x15, 0x06, 0x15, 0x06, 0x00, 0x00, 0x00, 0x06,
];

/// A number that is there.
fn descriptor(alloc: Global) -> Outcome<Descriptor>
    ensures { IfOk result HasLevels }
{
    Ok(Descriptor {
        primitive_type: PrimitiveType {
            field_info: FieldInfo {
                name: String::from_str(alloc, "n")?,
                repetition: Repetition::Required,
                id: None,
            },
            logical_type: None,
            converted_type: None,
            physical_type: PhysicalType::Int32,
        },
        max_def_level: 0,
        max_rep_level: 0,
    })
}

/// The chunk of the file, of so many values.
fn chunk(alloc: Global, num_values: i64) -> Outcome<ColumnChunkMetaData>
    ensures { IfOk result (λ column. IfSome column.descriptor HasLevels) }
{
    Ok(ColumnChunkMetaData {
        descriptor: Some(descriptor(alloc)?),
        physical_type: 1,
        file_path: None,
        codec: 0,
        num_values,
        total_compressed_size: 92,
        data_page_offset: 21,
        dictionary_page_offset: Some(4),
        statistics: None,
    })
}

/// The number of PLAIN.
fn is_zero(encoding: i32) -> bool
    ensures { result ≡ is_zero encoding }
{
    encoding == 0
}

/// Keeps the pages whose values are spelled plain.
#[derive(Drop)]
struct Plain;

impl PageFilter for Plain {
    ghost use Rattle.pages_tests.specs.Plain.{is_plain};

    ghost keeps = { λ filter column h. is_plain h };

    fn keeps(&self, _column: &Descriptor, header: &DataPageHeader) -> bool {
        match header {
            DataPageHeader::V1(header) => is_zero(header.encoding),
            DataPageHeader::V2(header) => is_zero(header.encoding),
        }
    }
}

/// How many values or entries the next page has; 0 at the end, 100 in the place of S3, and 200 in that of any other error.
fn next_count<P: Pages>(pages: &mut P) -> usize {
    match pages.advance() {
        Ok(()) => {}
        Err(Error::OutOfSpec(S::S3)) => return 100,
        Err(_) => return 200,
    }
    match pages.get() {
        Some(Page::Data(page)) => page.num_values(),
        Some(Page::Dict(page)) => page.num_values,
        None => 0,
    }
}

/// The counts of the next pages of the chunk of so many values, up to the end.
fn counts(
    alloc: Global,
    num_values: i64,
    filter: Option<Plain>,
) -> Outcome<(usize, usize, usize, usize, usize)> {
    let column = chunk(alloc, num_values)?;
    let mut pages = get_page_iterator(alloc, &column, FILE, filter, 17)?;
    Ok((
        next_count(&mut pages),
        next_count(&mut pages),
        next_count(&mut pages),
        next_count(&mut pages),
        next_count(&mut pages),
    ))
}

#[test]
fn plain_pages_are_kept(rt: HostRuntime) -> Result<(), Fail> {
    assert!(rt; counts(rt.alloc(), 10, Some(Plain))? == (1, 5, 0, 0, 0));
    Ok(())
}

#[test]
fn all_pages_are_kept(rt: HostRuntime) -> Result<(), Fail> {
    assert!(rt; counts(rt.alloc(), 10, None)? == (1, 2, 5, 3, 0));
    Ok(())
}

#[test]
fn an_error_is_kept(rt: HostRuntime) -> Result<(), Fail> {
    assert!(rt; counts(rt.alloc(), 11, Some(Plain))? == (1, 5, 100, 0, 0));
    Ok(())
}

#[test]
fn given_outcomes_are_kept(rt: HostRuntime) -> Result<(), Fail> {
    let entries = DictPage::new(Vec::from_slice(rt.alloc(), &[7, 0, 0, 0])?, 1, false);
    let outcomes = vec![in rt.alloc(); Err(Error::OutOfSpec(S::S3)), Ok(Page::Dict(entries))]?;
    let pages = VecPages::new(outcomes);
    let mut pages = FilteredPages::new(pages, descriptor(rt.alloc())?, Some(Plain));
    assert!(rt; next_count(&mut pages) == 100);
    assert!(rt; next_count(&mut pages) == 1);
    assert!(rt; next_count(&mut pages) == 0);
    Ok(())
}
