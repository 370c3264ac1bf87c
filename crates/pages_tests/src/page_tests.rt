//! Pages read from a chunk and written with their headers (Parquet format, "Column chunks" and "Data Pages").
ghost use Rattle.std.specs.Prelude.{IfOk, IfSome};
ghost use Rattle.pq_pages.specs.Outcomes.{HasLevels};

use columns_base::{Error, PhysicalType, Result as Outcome, S};
use pq_pages::{
    DataPage, DictPage, Page, Pages, VecPages, get_page_iterator, split_buffer, write_page_header,
};
use pq_tree::{
    ColumnChunkMetaData, DataPageHeader, DataPageHeaderV1, Descriptor, FieldInfo, PrimitiveType,
    Repetition,
};
use std::alloc::Global;
use std::test::Fail;

/// A file of one page: the magic bytes, a header of 17 bytes, a body of 21, and one byte behind the chunk.
const FILE: &[u8] = &[
    0x50, 0x41, 0x52, 0x31, 0x15, 0x00, 0x15, 0x2a, 0x15, 0x2a, 0x2c, 0x15, 0x0a, 0x15, 0x00, 0x15,
    0x06, 0x15, 0x06, 0x00, 0x00, 0x02, 0x00, 0x00, 0x00, 0x03, 0x02, 0x03, 0x00, 0x00, 0x00, 0x03,
    0x4f, 0x02, 0x01, 0x00, 0x00, 0x00, 0x02, 0x00, 0x00, 0x00, 0x15,
];

/// An optional number in an optional list.
fn descriptor(alloc: Global) -> Outcome<Descriptor>
    ensures { IfOk result HasLevels }
{
    Ok(Descriptor {
        primitive_type: PrimitiveType {
            field_info: FieldInfo {
                name: String::from_str(alloc, "element")?,
                repetition: Repetition::Optional,
                id: None,
            },
            logical_type: None,
            converted_type: None,
            physical_type: PhysicalType::Int32,
        },
        max_def_level: 3,
        max_rep_level: 1,
    })
}

/// The chunk of the file, of so many values.
fn chunk(alloc: Global, num_values: i64) -> Outcome<ColumnChunkMetaData>
    ensures { IfOk result (λ column. IfSome column.descriptor HasLevels) }
{
    Ok(ColumnChunkMetaData {
        descriptor: Some(descriptor(alloc)?),
        physical_type: 1,
        file_path: None,
        codec: 0,
        num_values,
        total_compressed_size: 38,
        data_page_offset: 4,
        dictionary_page_offset: None,
        statistics: None,
    })
}

/// How many values or entries the next page has; `None` at the end.
fn next_count<P: Pages>(pages: &mut P) -> Outcome<Option<usize>> {
    pages.advance()?;
    match pages.get() {
        Some(Page::Data(page)) => Ok(Some(page.num_values())),
        Some(Page::Dict(page)) => Ok(Some(page.num_values)),
        None => Ok(None),
    }
}

/// The bytes of each section of the next page, and of its whole body.
fn next_sections<P: Pages>(pages: &mut P) -> Outcome<(usize, usize, usize, usize)> {
    pages.advance()?;
    let Some(Page::Data(page)) = pages.get() else {
        return Err(Error::OutOfSpec(S::S3));
    };
    let (repetition, definition, values) = split_buffer(page)?;
    Ok((
        repetition.len(),
        definition.len(),
        values.len(),
        page.buffer().len(),
    ))
}

#[test]
fn a_page_is_read_and_split(rt: HostRuntime) -> Result<(), Fail> {
    let column = chunk(rt.alloc(), 5)?;
    let mut pages = get_page_iterator(rt.alloc(), &column, FILE, 17)?;
    assert!(rt; next_sections(&mut pages)? == (2, 3, 8, 21));
    assert!(rt; next_count(&mut pages)? == None);
    Ok(())
}

#[test]
fn given_pages_come_in_order(rt: HostRuntime) -> Result<(), Fail> {
    let entries = DictPage::new(Vec::from_slice(rt.alloc(), &[7, 0, 0, 0])?, 1, false);
    let outcomes = vec![in rt.alloc(); Ok(Page::Dict(entries)), Err(Error::Memory)]?;
    let mut pages = VecPages::new(outcomes);
    assert!(rt; next_count(&mut pages)? == Some(1));
    assert!(rt; next_count(&mut pages) == Err(Error::Memory));
    assert!(rt; next_count(&mut pages)? == None);
    Ok(())
}

/// The page of the file.
fn page(alloc: Global) -> Outcome<Page> {
    let header = DataPageHeaderV1 {
        num_values: 5,
        encoding: 0,
        definition_level_encoding: Some(3),
        repetition_level_encoding: Some(3),
        statistics: None,
    };
    let body = Vec::from_slice(alloc, &FILE[21..42])?;
    Ok(Page::Data(DataPage::new(
        DataPageHeader::V1(header),
        body,
        descriptor(alloc)?,
        Some(4),
    )))
}

#[test]
fn a_header_is_written(rt: HostRuntime) -> Result<(), Fail> {
    let mut out = Vec::new(rt.alloc());
    write_page_header(&page(rt.alloc())?, &mut out)?;
    assert!(rt; out.as_slice() == &FILE[4..21]);
    Ok(())
}
