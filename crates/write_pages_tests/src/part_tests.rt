//! Pages from bodies, and lengths.
use columns_base::{Error, PhysicalType, Result, V};
use page_parts::{ExactSizedIter, build_plain_page};
use pq_pages::DataPage;
use pq_tree::{
    CompressionOptions, DataPageHeader, Encoding, FieldInfo, PrimitiveType, Repetition, Version,
};
use std::alloc::Global;
use write_pages::WriteOptions;

/// Pages of version 2, without statistics.
const OPTIONS: WriteOptions = WriteOptions {
    write_statistics: false,
    version: Version::V2,
    compression: CompressionOptions::Uncompressed,
    data_pagesize_limit: None,
};

// A page of three values and so many rows.
fn page(alloc: Global, rows: usize) -> Result<DataPage> {
    let type_ = PrimitiveType {
        field_info: FieldInfo {
            name: String::from_str(alloc, "n")?,
            repetition: Repetition::Required,
            id: None,
        },
        logical_type: None,
        converted_type: None,
        physical_type: PhysicalType::ByteArray,
    };
    let body = Vec::from_slice(alloc, &[7, 8])?;
    build_plain_page(
        body,
        3,
        rows,
        0,
        0,
        0,
        None,
        type_,
        OPTIONS,
        Encoding::DeltaByteArray,
    )
}

// The rows and the encoding that its header states.
fn told(page: &DataPage) -> (i32, i32) {
    match page.header() {
        DataPageHeader::V1(_) => (0, 0),
        DataPageHeader::V2(header) => (header.num_rows, header.encoding),
    }
}

#[test]
fn a_page_states_its_numbers(rt: HostRuntime) -> Result<()> {
    let page = page(rt.alloc(), 3)?;
    assert!(rt; page.num_values() == 3 && page.buffer().len() == 2);
    assert!(rt; told(&page) == (3, 7));
    assert!(rt; page.descriptor().max_def_level == 0 && page.descriptor().max_rep_level == 0);
    Ok(())
}

#[test]
fn numbers_past_a_field_are_refused(rt: HostRuntime) -> Result<()> {
    let most = page(rt.alloc(), 2_147_483_647)?;
    assert!(rt; told(&most) == (2_147_483_647, 7));
    match page(rt.alloc(), 2_147_483_648) {
        Ok(_) => assert!(rt; false),
        Err(error) => assert!(rt; error == Error::Overflow(V::V3)),
    }
    Ok(())
}

#[test]
fn the_hint_is_what_is_left(rt: HostRuntime) {
    let mut numbers = ExactSizedIter::new(5..7_u32, 2);
    assert!(rt; numbers.size_hint() == (2, Some(2)));
    assert!(rt; numbers.next() == Some(5));
    assert!(rt; numbers.size_hint() == (1, Some(1)));
    assert!(rt; numbers.next() == Some(6));
    assert!(rt; numbers.next() == None);
}
