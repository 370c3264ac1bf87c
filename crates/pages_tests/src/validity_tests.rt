//! A page of five values, of which the second, the third and the fifth are there.
use columns_base::{PhysicalType, Result};
use page_validity::{FilteredOptionalPageValidity, OptionalPageValidity, PageValidity, Zip};
use pq_bitmaps::{FilteredHybridEncoded, Interval};
use pq_pages::DataPage;
use pq_tree::{DataPageHeader, DataPageHeaderV2, Descriptor, FieldInfo, PrimitiveType, Repetition};
use std::alloc::Global;

// The page of version 2 whose body begins with these bytes of definition levels.
fn page(alloc: Global, definitions: &[u8]) -> Result<DataPage> {
    let header = DataPageHeaderV2 {
        num_values: 5,
        num_nulls: Some(2),
        num_rows: 5,
        encoding: 0,
        definition_levels_byte_length: definitions.len().min(9) as i32,
        repetition_levels_byte_length: 0,
        is_compressed: Some(false),
        statistics: None,
    };
    let field_info = FieldInfo {
        name: String::from_str(alloc, "n")?,
        repetition: Repetition::Optional,
        id: None,
    };
    let descriptor = Descriptor {
        primitive_type: PrimitiveType {
            field_info,
            logical_type: None,
            converted_type: None,
            physical_type: PhysicalType::Int32,
        },
        max_def_level: 1,
        max_rep_level: 0,
    };
    Ok(DataPage::new(
        DataPageHeader::V2(header),
        Vec::from_slice(alloc, definitions)?,
        descriptor,
        Some(5),
    ))
}

// Of a bitmap its offset and length, of copies 10 and their number, of a skipped part 20 and the set bits; 30 of an error, 40 of nothing.
fn told(part: Option<Result<FilteredHybridEncoded<'_>>>) -> (usize, usize) {
    match part {
        Some(Ok(FilteredHybridEncoded::Bitmap { offset, length, .. })) => (offset, length),
        Some(Ok(FilteredHybridEncoded::Repeated { length, .. })) => (10, length),
        Some(Ok(FilteredHybridEncoded::Skipped(set))) => (20, set),
        Some(Err(_)) => (30, 0),
        None => (40, 0),
    }
}

#[test]
fn a_run_is_given_in_parts(rt: HostRuntime) -> Result<()> {
    let page = page(rt.alloc(), &[3, 22])?;
    let mut validity = OptionalPageValidity::try_new(&page)?;
    assert!(rt; validity.len() == 5);
    assert!(rt; told(validity.next_limited(2)) == (0, 2));
    assert!(rt; told(validity.next_limited(9)) == (2, 3));
    assert!(rt; told(validity.next_limited(1)) == (40, 0));
    Ok(())
}

#[test]
fn all_rows_are_selected_where_none_are_named(rt: HostRuntime) -> Result<()> {
    let page = page(rt.alloc(), &[3, 22])?;
    assert!(rt; page.selected_rows().is_none());
    let mut validity = FilteredOptionalPageValidity::try_new(rt.alloc(), &page)?;
    assert!(rt; told(validity.next_limited(2)) == (0, 2));
    assert!(rt; validity.len() == 3);
    assert!(rt; told(validity.next_limited(9)) == (2, 3));
    assert!(rt; told(validity.next_limited(1)) == (40, 0));
    Ok(())
}

// Selects so many rows of a page from one on, where it has them.
fn select(alloc: Global, page: &mut DataPage, start: usize, length: usize) -> Result<bool> {
    let count = page.num_values();
    if count < start {
        return Ok(false);
    }
    if count - start < length {
        return Ok(false);
    }
    let rows = Vec::from_slice(alloc, &[Interval { start, length }])?;
    page.select_rows(rows);
    Ok(true)
}

// The second to the fourth of five values: the one in front is passed over, and is not there.
#[test]
fn selected_rows_are_given_in_parts(rt: HostRuntime) -> Result<()> {
    let mut page = page(rt.alloc(), &[3, 22])?;
    assert!(rt; select(rt.alloc(), &mut page, 1, 3)?);
    let mut validity = FilteredOptionalPageValidity::try_new(rt.alloc(), &page)?;
    assert!(rt; validity.len() == 3);
    assert!(rt; told(validity.next_limited(2)) == (20, 0));
    assert!(rt; told(validity.next_limited(2)) == (1, 2));
    assert!(rt; told(validity.next_limited(2)) == (3, 1));
    assert!(rt; told(validity.next_limited(2)) == (40, 0));
    Ok(())
}

#[test]
fn bits_that_lack_are_refused_once(rt: HostRuntime) -> Result<()> {
    let page = page(rt.alloc(), &[6, 1])?;
    let mut validity = OptionalPageValidity::try_new(&page)?;
    assert!(rt; told(validity.next_limited(9)) == (10, 3));
    assert!(rt; told(validity.next_limited(9)) == (30, 0));
    assert!(rt; told(validity.next_limited(9)) == (40, 0));
    Ok(())
}

#[test]
fn values_stand_at_set_bits(rt: HostRuntime) -> Result<()> {
    let bits = Vec::from_slice(rt.alloc(), &[true, false, true])?;
    let values = Vec::from_slice(rt.alloc(), &[7_u8])?;
    let mut pairs = Zip::new(bits.into_iter(), values.into_iter());
    assert!(rt; pairs.next() == Some(Some(7)));
    assert!(rt; pairs.next() == Some(None));
    assert!(rt; pairs.next() == Some(None));
    assert!(rt; pairs.next() == None);
    Ok(())
}
