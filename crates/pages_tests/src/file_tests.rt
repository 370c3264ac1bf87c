//! A whole file's frame, footer and first header, and the annotations of its nodes.
use columns_base::{Error, PhysicalType, S};
use pq_container::{
    ConvertedType, DataPageHeader, IntegerType, LogicalType, Repetition, SchemaElement, TimeUnit,
    TypedPageHeader, read_footer, read_footer_metadata, read_frame, read_metadata,
    read_page_header,
};
use std::alloc::Global;
use std::test::Fail;

/// A whole file of one column, whose lists of numbers are the rows `[1, 2]`, null, `[]`, `[null]`.
const FILE: &[u8] = b"PAR1\
\x15\x00\x15\x2a\x15\x2a\x2c\x15\x0a\x15\x00\x15\x06\x15\x06\x00\x00\
\x02\x00\x00\x00\x03\x02\x03\x00\x00\x00\x03\x4f\x02\x01\x00\x00\x00\x02\x00\x00\x00\
\x15\x02\x19\x4c\x48\x01r\x15\x02\x00\x35\x02\x18\x01a\x15\x02\x15\x06\x00\
\x35\x04\x18\x04list\x15\x02\x00\x15\x02\x25\x02\x18\x07element\x00\
\x16\x08\x19\x1c\x19\x1c\x26\x08\x1c\x15\x02\x19\x25\x00\x06\x19\x38\x01a\x04list\x07element\
\x15\x00\x16\x0a\x16\x4c\x16\x4c\x26\x08\x00\x00\x16\x4c\x16\x08\x00\x00\
\x5f\x00\x00\x00PAR1";

#[test]
fn a_frame_is_read(rt: HostRuntime) -> Result<(), Fail> {
    assert!(rt;
        FILE.len() == 145 && read_frame(FILE) == Some(95) && read_frame(&FILE[..144]).is_none()
    );
    Ok(())
}

#[test]
fn a_header_is_read(rt: HostRuntime) -> Result<(), Fail> {
    let (header, size) = read_page_header(rt.alloc(), &FILE[4..])?;
    assert!(rt; size == 17 && header.compressed_page_size == 21);
    let TypedPageHeader::Data(DataPageHeader::V1(data)) = header.header else {
        return Err("no data page of version 1".into());
    };
    assert!(rt; data.num_values == 5 && data.encoding == 0);
    assert!(rt;
        data.definition_level_encoding == Some(3) && data.repetition_level_encoding == Some(3)
    );
    Ok(())
}

#[test]
fn a_header_of_version_2_is_read(rt: HostRuntime) -> Result<(), Fail> {
    // 5 values, 2 of them null, in 4 rows
    let bytes = b"\x15\x06\x25\x2a\x5c\x15\x0a\x15\x04\x15\x08\x15\x00\x15\x04\x15\x06\x11\x00\x00";
    let (header, size) = read_page_header(rt.alloc(), bytes)?;
    assert!(rt; size == bytes.len());
    let TypedPageHeader::Data(DataPageHeader::V2(data)) = header.header else {
        return Err("no data page of version 2".into());
    };
    assert!(rt; data.num_values == 5 && data.num_nulls == Some(2) && data.num_rows == 4);
    assert!(rt; data.definition_levels_byte_length == 2 && data.repetition_levels_byte_length == 3);
    Ok(())
}

#[test]
fn a_footer_is_read(rt: HostRuntime) -> Result<(), Fail> {
    let footer = read_footer(rt.alloc(), &FILE[42..])?;
    assert!(rt; footer.name.as_str() == "r" && footer.num_children == 1);
    assert!(rt; footer.key_value_metadata.is_empty());
    let [field, list, item] = footer.elements.as_slice() else {
        return Err("other nodes".into());
    };
    assert!(rt; field.converted_type == Some(ConvertedType::List));
    assert!(rt; list.field_info.repetition == Repetition::Repeated);
    assert!(rt; item.field_info.name.as_str() == "element");
    assert!(rt; item.physical_type == Some(PhysicalType::Int32));
    Ok(())
}

#[test]
fn a_chunk_is_read(rt: HostRuntime) -> Result<(), Fail> {
    let metadata = read_metadata(rt.alloc(), FILE)?;
    let [group] = metadata.row_groups.as_slice() else {
        return Err("not one group".into());
    };
    let [column] = group.columns.as_slice() else {
        return Err("not one column".into());
    };
    assert!(rt; group.num_rows == 4 && column.physical_type == 1 && column.num_values == 5);
    assert!(rt; column.total_compressed_size == 38 && column.data_page_offset == 4);
    assert!(rt; column.dictionary_page_offset.is_none());
    let Some(descriptor) = &column.descriptor else {
        return Err("no descriptor".into());
    };
    assert!(rt; descriptor.max_def_level == 3 && descriptor.max_rep_level == 1);
    Ok(())
}

fn is_outside<T: Drop>(outcome: Result<T, Error>) -> bool {
    match outcome {
        Ok(_) => false,
        Err(error) => error == Error::OutOfSpec(S::S1),
    }
}

#[test]
fn no_prefix_of_a_footer_is_one(rt: HostRuntime) -> Result<(), Fail> {
    for end in 42..137 {
        assert!(rt;
            is_outside(read_footer_metadata(rt.alloc(), &FILE[42..end])),
            "{end}"
        );
    }
    Ok(())
}

#[test]
fn a_footer_without_its_last_byte_is_refused(rt: HostRuntime) -> Result<(), Fail> {
    let mut bytes = FILE[..136].to_vec(rt.alloc())?;
    bytes.extend_from_slice(&FILE[137..])?;
    assert!(rt; is_outside(read_metadata(rt.alloc(), &bytes)));
    Ok(())
}

/// The node of the given fields, behind a root.
fn node(alloc: Global, fields: &[u8]) -> Result<SchemaElement, Fail> {
    let mut bytes = b"\x29\x2c\x48\x01r\x15\x02\x00".to_vec(alloc)?;
    bytes.extend_from_slice(fields)?;
    bytes.extend_from_slice(b"\x00\x16\x00\x19\x0c\x00")?;
    let mut footer = read_footer(alloc, &bytes)?;
    match footer.elements.pop() {
        Some(element) => Ok(element),
        None => Err("no node".into()),
    }
}

#[test]
fn a_leaf_is_read(rt: HostRuntime) -> Result<(), Fail> {
    // type 7, length 16, optional, a, converted 5, scale 2, precision 9, id -1, logical 5 of scale 2 and precision 9
    let leaf = node(
        rt.alloc(),
        b"\x15\x0e\x15\x20\x15\x02\x18\x01a\x25\x0a\x15\x04\x15\x12\x15\x01\x1c\x5c\x15\x04\x15\x12\x00\x00",
    )?;
    assert!(rt; leaf.field_info.name.as_str() == "a" && leaf.field_info.id == Some(-1));
    assert!(rt; leaf.field_info.repetition == Repetition::Optional && leaf.num_children == 0);
    assert!(rt; leaf.physical_type == Some(PhysicalType::FixedLenByteArray(16)));
    assert!(rt; leaf.converted_type == Some(ConvertedType::Decimal(9, 2)));
    assert!(rt; leaf.logical_type == Some(LogicalType::Decimal(9, 2)));
    Ok(())
}

/// The members of the union, and what they stand for.
const LOGICAL: &[(&[u8], Option<LogicalType>)] = &[
    (&[], None),
    (&[0x1c, 0], Some(LogicalType::String)),
    // the last member counts
    (&[0x1c, 0, 0x0c, 0x16, 0], Some(LogicalType::Unknown)),
    (&[0x5c, 0], Some(LogicalType::Decimal(0, 0))),
    (
        &[0x7c, 0x11, 0x1c, 0x1c, 0, 0, 0],
        Some(LogicalType::Time {
            unit: TimeUnit::Milliseconds,
            is_adjusted_to_utc: true,
        }),
    ),
    (
        &[0x8c, 0x12, 0x1c, 0x3c, 0, 0, 0],
        Some(LogicalType::Timestamp {
            unit: TimeUnit::Nanoseconds,
            is_adjusted_to_utc: false,
        }),
    ),
    // a unit that is not known
    (&[0x8c, 0x12, 0x1c, 0x4c, 0, 0, 0], None),
    (
        &[0xac, 0x13, 8, 0x11, 0],
        Some(LogicalType::Integer(IntegerType::Int8)),
    ),
    (
        &[0xac, 0x13, 64, 0x12, 0],
        Some(LogicalType::Integer(IntegerType::UInt64)),
    ),
    // 24 bits
    (&[0xac, 0x13, 24, 0x12, 0], None),
    // members that are not known, and are no structs
    (&[0x9c, 0], None),
    (&[0x95, 2], None),
    (&[0xf1], None),
    (&[0xec, 0], Some(LogicalType::Uuid)),
];

fn logical_type(alloc: Global, members: &[u8]) -> Result<Option<LogicalType>, Fail> {
    let mut fields = b"\x35\x02\x18\x00\x6c".to_vec(alloc)?;
    fields.extend_from_slice(members)?;
    fields.push(0)?;
    Ok(node(alloc, &fields)?.logical_type)
}

#[test]
fn logical_types_are_read(rt: HostRuntime) -> Result<(), Fail> {
    for (members, wanted) in LOGICAL {
        assert!(rt;
            logical_type(rt.alloc(), members)? == *wanted,
            "{members:?}"
        );
    }
    Ok(())
}

/// The converted types by their numbers.
const CONVERTED: &[ConvertedType] = &[
    ConvertedType::Utf8,
    ConvertedType::Map,
    ConvertedType::MapKeyValue,
    ConvertedType::List,
    ConvertedType::Enum,
    // the scale 2 and the precision 9 beside it
    ConvertedType::Decimal(9, 2),
    ConvertedType::Date,
    ConvertedType::TimeMillis,
    ConvertedType::TimeMicros,
    ConvertedType::TimestampMillis,
    ConvertedType::TimestampMicros,
    ConvertedType::Uint8,
    ConvertedType::Uint16,
    ConvertedType::Uint32,
    ConvertedType::Uint64,
    ConvertedType::Int8,
    ConvertedType::Int16,
    ConvertedType::Int32,
    ConvertedType::Int64,
    ConvertedType::Json,
    ConvertedType::Bson,
    ConvertedType::Interval,
];

fn converted_type(alloc: Global, number: u8) -> Result<Option<ConvertedType>, Fail> {
    let mut fields = b"\x35\x02\x18\x00\x25".to_vec(alloc)?;
    fields.push(number)?;
    fields.extend_from_slice(b"\x15\x04\x15\x12")?;
    Ok(node(alloc, &fields)?.converted_type)
}

// 22 and -1 are numbers of none.
#[test]
fn converted_types_are_read(rt: HostRuntime) -> Result<(), Fail> {
    for number in 0u8..23 {
        let wanted = CONVERTED.get(usize::from(number)).copied();
        assert!(rt;
            converted_type(rt.alloc(), 2 * number)? == wanted,
            "{number}"
        );
    }
    assert!(rt; converted_type(rt.alloc(), 1)?.is_none());
    Ok(())
}
