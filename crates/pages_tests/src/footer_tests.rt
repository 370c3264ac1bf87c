//! The footer of the rows [1, 2], null, [] and [null], put together by hand, and one with all annotations that is read again.
use footer_write::{
    ThriftColumnChunk, ThriftColumnMetaData, ThriftFileMetaData, ThriftRowGroup, write_metadata,
};
use pq_container::{
    ConvertedType, FieldInfo, IntegerType, LogicalType, ParquetType, PhysicalType, PrimitiveType,
    Repetition, SchemaDescriptor, Statistics, TimeUnit, read_footer_metadata,
};
use std::alloc::Global;
use std::test::Fail;

fn text(alloc: Global, text: &str) -> Result<String, Fail> {
    Ok(String::from_str(alloc, text)?)
}

fn leaf(
    alloc: Global,
    name: &str,
    physical_type: PhysicalType,
    converted_type: Option<ConvertedType>,
    logical_type: Option<LogicalType>,
) -> Result<ParquetType, Fail> {
    let field_info = FieldInfo {
        name: text(alloc, name)?,
        repetition: Repetition::Optional,
        id: None,
    };
    Ok(ParquetType::PrimitiveType(PrimitiveType {
        field_info,
        logical_type,
        converted_type,
        physical_type,
    }))
}

fn group(
    alloc: Global,
    name: &str,
    repetition: Repetition,
    converted_type: Option<ConvertedType>,
    logical_type: Option<LogicalType>,
    fields: Vec<ParquetType>,
) -> Result<ParquetType, Fail> {
    let field_info = FieldInfo {
        name: text(alloc, name)?,
        repetition,
        id: None,
    };
    Ok(ParquetType::GroupType {
        field_info,
        logical_type,
        converted_type,
        fields,
    })
}

/// A column of 38 bytes from 4 on.
fn column(
    alloc: Global,
    path_in_schema: Vec<String>,
    statistics: Option<Statistics>,
) -> Result<ThriftColumnChunk, Fail> {
    let meta_data = ThriftColumnMetaData {
        type_: 1,
        encodings: vec![in alloc; 0, 3]?,
        path_in_schema,
        codec: 0,
        num_values: 5,
        total_uncompressed_size: 38,
        total_compressed_size: 38,
        data_page_offset: 4,
        dictionary_page_offset: None,
        statistics,
    };
    Ok(ThriftColumnChunk {
        file_offset: 4,
        meta_data,
    })
}

fn footer(
    alloc: Global,
    field: ParquetType,
    chunk: ThriftColumnChunk,
) -> Result<ThriftFileMetaData, Fail> {
    let group = ThriftRowGroup {
        columns: vec![in alloc; chunk]?,
        total_byte_size: 38,
        num_rows: 4,
        file_offset: 4,
        total_compressed_size: 38,
        ordinal: Some(0),
    };
    let name = text(alloc, "root")?;
    let fields = vec![in alloc; field]?;
    Ok(ThriftFileMetaData {
        version: 1,
        schema: SchemaDescriptor::new(alloc, name, fields)?,
        num_rows: 4,
        row_groups: vec![in alloc; group]?,
        key_value_metadata: None,
        created_by: text(alloc, "Arrow2 - Native Rust implementation of Arrow")?,
    })
}

fn list_field(alloc: Global) -> Result<ParquetType, Fail> {
    let element = leaf(alloc, "element", PhysicalType::Int32, None, None)?;
    let elements = vec![in alloc; element]?;
    let list = group(alloc, "list", Repetition::Repeated, None, None, elements)?;
    let lists = vec![in alloc; list]?;
    let converted = Some(ConvertedType::List);
    let logical = Some(LogicalType::List);
    group(alloc, "a", Repetition::Optional, converted, logical, lists)
}

fn list_path(alloc: Global) -> Result<Vec<String>, Fail> {
    let field = text(alloc, "a")?;
    let list = text(alloc, "list")?;
    let element = text(alloc, "element")?;
    Ok(vec![in alloc; field, list, element]?)
}

const FOOTER: &[u8] = b"\x15\x02\
\x19\x4c\x48\x04root\x15\x02\x00\
\x35\x02\x18\x01a\x15\x02\x15\x06\x4c\x3c\x00\x00\x00\
\x35\x04\x18\x04list\x15\x02\x00\
\x15\x02\x25\x02\x18\x07element\x00\
\x16\x08\
\x19\x1c\x19\x1c\x26\x08\x1c\x15\x02\x19\x25\x00\x06\x19\x38\x01a\x04list\x07element\
\x15\x00\x16\x0a\x16\x4c\x16\x4c\x26\x08\x00\x00\
\x16\x4c\x16\x08\x26\x08\x16\x4c\x14\x00\x00\
\x28\x2cArrow2 - Native Rust implementation of Arrow\
\x19\x1c\x1c\x00\x00\x00";

/// Whether the footer is appended to what stands there.
fn is_footer_written(alloc: Global) -> Result<bool, Fail> {
    let chunk = column(alloc, list_path(alloc)?, None)?;
    let metadata = footer(alloc, list_field(alloc)?, chunk)?;
    let mut out = Vec::from_slice(alloc, b"ab")?;
    write_metadata(&metadata, &mut out)?;
    let mut expected = Vec::from_slice(alloc, b"ab")?;
    expected.extend_from_slice(FOOTER)?;
    Ok(out == expected)
}

#[test]
fn a_footer_is_spelled_so(rt: HostRuntime) -> Result<(), Fail> {
    assert!(rt; is_footer_written(rt.alloc())?);
    Ok(())
}

fn bounds(alloc: Global) -> Result<Statistics, Fail> {
    Ok(Statistics {
        null_count: Some(3),
        max_value: Some(Vec::from_slice(alloc, b"z")?),
        min_value: None,
    })
}

/// Whether a leaf of these types, in a footer with bounds, is read again.
fn is_read_again(
    alloc: Global,
    physical_type: PhysicalType,
    converted_type: Option<ConvertedType>,
    logical_type: Option<LogicalType>,
) -> Result<bool, Fail> {
    let field = leaf(alloc, "d", physical_type, converted_type, logical_type)?;
    let chunk = column(alloc, Vec::new(alloc), Some(bounds(alloc)?))?;
    let metadata = footer(alloc, field, chunk)?;
    let mut out = Vec::new(alloc);
    write_metadata(&metadata, &mut out)?;
    let read = read_footer_metadata(alloc, &out)?;
    Ok(read.schema_descr.fields() == metadata.schema.fields() && read.row_groups.len() == 1)
}

#[test]
fn what_is_written_is_read_again(rt: HostRuntime) -> Result<(), Fail> {
    let alloc = rt.alloc();
    let decimal = Some(ConvertedType::Decimal(9, 2));
    let fixed = PhysicalType::FixedLenByteArray(5);
    assert!(rt; is_read_again(alloc, fixed, decimal, Some(LogicalType::Decimal(9, 2)))?);
    let nanoseconds = Some(LogicalType::Timestamp {
        unit: TimeUnit::Nanoseconds,
        is_adjusted_to_utc: true,
    });
    assert!(rt; is_read_again(alloc, PhysicalType::Int64, None, nanoseconds)?);
    let byte = Some(LogicalType::Integer(IntegerType::UInt8));
    let converted = Some(ConvertedType::Uint8);
    assert!(rt; is_read_again(alloc, PhysicalType::Int32, converted, byte)?);
    Ok(())
}
