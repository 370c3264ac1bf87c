//! Each caller once: a file of one column of lists, its pages as an array again, and its schema both ways.
use parquet::arrays::{
    ArrayBox, Bitmap, Chunk, DataType, Error, Field, ListArray, Metadata, N, OffsetsBuffer,
    PhysicalType, PrimitiveArray, Result, Schema,
};
use parquet::read::{DataPage, DataPageHeader, DataPageHeaderV1, Page, VecPages, read_metadata};
use parquet::schema::{Descriptor, FieldInfo, PlainCodec, PrimitiveType, Repetition};
use parquet::write::{CompressionOptions, Encoding, PlainSink, Version, WriteOptions};
use std::alloc::Global;
use uses::{arrays_to_file, field_to_array, schema_there_and_back};

const OPTIONS: WriteOptions = WriteOptions {
    write_statistics: true,
    version: Version::V2,
    compression: CompressionOptions::Uncompressed,
    data_pagesize_limit: Some(9),
};

fn named(alloc: Global, name: &str, data_type: DataType) -> Result<Field> {
    Ok(Field {
        name: String::from_str(alloc, name)?,
        data_type,
        is_nullable: true,
        metadata: Metadata::new(alloc),
    })
}

fn lists_field(alloc: Global) -> Result<Field> {
    let item = named(alloc, "item", DataType::Int32)?;
    named(alloc, "a", DataType::List(Box::new(alloc, item)?))
}

fn schema(alloc: Global) -> Result<Schema> {
    Ok(Schema {
        fields: Vec::from_array(alloc, [lists_field(alloc)?])?,
        metadata: Metadata::new(alloc),
    })
}

// The rows [1, null], null, [], [2].
fn lists(alloc: Global) -> Result<ArrayBox> {
    let there = Bitmap::from_slice(alloc, &[true, false, true])?;
    let items = PrimitiveArray::try_new(
        alloc,
        DataType::Int32,
        [1, 0, 2].as_slice().to_vec(alloc)?,
        Some(there),
    )?;
    let offsets = OffsetsBuffer::try_from_vec([0, 2, 2, 2, 3].as_slice().to_vec(alloc)?)?;
    let mask = Bitmap::from_slice(alloc, &[true, false, true, true])?;
    let data_type = lists_field(alloc)?.data_type;
    Ok(ArrayBox::List(ListArray::try_new(
        alloc,
        data_type,
        offsets,
        ArrayBox::Int32(items),
        Some(mask),
    )?))
}

fn plain(alloc: Global) -> Result<Vec<Vec<Encoding>>> {
    let one = Vec::from_array(alloc, [Encoding::Plain])?;
    Ok(Vec::from_array(alloc, [one])?)
}

#[test]
fn arrays_are_written(rt: HostRuntime) -> Result<()> {
    let alloc = rt.alloc();
    let chunk = Chunk::try_new(Vec::from_array(alloc, [lists(alloc)?])?)?;
    let sink = PlainSink::new(alloc);
    let sink = arrays_to_file(
        alloc,
        sink,
        schema(alloc)?,
        chunk,
        plain(alloc)?,
        OPTIONS,
        &PlainCodec,
    )?;
    let metadata = read_metadata(alloc, sink.bytes())?;
    assert!(rt; metadata.row_groups.len() == 1 && metadata.row_groups[0].num_rows == 4);
    Ok(())
}

// The leaf of a required column of numbers.
fn leaf(alloc: Global) -> PrimitiveType {
    PrimitiveType {
        field_info: FieldInfo {
            name: String::new(alloc),
            repetition: Repetition::Required,
            id: None,
        },
        logical_type: None,
        converted_type: None,
        physical_type: PhysicalType::Int32,
    }
}

// A page of two of its values.
fn page(alloc: Global, body: &[u8]) -> Result<Page> {
    let header = DataPageHeaderV1 {
        num_values: 2,
        encoding: 0,
        definition_level_encoding: None,
        repetition_level_encoding: None,
        statistics: None,
    };
    let descriptor = Descriptor {
        primitive_type: leaf(alloc),
        max_def_level: 0,
        max_rep_level: 0,
    };
    let body = Vec::from_slice(alloc, body)?;
    Ok(Page::Data(DataPage::new(DataPageHeader::V1(header), body, descriptor, None)))
}

// The numbers 1 to 4 in two pages, as an array.
fn numbers(alloc: Global, field: Field) -> Result<Option<ArrayBox>> {
    if !field.nests_within(128) {
        return Err(Error::NotYetImplemented(N::N7));
    }
    let first = page(alloc, &[1, 0, 0, 0, 2, 0, 0, 0])?;
    let second = page(alloc, &[3, 0, 0, 0, 4, 0, 0, 0])?;
    let pages = VecPages::new(Vec::from_array(alloc, [Ok(first), Ok(second)])?);
    let columns = Vec::from_array(alloc, [pages])?;
    let types = Vec::from_array(alloc, [leaf(alloc)])?;
    field_to_array(alloc, columns, types, field, 4)
}

#[test]
fn pages_are_read(rt: HostRuntime) -> Result<()> {
    let alloc = rt.alloc();
    let mut field = named(alloc, "b", DataType::Int32)?;
    field.is_nullable = false;
    let read = numbers(alloc, field)?;
    let is_read = match &read {
        Some(ArrayBox::Int32(array)) => array.values() == [1, 2, 3, 4].as_slice(),
        _ => false,
    };
    assert!(rt; is_read);
    Ok(())
}

// Whether a schema comes back as it is.
fn comes_back(alloc: Global, schema: &Schema) -> Result<bool> {
    if !schema.nests_within(128) {
        return Ok(false);
    }
    let again = schema_there_and_back(alloc, schema, &PlainCodec)?;
    Ok(again == *schema)
}

#[test]
fn a_schema_comes_back(rt: HostRuntime) -> Result<()> {
    let alloc = rt.alloc();
    assert!(rt; comes_back(alloc, &schema(alloc)?)?);
    Ok(())
}
