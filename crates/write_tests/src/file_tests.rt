//! Files of two groups of a nullable list column and a required one.
use crate::fields::{encodings, field, numbers, numbers_in, trees};
use crate::options::V1;
use columns_array::{ArrayBox, Chunk, ListArray};
use columns_base::{A, Error, Result};
use columns_core::{Bitmap, DataType, Metadata, OffsetsBuffer, Schema};
use pq_container::read_metadata;
use pq_io::{MemorySink, PlainSink};
use pq_tree::ParquetType;
use schema_codec::PlainCodec;
use std::alloc::Global;
use write_groups::{FileWriter, RowGroupIter, row_group_iter};

fn list_type(alloc: Global) -> Result<DataType> {
    let item = field(alloc, "item", DataType::Int32, true)?;
    Ok(DataType::List(Box::new(alloc, item)?))
}

fn schema(alloc: Global) -> Result<Schema> {
    let lists = field(alloc, "a", list_type(alloc)?, true)?;
    let numbers = field(alloc, "b", DataType::Int32, false)?;
    Ok(Schema {
        fields: Vec::from_array(alloc, [lists, numbers])?,
        metadata: Metadata::new(alloc),
    })
}

// The rows [1, null], null, [], [2].
fn lists(alloc: Global) -> Result<ArrayBox> {
    let items = numbers_in(alloc, &[1, 0, 2], &[true, false, true])?;
    let offsets = OffsetsBuffer::try_from_vec([0, 2, 2, 2, 3].as_slice().to_vec(alloc)?)?;
    let mask = Bitmap::from_slice(alloc, &[true, false, true, true])?;
    Ok(ArrayBox::List(ListArray::try_new(alloc, list_type(alloc)?, offsets, items, Some(mask))?))
}

// So many of the two columns.
fn chunk(alloc: Global, columns: usize) -> Result<Chunk> {
    let numbers = numbers(alloc, &[1, 2, 3, 4], None)?;
    let mut arrays = Vec::from_array(alloc, [lists(alloc)?, numbers])?;
    arrays.truncate(columns);
    Chunk::try_new(arrays)
}

// So many of the two columns, with so many lists of encodings and so many trees.
fn group_of(
    alloc: Global,
    from: &[ParquetType],
    columns: usize,
    lists: usize,
    fields: usize,
) -> Result<RowGroupIter> {
    let chunk = chunk(alloc, columns)?;
    let encodings = encodings(alloc, lists, 1)?;
    row_group_iter(alloc, chunk, encodings, trees(alloc, from, fields)?, V1)
}

// The group of both columns, or of the first alone.
fn group(alloc: Global, from: &[ParquetType], count: usize) -> Result<RowGroupIter> {
    group_of(alloc, from, count, count, count)
}

fn writer(alloc: Global) -> Result<FileWriter<PlainSink>> {
    FileWriter::try_new(alloc, PlainSink::new(alloc), schema(alloc)?, V1)
}

const MISFIT: Error = Error::InvalidArgumentError(A::A8);

// The writer behind two groups of both columns.
fn two_groups(alloc: Global) -> Result<FileWriter<PlainSink>> {
    let mut writer = writer(alloc)?;
    for _ in 0..2 {
        let group = group(alloc, writer.parquet_schema().fields(), 2)?;
        writer.write(group)?;
    }
    Ok(writer)
}

// Whether the file is of two groups, the second of four rows.
fn has_groups(alloc: Global, bytes: &[u8]) -> Result<bool> {
    let metadata = read_metadata(alloc, bytes)?;
    Ok(metadata.row_groups.len() == 2 && metadata.row_groups[1].num_rows == 4)
}

// Whether the groups are counted, the file ends once, and it is read as what was written.
fn is_read_again(alloc: Global) -> Result<bool> {
    let mut writer = two_groups(alloc)?;
    let is_counted = writer.groups() == 2 && writer.rows() == 8 && writer.data_pages() == 4;
    let size = writer.end(None, &PlainCodec)?;
    let is_ended = writer.end(None, &PlainCodec) == Err(MISFIT);
    let sink = writer.into_inner();
    let is_sized = sink.bytes().len() as u64 == size;
    Ok(is_counted && is_ended && is_sized && has_groups(alloc, sink.bytes())?)
}

#[test]
fn two_groups_are_read_again(rt: HostRuntime) -> Result<()> {
    assert!(rt; is_read_again(rt.alloc())?);
    Ok(())
}

// The first error is answered from then on, and nothing is pushed.
fn refuses_one_column(alloc: Global) -> Result<bool> {
    let mut writer = writer(alloc)?;
    let one = group(alloc, writer.parquet_schema().fields(), 1)?;
    let is_refused = writer.write(one) == Err(MISFIT);
    let both = group(alloc, writer.parquet_schema().fields(), 2)?;
    let is_told = writer.write(both) == Err(MISFIT);
    Ok(is_refused && is_told && writer.into_inner().bytes().is_empty())
}

#[test]
fn a_group_of_one_column_is_refused(rt: HostRuntime) -> Result<()> {
    assert!(rt; refuses_one_column(rt.alloc())?);
    Ok(())
}

// Whether a group is not written for a fault of the sink.
fn is_unwritten(alloc: Global, writer: &mut FileWriter<MemorySink>) -> Result<bool> {
    let group = group(alloc, writer.parquet_schema().fields(), 2)?;
    Ok(writer.write(group) == Err(Error::WriteFault))
}

// The first error is answered from then on, and nothing more is pushed.
fn fails_at_every_call(alloc: Global) -> Result<bool> {
    let sink = MemorySink::new(alloc, Vec::from_slice(alloc, &[1])?);
    let mut writer = FileWriter::try_new(alloc, sink, schema(alloc)?, V1)?;
    let first = is_unwritten(alloc, &mut writer)?;
    let second = is_unwritten(alloc, &mut writer)?;
    let end = writer.end(None, &PlainCodec) == Err(Error::WriteFault);
    Ok(first && second && end && writer.into_inner().bytes().is_empty())
}

#[test]
fn a_sink_that_fails_is_told_by_every_call(rt: HostRuntime) -> Result<()> {
    assert!(rt; fails_at_every_call(rt.alloc())?);
    Ok(())
}

// Whether so many columns, lists of encodings and trees do not fit.
fn misfit(
    alloc: Global,
    from: &[ParquetType],
    columns: usize,
    encodings: usize,
    fields: usize,
) -> bool {
    match group_of(alloc, from, columns, encodings, fields) {
        Ok(_) => false,
        Err(error) => error == MISFIT,
    }
}

#[test]
fn arrays_encodings_and_fields_are_counted(rt: HostRuntime) -> Result<()> {
    let alloc = rt.alloc();
    let writer = writer(alloc)?;
    let from = writer.parquet_schema().fields();
    for (columns, encodings, fields) in [(2, 1, 1), (2, 2, 1), (2, 1, 2), (1, 2, 2), (1, 1, 2)] {
        assert!(rt; misfit(alloc, from, columns, encodings, fields));
    }
    Ok(())
}
