//! A file of one dictionary column, by hand (Parquet format, "Dictionary Page", "Data Pages"; Encodings, "Plain", "Dictionary Encoding" and "Run
//! Length Encoding / Bit-Packing Hybrid"; parquet.thrift).
use crate::fields::{field, schema_of, trees};
use crate::options::V1;
use columns_array::{ArrayBox, Chunk, DictionaryArray};
use columns_base::{Error, Result, V};
use columns_core::{Bitmap, DataType, IntegerType, OffsetsBuffer, Schema};
use columns_leaf::keys::DictionaryKeys;
use columns_leaf::{PrimitiveArray, Utf8Array};
use footer_write::{ThriftFileMetaData, write_metadata};
use pq_container::read_metadata;
use pq_io::PlainSink;
use pq_tree::{ColumnChunkMetaData, Encoding, ParquetType};
use schema_codec::PlainCodec;
use std::alloc::Global;
use write_groups::{FileWriter, RowGroupIter, row_group_iter};

/// What a file begins with, and at place 4 the header of the dictionary page: type 2, two sizes of 15 bytes, three entries, encoding 0, not sorted.
const FRONT: &[u8] = b"PAR1\x15\x04\x15\x1e\x15\x1e\x4c\x15\x06\x15\x00\x12\x00\x00";

/// The entries "a" and "bc", each behind its length, and no bytes for the null one.
const ENTRIES: &[u8] = b"\x01\x00\x00\x00a\x02\x00\x00\x00bc\x00\x00\x00\x00";

/// The header of the data page at place 33: type 0, two sizes of 9 bytes, four pairs, encoding 8, levels in encoding 3.
const HEADER: &[u8] = b"\x15\x00\x15\x12\x15\x12\x2c\x15\x08\x15\x10\x15\x06\x15\x06\x00\x00";

/// The definition levels 1, 0, 1, 0, behind their length of two bytes, and the indices 1 and 0, behind their width: two packed runs of eight.
const BODY: &[u8] = &[2, 0, 0, 0, 3, 0b0101, 1, 3, 0b01];

/// What the footer says of the column: byte arrays, the encodings 0, 3 and 8, the path x, not compressed, four pairs, both sizes of 55 bytes, the data pages at 33, and the
/// dictionary page at 4.
const COLUMN: &[u8] =
    b"\x15\x0c\x19\x35\x00\x06\x10\x19\x18\x01x\x15\x00\x16\x08\x16\x6e\x16\x6e\x26\x42\x26\x08\x00";

fn texts_type(alloc: Global) -> Result<DataType> {
    let entries = Box::new(alloc, DataType::Utf8)?;
    Ok(DataType::Dictionary(IntegerType::Int32, entries, false))
}

fn schema(alloc: Global) -> Result<Schema> {
    schema_of(alloc, field(alloc, "x", texts_type(alloc)?, true)?)
}

// The keys 1, null, 0 and 2.
fn keys(alloc: Global) -> Result<PrimitiveArray<i32>> {
    let mask = Bitmap::from_slice(alloc, &[true, false, true, true])?;
    let keys = [1, 0, 0, 2].as_slice().to_vec(alloc)?;
    PrimitiveArray::try_new(alloc, DataType::Int32, keys, Some(mask))
}

// The texts "a" and "bc", and a null.
fn entries(alloc: Global) -> Result<Utf8Array<i32>> {
    let mask = Bitmap::from_slice(alloc, &[true, true, false])?;
    let offsets = OffsetsBuffer::<i32>::try_from_vec([0, 1, 3, 3].as_slice().to_vec(alloc)?)?;
    let values = b"abc".as_slice().to_vec(alloc)?;
    Utf8Array::try_new(alloc, DataType::Utf8, offsets, values, Some(mask))
}

// The rows "bc", null, "a" and null.
fn texts(alloc: Global) -> Result<ArrayBox> {
    let keys = DictionaryKeys::Int32(keys(alloc)?);
    let entries = ArrayBox::Utf8(entries(alloc)?);
    let array = DictionaryArray::try_new(alloc, texts_type(alloc)?, keys, entries)?;
    Ok(ArrayBox::Dictionary(array))
}

fn group(alloc: Global, from: &[ParquetType]) -> Result<RowGroupIter> {
    let chunk = Chunk::try_new(Vec::from_array(alloc, [texts(alloc)?])?)?;
    let names = Vec::from_array(alloc, [Encoding::RleDictionary])?;
    let encodings = Vec::from_array(alloc, [names])?;
    row_group_iter(alloc, chunk, encodings, trees(alloc, from, 1)?, V1)
}

// The writer, behind the end of a file of one group.
fn ended(alloc: Global) -> Result<FileWriter<PlainSink>> {
    let sink = PlainSink::new(alloc);
    let mut writer = FileWriter::try_new(alloc, sink, schema(alloc)?, V1)?;
    let group = group(alloc, writer.parquet_schema().fields())?;
    writer.write(group)?;
    writer.end(None, &PlainCodec)?;
    Ok(writer)
}

fn file(alloc: Global) -> Result<PlainSink> {
    Ok(ended(alloc)?.into_inner())
}

// Both pages, each behind its header.
fn pages(alloc: Global) -> Result<Vec<u8>> {
    let mut pages = Vec::from_slice(alloc, FRONT)?;
    for part in [ENTRIES, HEADER, BODY] {
        pages.extend_from_slice(part)?;
    }
    Ok(pages)
}

#[test]
fn the_entries_stand_before_the_keys(rt: HostRuntime) -> Result<()> {
    let alloc = rt.alloc();
    let sink = file(alloc)?;
    assert!(rt; sink.bytes().starts_with(pages(alloc)?.as_slice()));
    Ok(())
}

#[test]
fn the_footer_states_both_pages(rt: HostRuntime) -> Result<()> {
    let alloc = rt.alloc();
    let sink = file(alloc)?;
    let is_stated = sink
        .bytes()
        .windows(COLUMN.len())
        .any(|bytes| bytes == COLUMN);
    assert!(rt; is_stated);
    Ok(())
}

// Whether the pages lie where they were written.
fn has_places(column: &ColumnChunkMetaData) -> bool {
    column.dictionary_page_offset == Some(4)
        && column.data_page_offset == 33
        && column.total_compressed_size == 55
        && column.num_values == 4
}

#[test]
fn the_dictionary_page_is_read_again(rt: HostRuntime) -> Result<()> {
    let alloc = rt.alloc();
    let sink = file(alloc)?;
    let metadata = read_metadata(alloc, sink.bytes())?;
    let groups = metadata.row_groups.as_slice();
    let is_one = match groups {
        [group] => match group.columns.as_slice() {
            [column] => group.num_rows == 4 && has_places(column),
            _ => false,
        },
        _ => false,
    };
    assert!(rt; is_one);
    Ok(())
}

// The footer of this metadata, its length, and what a file ends with.
fn foot(alloc: Global, metadata: &ThriftFileMetaData) -> Result<Vec<u8>> {
    let mut foot = Vec::new(alloc);
    write_metadata(metadata, &mut foot)?;
    let Ok(length) = u32::try_from(foot.len()) else {
        return Err(Error::Overflow(V::V3));
    };
    foot.extend_from_slice(&length.to_le_bytes())?;
    foot.extend_from_slice(b"PAR1")?;
    Ok(foot)
}

#[test]
fn the_metadata_is_what_the_footer_states(rt: HostRuntime) -> Result<()> {
    let alloc = rt.alloc();
    let (sink, metadata) = ended(alloc)?.into_inner_and_metadata();
    assert!(rt; metadata.num_rows == 4 && metadata.row_groups.len() == 1);
    assert!(rt; sink.bytes().ends_with(foot(alloc, &metadata)?.as_slice()));
    Ok(())
}
