//! A file of one column with a dictionary page, by hand (Parquet format, "Dictionary Page"; parquet.thrift).
ghost use Rattle.std.specs.Prelude.{IfOk};
ghost use Rattle.pq_pages.specs.Outcomes.{HasLevels};

use crate::one_column::leaf;
use columns_base::{A, Error, PhysicalType, Result};
use pq_io::PlainSink;
use pq_pages::{DataPage, DictPage};
use pq_tree::{
    DataPageHeader, DataPageHeaderV1, Descriptor, Encoding, ParquetType, PrimitiveType, Repetition,
    SchemaDescriptor, Statistics, Version,
};
use std::alloc::Global;
use write_file::{ChunkPages, FileBody};

/// The entries "a" and "bc", each behind its length.
const ENTRIES: &[u8] = b"\x01\x00\x00\x00a\x02\x00\x00\x00bc";

/// The indices 1, 0, 1: their width, and a packed run of eight.
const INDICES: &[u8] = &[1, 3, 0b101];

/// What a file begins with, and at place 4 the header of the dictionary page: type 2, two sizes of 11 bytes, two entries, encoding 0, not sorted.
const FRONT: &[u8] = b"PAR1\x15\x04\x15\x16\x15\x16\x4c\x15\x04\x15\x00\x12\x00\x00";

/// The header of the data page at place 29: type 0, two sizes of 3 bytes, three pairs, encoding 8, levels in encoding 3.
const HEADER: &[u8] = b"\x15\x00\x15\x06\x15\x06\x2c\x15\x06\x15\x10\x15\x06\x15\x06\x00\x00";

/// The footer: version 1, the root and the required leaf x of byte arrays, three rows, and one group of one column. Of the column the start 4, the
/// encodings 0, 3 and 8, three pairs, both sizes of 45 bytes, the data pages at 29, and the dictionary page at 4; then the group's, the writer's name and the order.
const FOOTER: &[u8] =
    b"\x15\x02\x19\x2c\x48\x04root\x15\x02\x00\x15\x0c\x25\x00\x18\x01x\x00\x16\x06\x19\x1c\x19\x1c\x26\x08\x1c\x15\x0c\x19\x35\x00\x06\x10\x19\x18\x01x\x15\x00\x16\x06\x16\x5a\x16\x5a\x26\x3a\x26\x08\x00\x00\x16\x5a\x16\x06\x26\x08\x16\x5a\x14\x00\x00\x28\x2cArrow2 - Native Rust implementation of Arrow\x19\x1c\x1c\x00\x00\x00";

/// The length of the footer, and what a file ends with.
const END: &[u8] = b"\x76\x00\x00\x00PAR1";

/// A column of one data page, behind its dictionary page.
#[derive(Drop)]
struct TextColumn {
    dictionary: Option<DictPage>,
    page: Option<DataPage>,
    statistics: Option<Statistics>,
}

// Nothing is said here of the chunk that it gives: its bytes are compared.
impl ChunkPages for TextColumn {
    ghost use Rattle.std.specs.Prelude.{◌≡◌, cond, is_some};
    ghost use Rattle.columns_base.specs.declared.error.Error.TheVariants.{Memory};

    ghost gives = { λ s version l c. ⊥ };

    ghost begins = { λ s version l c. ⊥ };

    ghost left = { λ s. cond (is_some s.page) 1 0 };

    ghost refuses = { λ s e. e ≡ Memory };

    fn dictionary_page(&mut self) -> Result<Option<DictPage>> {
        Ok(self.dictionary.take())
    }

    fn next_page(&mut self) -> Option<Result<DataPage>> {
        match self.page.take() {
            Some(page) => Some(Ok(page)),
            None => None,
        }
    }

    fn encoding(&self) -> Encoding {
        Encoding::RleDictionary
    }

    fn statistics(&self) -> &Option<Statistics> {
        &self.statistics
    }
}

fn schema(alloc: Global) -> Result<SchemaDescriptor> {
    let fields = Vec::from_array(
        alloc,
        [ParquetType::PrimitiveType(leaf(alloc, Repetition::Required, PhysicalType::ByteArray)?)],
    )?;
    SchemaDescriptor::new(alloc, String::from_str(alloc, "root")?, fields)
}

fn descriptor(alloc: Global) -> Result<Descriptor>
    ensures { IfOk result HasLevels }
{
    Ok(Descriptor {
        primitive_type: leaf(alloc, Repetition::Required, PhysicalType::ByteArray)?,
        max_def_level: 0,
        max_rep_level: 0,
    })
}

// "bc", "a" and "bc".
fn page(alloc: Global) -> Result<DataPage> {
    let header = DataPageHeaderV1 {
        num_values: 3,
        encoding: 8,
        definition_level_encoding: Some(3),
        repetition_level_encoding: Some(3),
        statistics: None,
    };
    let body = Vec::from_slice(alloc, INDICES)?;
    Ok(DataPage::new(
        DataPageHeader::V1(header),
        body,
        descriptor(alloc)?,
        Some(3),
    ))
}

fn texts(alloc: Global) -> Result<TextColumn> {
    Ok(TextColumn {
        dictionary: Some(DictPage::new(Vec::from_slice(alloc, ENTRIES)?, 2, false)),
        page: Some(page(alloc)?),
        statistics: None,
    })
}

// The bytes of the file.
fn file(alloc: Global) -> Result<Vec<u8>> {
    let mut file = Vec::from_slice(alloc, FRONT)?;
    for part in [ENTRIES, HEADER, INDICES, FOOTER, END] {
        file.extend_from_slice(part)?;
    }
    Ok(file)
}

// Pushes a group of the columns to a file that has as many.
fn push(body: &mut FileBody<PlainSink>, columns: Vec<TextColumn>) -> Result<()> {
    let leaves = &body.leaves;
    if leaves.physicals.len() != columns.len() || leaves.paths.len() != columns.len() {
        return Err(Error::InvalidArgumentError(A::A8));
    }
    body.write_group(columns, 3)
}

#[test]
fn the_dictionary_page_stands_first(rt: HostRuntime) -> Result<()> {
    let alloc = rt.alloc();
    let sink = PlainSink::new(alloc);
    let mut body = FileBody::try_new(alloc, sink, schema(alloc)?, Version::V1)?;
    push(&mut body, Vec::from_array(alloc, [texts(alloc)?])?)?;
    let size = body.write_footer(None)?;
    assert!(rt; size == 175);
    assert!(rt; body.writer.bytes() == file(alloc)?.as_slice());
    Ok(())
}
