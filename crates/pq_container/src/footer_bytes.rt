//! A footer in the usual spelling, read from its bytes with no Thrift value of its row groups.
ghost use Rattle.std.specs.Prelude.{◌≡◌, ℕ, ℤ, pos, List, Option, [], IfOk, IfSome, None, All, map, string_bytes};
ghost use Rattle.pq_numbers.specs.Texts.{Begins};
ghost use Rattle.pq_thrift.specs.Grammar.{IsListHead, AreFields};
ghost use Rattle.pq_thrift.specs.Value.{int32, binary};
ghost use Rattle.pq_metadata.specs.Elements.{SpellsNode};
ghost use Rattle.pq_metadata.specs.FlatFooter.{SpellsFlatRecord};
ghost use Rattle.pq_metadata.specs.Footer.{SpellsChunk, SpellsGroup};
ghost use Rattle.pq_tree.specs.Described.{IsDescribed, GroupsAreDescribed};
ghost use Rattle.pq_tree.specs.Views.{chunk_view, group_view, element_view, flat_view};
ghost use Rattle.pq_container.specs.Ahead.{Fronts, FrontsBehind, IsLong, FrontsSaying, FrontsStruct, FrontsValues};
ghost use Rattle.pq_container.specs.Ahead.{place_field, SaysColumn, rows_fields, created_field};
ghost use Rattle.pq_container.specs.Ahead.{FrontsSchema, FrontsGroups, FrontsGroupsHead};
ghost use Rattle.pq_container.specs.Raw.{SpellsRootAs};

use crate::chunks::ColumnNumbers;
use crate::elements::{element_from, root_from};
use crate::straight::{behind, first, number, number_field, past_text};
use columns_base::{Error, S};
use pq_numbers::from_zigzag;
use pq_thrift::read_thrift;
use pq_tree::{ColumnChunkMetaData, FlatFooter, RowGroupMetaData, SchemaElement};
use std::alloc::Global;

/// The number of 64 bits in the field with this head, and what stands behind it.
fn long_field(head: u8, bytes: &[u8]) -> Option<(i64, &[u8])>
    ensures { IfSome result (λ x. FrontsBehind head (IsLong x.0) bytes.now x.1.now) }
{
    let rest = behind(head, bytes)?;
    let (number, rest) = number(rest)?;
    Some((from_zigzag(number), rest))
}

/// How many elements the list in the field with this head has, where the number of their type is
/// `kind`, and what stands behind its head.
fn list_field(head: u8, kind: u8, bytes: &[u8]) -> Option<(u64, &[u8])>
    ensures { IfSome result (λ x. FrontsBehind head (λ t. IsListHead t kind x.0) bytes.now x.1.now) }
{
    let list = behind(head, bytes)?;
    let (byte, rest) = first(list)?;
    let elements = byte % 16;
    if elements != kind {
        return None;
    }
    if byte < 240 {
        return Some(((byte / 16) as u64, rest));
    }
    let (count, behind_count) = number(rest)?;
    Some((count, behind_count))
}

/// What stands behind so many numbers of 32 bits, where they are few.
fn past_numbers(count: u64, bytes: &[u8]) -> Option<&[u8]>
    ensures { IfSome result (λ rest. (zs : List ℤ)
        × FrontsValues (λ v z. v ≡ int32 z) 5 1 count zs bytes.now rest.now) }
{
    if count == 0 {
        return Some(bytes);
    }
    if count > 15 {
        return None;
    }
    let (number, rest) = number(bytes)?;
    if number >= 1 << 32 {
        return None;
    }
    past_numbers(count - 1, rest)
}

/// What stands behind so many byte strings, where they are few.
fn past_texts(count: u64, bytes: &[u8]) -> Option<&[u8]>
    ensures { IfSome result (λ rest. (texts : List (List ℕ))
        × FrontsValues (λ v s. v ≡ binary s) 8 1 count texts bytes.now rest.now) }
{
    if count == 0 {
        return Some(bytes);
    }
    if count > 15 {
        return None;
    }
    let rest = past_text(bytes)?;
    past_texts(count - 1, rest)
}

/// The place of a dictionary page, if one is stated, and what stands behind it and the end of the struct.
fn dictionary_field(bytes: &[u8]) -> Option<(Option<i64>, &[u8])>
    ensures { IfSome result (λ x. Fronts (AreFields (place_field x.0) (pos 9)) bytes.now x.1.now) }
{
    let (head, rest) = first(bytes)?;
    if head == 0 {
        return Some((None, rest));
    }
    let (place, rest) = long_field(38, bytes)?;
    let rest = behind(0, rest)?;
    Some((Some(place), rest))
}

/// The struct of a column without statistics (Parquet format, `ColumnMetaData`), and what stands behind it.
fn column(bytes: &[u8]) -> Option<(ColumnNumbers, &[u8])>
    ensures { IfSome result (λ x. FrontsSaying SaysColumn 2 x.0 bytes.now x.1.now) }
{
    let (physical_type, rest) = number_field(21, bytes)?;
    let (encodings, rest) = list_field(25, 5, rest)?;
    let rest = past_numbers(encodings, rest)?;
    let (names, rest) = list_field(25, 8, rest)?;
    let rest = past_texts(names, rest)?;
    let (codec, rest) = number_field(21, rest)?;
    let (num_values, rest) = long_field(22, rest)?;
    let (_, rest) = long_field(22, rest)?;
    let (total_compressed_size, rest) = long_field(22, rest)?;
    let (data_page_offset, rest) = long_field(38, rest)?;
    let (dictionary_page_offset, rest) = dictionary_field(rest)?;
    let column = ColumnNumbers {
        physical_type,
        codec,
        num_values,
        total_compressed_size,
        data_page_offset,
        dictionary_page_offset,
    };
    Some((column, rest))
}

/// A column (Parquet format, `ColumnChunk`), without a descriptor, and what stands behind it.
fn chunk(bytes: &[u8]) -> Option<(ColumnChunkMetaData, &[u8])>
    ensures found { IfSome result (λ x. FrontsStruct SpellsChunk 4 (chunk_view x.0) bytes.now x.1.now) }
    ensures bare { IfSome result (λ x. x.0.descriptor ≡ None) }
{
    let (_, rest) = long_field(38, bytes)?;
    let rest = behind(28, rest)?;
    let (column, rest) = column(rest)?;
    let rest = behind(0, rest)?;
    let chunk = ColumnChunkMetaData {
        descriptor: None,
        physical_type: column.physical_type,
        file_path: None,
        codec: column.codec,
        num_values: column.num_values,
        total_compressed_size: column.total_compressed_size,
        data_page_offset: column.data_page_offset,
        dictionary_page_offset: column.dictionary_page_offset,
        statistics: None,
    };
    Some((chunk, rest))
}

/// So many columns, and what stands behind them.
fn chunks(
    alloc: Global,
    count: u64,
    bytes: &[u8],
) -> Result<(Vec<ColumnChunkMetaData>, &[u8]), Error>
    ensures found { IfOk result (λ x. FrontsValues SpellsChunk 12 4 count (map chunk_view x.0.items)
        bytes.now x.1.now) }
    ensures bare { IfOk result (λ x. All (λ c. c.descriptor ≡ None) x.0.items) }
{
    let mut chunks = Vec::new(alloc);
    let mut rest = bytes;
    'chunks: for _ in 0..count {
        let Some((read, after)) = chunk(rest) else {
            return Err(Error::OutOfSpec(S::S1));
        };
        chunks.push(read)?;
        rest = after;
    }
    Ok((chunks, rest))
}

/// The number of a group's rows, behind its columns, and what stands behind its struct.
fn rows(bytes: &[u8]) -> Option<(i64, &[u8])>
    ensures { IfSome result (λ x. (size : ℤ) × Fronts (AreFields (rows_fields size x.0) (pos 1)) bytes.now x.1.now) }
{
    let (_, rest) = long_field(22, bytes)?;
    let (num_rows, rest) = long_field(22, rest)?;
    let rest = behind(0, rest)?;
    Some((num_rows, rest))
}

/// A row group (Parquet format, `RowGroup`), and what stands behind it.
fn group(alloc: Global, bytes: &[u8]) -> Result<(RowGroupMetaData, &[u8]), Error>
    ensures found { IfOk result (λ x. FrontsStruct SpellsGroup 6 (group_view x.0) bytes.now x.1.now) }
    ensures described { IfOk result (λ x. IsDescribed [] x.0) }
{
    let Some((count, list)) = list_field(25, 12, bytes) else {
        return Err(Error::OutOfSpec(S::S1));
    };
    let (columns, tail) = chunks(alloc, count, list)?;
    let Some((num_rows, rest)) = rows(tail) else {
        return Err(Error::OutOfSpec(S::S1));
    };
    Ok((RowGroupMetaData { columns, num_rows }, rest))
}

/// So many row groups, and what stands behind them.
fn groups(alloc: Global, count: u64, bytes: &[u8]) -> Result<(Vec<RowGroupMetaData>, &[u8]), Error>
    ensures found { IfOk result (λ x. FrontsValues SpellsGroup 12 6 count (map group_view x.0.items)
        bytes.now x.1.now) }
    ensures described { IfOk result (λ x. GroupsAreDescribed [] x.0.items) }
{
    let mut groups = Vec::new(alloc);
    let mut rest = bytes;
    'groups: for _ in 0..count {
        let (read, after) = group(alloc, rest)?;
        groups.push(read)?;
        rest = after;
    }
    Ok((groups, rest))
}

/// The root's name and the number of its children, where its struct takes at most a hundred bytes
/// and so nests no deeper, and what stands behind it.
fn root(alloc: Global, bytes: &[u8]) -> Result<((String, usize), &[u8]), Error>
    ensures { IfOk result (λ x. FrontsStruct SpellsRootAs 100 (string_bytes x.0.0, x.0.1) bytes.now x.1.now) }
{
    let (value, size) = read_thrift(alloc, bytes)?;
    if size > 100 {
        return Err(Error::OutOfSpec(S::S1));
    }
    let (_, rest) = bytes.split_at(size);
    let root = root_from(alloc, &value)?;
    Ok((root, rest))
}

/// A node, in the same way.
fn element(alloc: Global, bytes: &[u8]) -> Result<(SchemaElement, &[u8]), Error>
    ensures { IfOk result (λ x. FrontsStruct SpellsNode 100 (element_view x.0) bytes.now x.1.now) }
{
    let (value, size) = read_thrift(alloc, bytes)?;
    if size > 100 {
        return Err(Error::OutOfSpec(S::S1));
    }
    let (_, rest) = bytes.split_at(size);
    let element = element_from(alloc, &value)?;
    Ok((element, rest))
}

/// So many nodes, and what stands behind them.
fn elements(alloc: Global, count: u64, bytes: &[u8]) -> Result<(Vec<SchemaElement>, &[u8]), Error>
    ensures { IfOk result (λ x. FrontsValues SpellsNode 12 100 count (map element_view x.0.items)
        bytes.now x.1.now) }
{
    let mut elements = Vec::new(alloc);
    let mut rest = bytes;
    'elements: for _ in 0..count {
        let (read, after) = element(alloc, rest)?;
        elements.push(read)?;
        rest = after;
    }
    Ok((elements, rest))
}

/// The root's name and the number of its children, the nodes behind it, and what stands behind these.
fn schema(
    alloc: Global,
    bytes: &[u8],
) -> Result<((String, usize), Vec<SchemaElement>, &[u8]), Error>
    ensures { IfOk result (λ x. FrontsSchema (string_bytes x.0.0, x.0.1, map element_view x.1.items)
        bytes.now x.2.now) }
{
    let Some((count, list)) = list_field(25, 12, bytes) else {
        return Err(Error::OutOfSpec(S::S1));
    };
    if count == 0 {
        return Err(Error::OutOfSpec(S::S1));
    }
    let (root, others) = root(alloc, list)?;
    let (nodes, rest) = elements(alloc, count - 1, others)?;
    Ok((root, nodes, rest))
}

/// What stands behind the end of a struct, or behind the writer's name and that end.
fn created(bytes: &[u8]) -> Option<&[u8]>
    ensures { IfSome result (λ rest. (o : Option (List ℕ))
        × Fronts (AreFields (created_field o) (pos 4)) bytes.now rest.now) }
{
    let (head, rest) = first(bytes)?;
    if head == 0 {
        return Some(rest);
    }
    if head != 40 {
        return None;
    }
    let rest = past_text(rest)?;
    behind(0, rest)
}

/// How many row groups a footer has, behind its schema, and where they stand.
fn groups_head(bytes: &[u8]) -> Option<(u64, &[u8])>
    ensures { IfSome result (λ x. FrontsGroupsHead x.0 bytes.now x.1.now) }
{
    let (_, rest) = long_field(22, bytes)?;
    let (count, list) = list_field(25, 12, rest)?;
    Some((count, list))
}

/// The row groups of a footer, behind its schema, where no more than the writer's name follows them.
fn groups_field(alloc: Global, bytes: &[u8]) -> Result<Vec<RowGroupMetaData>, Error>
    ensures found { IfOk result (λ gs. (rest : List ℕ) × FrontsGroups (map group_view gs.items) bytes.now rest) }
    ensures described { IfOk result (λ gs. GroupsAreDescribed [] gs.items) }
{
    let Some((count, list)) = groups_head(bytes) else {
        return Err(Error::OutOfSpec(S::S1));
    };
    let (row_groups, tail) = groups(alloc, count, list)?;
    let Some(_rest) = created(tail) else {
        return Err(Error::OutOfSpec(S::S1));
    };
    Ok(row_groups)
}

/// The footer (Parquet format, `FileMetaData`), where its fields and those of its groups and columns
/// stand in ascending order, each with a head of one byte, with no keys and no statistics, and with
/// no other field that a reader leaves out than sizes, encodings, paths and the writer's name. An
/// error where it has another spelling, or memory ran out; it says nothing of the footer.
pub fn straight_footer(alloc: Global, bytes: &[u8]) -> Result<FlatFooter, Error>
    ensures found { IfOk result (λ f. Begins SpellsFlatRecord bytes.now (flat_view f)) }
    ensures described { IfOk result (λ f. GroupsAreDescribed [] f.row_groups.items) }
{
    let Some((_, nodes)) = number_field(21, bytes) else {
        return Err(Error::OutOfSpec(S::S1));
    };
    let (root, elements, rest) = schema(alloc, nodes)?;
    let row_groups = groups_field(alloc, rest)?;
    let (name, num_children) = root;
    Ok(FlatFooter {
        name,
        num_children,
        elements,
        row_groups,
        key_value_metadata: Vec::new(alloc),
    })
}
