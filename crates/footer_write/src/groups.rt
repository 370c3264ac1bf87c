//! Row groups and their columns, appended as they are spelled.
ghost use Rattle.std.specs.Prelude.{IfOk, OnOk, map};
ghost use Rattle.pq_thrift.specs.Value.{struct, values_of};
ghost use Rattle.pq_files.specs.Written.{column_value, chunk_value, group_value, structs};
ghost use Rattle.footer_write.specs.FooterView.{column_view, chunk_view, row_group_view};
ghost use Rattle.thrift_fields.specs.Appended.{AppendsField, AppendsValue, AppendsValues};

use crate::types::{ThriftColumnChunk, ThriftColumnMetaData, ThriftRowGroup};
use std::alloc::AllocError;
use thrift_fields::{
    push_i32, push_i64, push_list_head, push_numbers, push_some_i16, push_some_i64,
    push_some_statistics, push_struct_head, push_texts,
};

// The metadata of a column as a struct.
fn push_column(out: &mut Vec<u8>, column: &ThriftColumnMetaData) -> Result<(), AllocError>
    ensures { OnOk result (AppendsValue (column_value (column_view column.now)) out.old.items out.new.items) }
{
    push_i32(out, 0, 1, &column.type_)?;
    push_numbers(out, 1, 2, &column.encodings)?;
    push_texts(out, 2, 3, &column.path_in_schema)?;
    push_i32(out, 3, 4, &column.codec)?;
    push_i64(out, 4, 5, &column.num_values)?;
    push_i64(out, 5, 6, &column.total_uncompressed_size)?;
    push_i64(out, 6, 7, &column.total_compressed_size)?;
    push_i64(out, 7, 9, &column.data_page_offset)?;
    let last = push_some_i64(out, 9, 11, column.dictionary_page_offset)?;
    push_some_statistics(out, last, 12, &column.statistics)?;
    out.push(0)?;
    Ok(())
}

// A column as a struct.
fn push_chunk(out: &mut Vec<u8>, chunk: &ThriftColumnChunk) -> Result<(), AllocError>
    ensures { OnOk result (AppendsValue (chunk_value (chunk_view chunk.now)) out.old.items out.new.items) }
{
    push_i64(out, 0, 2, &chunk.file_offset)?;
    push_struct_head(out, 2, 3)?;
    push_column(out, &chunk.meta_data)?;
    out.push(0)?;
    Ok(())
}

// Columns, one behind the other.
fn push_each_chunk(out: &mut Vec<u8>, chunks: &[ThriftColumnChunk]) -> Result<(), AllocError>
    ensures { OnOk result
        (AppendsValues (values_of (map chunk_value (map chunk_view chunks.now))) out.old.items out.new.items) }
{
    'chunks: for chunk in chunks {
        push_chunk(out, chunk)?;
    }
    Ok(())
}

// The columns of a group as a list with the id, behind a field with the id `last`.
fn push_chunks(
    out: &mut Vec<u8>,
    last: u8,
    id: u8,
    chunks: &Vec<ThriftColumnChunk>,
) -> Result<(), AllocError>
    ensures { OnOk result (AppendsField last id
        (structs (map chunk_value (map chunk_view chunks.now.items))) out.old.items out.new.items) }
{
    push_list_head(out, last, id, 12, chunks.len())?;
    push_each_chunk(out, chunks)?;
    Ok(())
}

// A row group as a struct.
fn push_group(out: &mut Vec<u8>, group: &ThriftRowGroup) -> Result<(), AllocError>
    ensures { OnOk result (AppendsValue (group_value (row_group_view group.now)) out.old.items out.new.items) }
{
    push_chunks(out, 0, 1, &group.columns)?;
    push_i64(out, 1, 2, &group.total_byte_size)?;
    push_i64(out, 2, 3, &group.num_rows)?;
    push_i64(out, 3, 5, &group.file_offset)?;
    push_i64(out, 5, 6, &group.total_compressed_size)?;
    push_some_i16(out, 6, 7, group.ordinal)?;
    out.push(0)?;
    Ok(())
}

// Row groups, one behind the other.
fn push_each_group(out: &mut Vec<u8>, groups: &[ThriftRowGroup]) -> Result<(), AllocError>
    ensures { OnOk result
        (AppendsValues (values_of (map group_value (map row_group_view groups.now))) out.old.items out.new.items) }
{
    'groups: for group in groups {
        push_group(out, group)?;
    }
    Ok(())
}

/// Appends the row groups as a list of structs with the id, behind a field with the id `last`.
pub fn push_groups(
    out: &mut Vec<u8>,
    last: u8,
    id: u8,
    groups: &Vec<ThriftRowGroup>,
) -> Result<(), AllocError>
    ensures { OnOk result (AppendsField last id
        (structs (map group_value (map row_group_view groups.now.items))) out.old.items out.new.items) }
{
    push_list_head(out, last, id, 12, groups.len())?;
    push_each_group(out, groups)?;
    Ok(())
}
