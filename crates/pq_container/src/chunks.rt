//! Row groups and their columns, each from its Thrift struct.
ghost use Rattle.std.specs.Prelude.{◌≡◌, ℕ, List, [], IfOk, IfErr, OnErr, None, All, map};
ghost use Rattle.std.specs.Option.{option_copied};
ghost use Rattle.columns_base.specs.declared.error.Error.TheVariants.{OutOfSpec};
ghost use Rattle.columns_base.specs.declared.error.S.TheVariants.{S1};
ghost use Rattle.pq_thrift.specs.Value.{view, values_view, fields_view};
ghost use Rattle.pq_tree.specs.Described.{IsDescribed, GroupsAreDescribed};
ghost use Rattle.pq_metadata.specs.Footer.{SpellsChunk, SpellsGroup};
ghost use Rattle.pq_metadata.specs.Ids.{Each};
ghost use Rattle.pq_container.specs.RawChunk.{HasNumbers, HasPlace};
ghost use Rattle.pq_tree.specs.Reads.{HasNone, Refuses};
ghost use Rattle.pq_tree.specs.Views.{chunk_view, group_view};

use crate::fields::{
    check_absent, last_with, needed_i32, needed_i64, needed_list, needed_struct, optional_i16,
    optional_i64, optional_text,
};
use crate::kinds::as_struct;
use crate::misfit::Misfit;
use crate::statistics::{check_binaries, check_numbers, statistics_from};
use crate::texts::owned_text;
use columns_base::{Error, S};
use pq_thrift::Thrift;
use pq_tree::{ColumnChunkMetaData, RowGroupMetaData};
use std::alloc::Global;

/// The numbers of a column's metadata.
#[derive(Clone, Copy)]
pub struct ColumnNumbers {
    pub physical_type: i32,
    pub codec: i32,
    pub num_values: i64,
    pub total_compressed_size: i64,
    pub data_page_offset: i64,
    pub dictionary_page_offset: Option<i64>,
}

/// The column's metadata but for its statistics.
fn column_from(fields: &[(i16, Thrift)]) -> Result<ColumnNumbers, Misfit>
    ensures found { IfOk result (HasNumbers (fields_view fields.now)) }
    ensures refused { OnErr result (HasNone (HasNumbers (fields_view fields.now))) }
{
    let physical_type = needed_i32(fields, 1)?;
    check_numbers(last_with(fields, 2))?;
    check_binaries(last_with(fields, 3))?;
    let codec = needed_i32(fields, 4)?;
    let num_values = needed_i64(fields, 5)?;
    let _total_uncompressed_size = optional_i64(fields, 6)?;
    let total_compressed_size = needed_i64(fields, 7)?;
    let data_page_offset = needed_i64(fields, 9)?;
    let dictionary_page_offset = optional_i64(fields, 11)?;
    Ok(ColumnNumbers {
        physical_type,
        codec,
        num_values,
        total_compressed_size,
        data_page_offset,
        dictionary_page_offset,
    })
}

/// The place of a column's metadata, and the file that it lies in.
fn place_from(fields: &[(i16, Thrift)]) -> Result<(Option<&str>, &[(i16, Thrift)]), Misfit>
    ensures found { IfOk result (λ p. HasPlace (fields_view fields.now) (option_copied p.0, fields_view p.1.now)) }
    ensures refused { OnErr result (HasNone (HasPlace (fields_view fields.now))) }
{
    let file_path = optional_text(fields, 1)?;
    let _file_offset = optional_i64(fields, 2)?;
    let metadata = needed_struct(fields, 3)?;
    check_absent(fields, 8)?;
    check_absent(fields, 9)?;
    Ok((file_path, metadata))
}

/// What the struct says of a column, without a descriptor. `OutOfSpec(S1)` where it is no `ColumnChunk`.
pub fn chunk_from(alloc: Global, value: &Thrift) -> Result<ColumnChunkMetaData, Error>
    ensures found { IfOk result (λ c. SpellsChunk (view value.now) (chunk_view c)) }
    ensures bare { IfOk result (λ c. c.descriptor ≡ None) }
    ensures refused { IfErr result (Refuses (OutOfSpec S1) (SpellsChunk (view value.now))) }
{
    let Some(fields) = as_struct(value) else {
        return Err(Error::OutOfSpec(S::S1));
    };
    let (file_path, metadata) = place_from(fields)?;
    let column = column_from(metadata)?;
    let statistics = statistics_from(alloc, last_with(metadata, 12))?;
    Ok(ColumnChunkMetaData {
        descriptor: None,
        physical_type: column.physical_type,
        file_path: owned_text(alloc, file_path)?,
        codec: column.codec,
        num_values: column.num_values,
        total_compressed_size: column.total_compressed_size,
        data_page_offset: column.data_page_offset,
        dictionary_page_offset: column.dictionary_page_offset,
        statistics,
    })
}

#[tactic(auto, using(crate::proofs::Eachs::each_next, crate::proofs::Eachs::each_refused))]
fn chunks_from(alloc: Global, values: &[Thrift]) -> Result<Vec<ColumnChunkMetaData>, Error>
    ensures found { IfOk result (λ cs. Each SpellsChunk (values_view values.now) (map chunk_view cs.items)) }
    ensures bare { IfOk result (λ cs. All (λ c. c.descriptor ≡ None) cs.items) }
    ensures refused { IfErr result (Refuses (OutOfSpec S1) (Each SpellsChunk (values_view values.now))) }
{
    let mut chunks = Vec::new(alloc);
    for value in values {
        chunks.push(chunk_from(alloc, value)?)?;
    }
    Ok(chunks)
}

/// What the struct says of a row group, whose chunks have no descriptors. `OutOfSpec(S1)` where it
/// is no `RowGroup`.
pub fn group_from(alloc: Global, value: &Thrift) -> Result<RowGroupMetaData, Error>
    ensures found { IfOk result (λ g. SpellsGroup (view value.now) (group_view g)) }
    ensures described { IfOk result (IsDescribed []) }
    ensures refused { IfErr result (Refuses (OutOfSpec S1) (SpellsGroup (view value.now))) }
{
    let Some(fields) = as_struct(value) else {
        return Err(Error::OutOfSpec(S::S1));
    };
    let columns = needed_list(fields, 1)?;
    let _total_byte_size = optional_i64(fields, 2)?;
    let num_rows = needed_i64(fields, 3)?;
    let _file_offset = optional_i64(fields, 5)?;
    let _total_compressed_size = optional_i64(fields, 6)?;
    let _ordinal = optional_i16(fields, 7)?;
    let columns = chunks_from(alloc, columns)?;
    Ok(RowGroupMetaData { columns, num_rows })
}

/// The row groups that the structs spell, one by one. No chunk has a descriptor.
#[tactic(auto, using(crate::proofs::Eachs::each_next, crate::proofs::Eachs::each_refused))]
pub fn groups_from(alloc: Global, values: &[Thrift]) -> Result<Vec<RowGroupMetaData>, Error>
    ensures found { IfOk result (λ gs. Each SpellsGroup (values_view values.now) (map group_view gs.items)) }
    ensures described { IfOk result (λ gs. GroupsAreDescribed [] gs.items) }
    ensures refused { IfErr result (Refuses (OutOfSpec S1) (Each SpellsGroup (values_view values.now))) }
{
    let mut groups = Vec::new(alloc);
    for value in values {
        groups.push(group_from(alloc, value)?)?;
    }
    Ok(groups)
}
