//! The columns of chunks, by their places.
ghost use Rattle.std.specs.Prelude.{◌≡◌, ◌<◌, ◌≤◌, OnOk, IfOk, IfErr, All, map, length, slice_get, option_map};
ghost use Rattle.std.specs.Option.{option_copied};
ghost use Rattle.columns_base.specs.declared.error.Error.TheVariants.{Memory};
ghost use Rattle.pq_tree.specs.Described.{column_view, AreDescribed, GroupsAreDescribed};
ghost use Rattle.pq_tree.specs.Views.{chunk_view, group_view};

use crate::types::{ColumnChunkMetaData, Descriptor, RowGroupMetaData};
use columns_base::Error;
use std::alloc::Global;

fn descriptor_at(
    alloc: Global,
    columns: &[Descriptor],
    place: usize,
) -> Result<Option<Descriptor>, Error>
    ensures found { IfOk result (λ d. option_map column_view d ≡ slice_get (map column_view columns.now) place) }
    ensures refused { IfErr result (λ e. e ≡ Memory) }
{
    match columns.get(place) {
        Some(column) => Ok(Some(column.clone(alloc)?)),
        None => Ok(None),
    }
}

fn describe_chunks(
    alloc: Global,
    chunks: &mut Vec<ColumnChunkMetaData>,
    columns: &[Descriptor],
) -> Result<(), Error>
    ensures same { OnOk result (map chunk_view chunks.new.items ≡ map chunk_view chunks.old.items) }
    ensures described { OnOk result (AreDescribed (map column_view columns.now) chunks.new.items) }
    ensures refused { IfErr result (λ e. e ≡ Memory) }
{
    for (place, chunk) in chunks.iter_mut().enumerate() {
        chunk.descriptor = descriptor_at(alloc, columns, place)?;
    }
    Ok(())
}

/// Gives each chunk of the groups the column at its place.
pub fn describe_groups(
    alloc: Global,
    groups: &mut Vec<RowGroupMetaData>,
    columns: &[Descriptor],
) -> Result<(), Error>
    ensures same { OnOk result (map group_view groups.new.items ≡ map group_view groups.old.items) }
    ensures described { OnOk result (GroupsAreDescribed (map column_view columns.now) groups.new.items) }
    ensures refused { IfErr result (λ e. e ≡ Memory) }
{
    for group in groups.iter_mut() {
        describe_chunks(alloc, &mut group.columns, columns)?;
    }
    Ok(())
}
