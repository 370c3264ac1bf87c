//! `clone`, which gives an equal value.
ghost use Rattle.std.specs.Prelude.{◌≡◌, None, IfOk, IfErr, option_map};
ghost use Rattle.columns_base.specs.declared.error.Error.TheVariants.{Memory};
ghost use Rattle.pq_tree.specs.Described.{column_view};
ghost use Rattle.pq_tree.specs.TreeViews.{info_view, leaf_view, tree_view, trees_view};
ghost use Rattle.pq_tree.specs.Views.{key_view, statistics_view};

use crate::types::{Descriptor, FieldInfo, KeyValue, ParquetType, PrimitiveType, Statistics};
use columns_base::Error;
use std::alloc::Global;

impl FieldInfo {
    /// The same name, repetition and id.
    pub fn clone(&self, alloc: Global) -> Result<FieldInfo, Error>
        ensures same { IfOk result (λ copy. info_view copy None None ≡ info_view self.now None None) }
        ensures refused { IfErr result (λ e. e ≡ Memory) }
    {
        Ok(FieldInfo {
            name: String::from_str(alloc, self.name.as_str())?,
            repetition: self.repetition,
            id: self.id,
        })
    }
}

impl PrimitiveType {
    /// A leaf of the same parts.
    pub fn clone(&self, alloc: Global) -> Result<PrimitiveType, Error>
        ensures same { IfOk result (λ copy. leaf_view copy ≡ leaf_view self.now) }
        ensures refused { IfErr result (λ e. e ≡ Memory) }
    {
        Ok(PrimitiveType {
            field_info: self.field_info.clone(alloc)?,
            logical_type: self.logical_type,
            converted_type: self.converted_type,
            physical_type: self.physical_type,
        })
    }
}

impl Descriptor {
    /// A column of the same parts.
    pub fn clone(&self, alloc: Global) -> Result<Descriptor, Error>
        ensures same { IfOk result (λ copy. column_view copy ≡ column_view self.now) }
        ensures refused { IfErr result (λ e. e ≡ Memory) }
    {
        Ok(Descriptor {
            primitive_type: self.primitive_type.clone(alloc)?,
            max_def_level: self.max_def_level,
            max_rep_level: self.max_rep_level,
        })
    }
}

impl ParquetType {
    /// A tree of the same parts.
    pub fn clone(&self, alloc: Global) -> Result<ParquetType, Error>
        ensures same { IfOk result (λ copy. tree_view copy ≡ tree_view self.now) }
        ensures refused { IfErr result (λ e. e ≡ Memory) }
    {
        copy_tree(alloc, self)
    }
}

impl KeyValue {
    /// A pair of the same texts.
    pub fn clone(&self, alloc: Global) -> Result<KeyValue, Error>
        ensures same { IfOk result (λ copy. key_view copy ≡ key_view self.now) }
        ensures refused { IfErr result (λ e. e ≡ Memory) }
    {
        let value = match &self.value {
            Some(value) => Some(String::from_str(alloc, value.as_str())?),
            None => None,
        };
        Ok(KeyValue {
            key: String::from_str(alloc, self.key.as_str())?,
            value,
        })
    }
}

impl Statistics {
    /// What is stated of the same values.
    pub fn clone(&self, alloc: Global) -> Result<Statistics, Error>
        ensures same { IfOk result (λ copy. statistics_view copy ≡ statistics_view self.now) }
        ensures refused { IfErr result (λ e. e ≡ Memory) }
    {
        Ok(Statistics {
            null_count: self.null_count,
            max_value: copy_bytes(alloc, &self.max_value)?,
            min_value: copy_bytes(alloc, &self.min_value)?,
        })
    }
}

fn copy_bytes(alloc: Global, bytes: &Option<Vec<u8>>) -> Result<Option<Vec<u8>>, Error>
    ensures same { IfOk result (λ copy. option_map (λ v. v.items) copy ≡ option_map (λ v. v.items) bytes.now) }
    ensures refused { IfErr result (λ e. e ≡ Memory) }
{
    match bytes {
        None => Ok(None),
        Some(bytes) => Ok(Some(Vec::from_slice(alloc, bytes)?)),
    }
}

#[cycle(copy)]
fn copy_tree(alloc: Global, tree: &ParquetType) -> Result<ParquetType, Error>
    ensures same { IfOk result (λ copy. tree_view copy ≡ tree_view tree.now) }
    ensures refused { IfErr result (λ e. e ≡ Memory) }
{
    match tree {
        ParquetType::PrimitiveType(leaf) => Ok(ParquetType::PrimitiveType(leaf.clone(alloc)?)),
        ParquetType::GroupType {
            field_info,
            logical_type,
            converted_type,
            fields,
        } => Ok(ParquetType::GroupType {
            field_info: field_info.clone(alloc)?,
            logical_type: *logical_type,
            converted_type: *converted_type,
            fields: copy_trees(alloc, fields)?,
        }),
    }
}

#[cycle(copy)]
fn copy_trees(alloc: Global, trees: &Vec<ParquetType>) -> Result<Vec<ParquetType>, Error>
    ensures same { IfOk result (λ copies. trees_view copies.items ≡ trees_view trees.now.items) }
    ensures refused { IfErr result (λ e. e ≡ Memory) }
{
    let mut copies = Vec::with_capacity(alloc, trees.len())?;
    for tree in trees {
        copies.push(copy_tree(alloc, tree)?)?;
    }
    Ok(copies)
}
