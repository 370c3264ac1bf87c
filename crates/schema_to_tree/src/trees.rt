//! The tree of a field.
ghost use Rattle.std.specs.Prelude.{◌≡◌, ◌≤◌, ◌⊎◌, IfOk, IfErr, None, false};
ghost use Rattle.columns_core.specs.Measures.{nesting, field_nesting, fields_nesting};
ghost use Rattle.columns_core.specs.Tree.{t_struct};
ghost use Rattle.columns_core.specs.View.{type_view, field_view, fields_view};
ghost use Rattle.pq_tree.specs.TreeViews.{info_view, tree_view, trees_view};
ghost use Rattle.schema_to_tree.specs.Table.{list_over, map_over, type_tree, tree_of, trees_of, is_compound};
ghost use Rattle.schema_to_tree.specs.Faults.{Gives, fault, field_fault, fields_fault};
ghost use Rattle.schema_to_tree.specs.Conditions.{IsWritten, RefusesField};
ghost use Rattle.schema_to_tree.specs.Order.{IsFirst, field_refusal};

use crate::depth::{nesting_to, tree_depth_to};
use crate::nodes::{leaf_of, over, struct_of};
use crate::stored::stored_as;
use crate::times::has_bad_time64;
use columns_base::{A, Error, N, Result};
use columns_core::{DataType, Field};
use pq_tree::{ConvertedType, FieldInfo, LogicalType, ParquetType, Repetition};
use std::alloc::Global;

/// How deep types and trees may nest.
pub const MAX_NESTING: usize = 128;

/// The tree of a field (Parquet format, LogicalTypes). A node is optional where the field is nullable. A dictionary goes as
/// its value type under the field's name, an extension by its inner type. A4 where the field's type has a struct without
/// fields, A5 where it has a decimal whose precision is not from 1 to 38 or whose scale is above it, A6 where it has a 64-bit
/// time of seconds or milliseconds, N5 where it has a type that is not written and no such time, N7 where it or the tree
/// nests past 128. Where several hold, N7 goes first, then A6, then the first in the order of the parts.
pub fn to_parquet_type(alloc: Global, field: &Field) -> Result<ParquetType>
    ensures ok { IfOk result (λ t. (tree_view t ≡ tree_of (field_view field.now)) × IsWritten (field_view field.now)) }
    ensures err { IfErr result (RefusesField (field_view field.now)) }
    ensures first { IfErr result (IsFirst (field_refusal (field_view field.now))) }
{
    if nesting_to(&field.data_type, MAX_NESTING + 1) > MAX_NESTING {
        return Err(Error::NotYetImplemented(N::N7));
    }
    if tree_depth_to(&field.data_type, MAX_NESTING + 1) > MAX_NESTING {
        return Err(Error::NotYetImplemented(N::N7));
    }
    if has_bad_time64(&field.data_type) {
        return Err(Error::InvalidArgumentError(A::A6));
    }
    field_tree(alloc, field)
}

#[cycle(trees)]
fn type_tree(alloc: Global, field_info: FieldInfo, data_type: &DataType) -> Result<ParquetType>
    requires { nesting (type_view data_type.now) ≤ 128 }
    ensures { Gives tree_view (type_tree (info_view field_info None None) (type_view data_type.now))
        (fault (type_view data_type.now)) result }
{
    match data_type {
        DataType::List(item) | DataType::LargeList(item) | DataType::FixedSizeList(item, _) => {
            list_tree(alloc, field_info, item)
        }
        DataType::Map(entry, _) => map_tree(alloc, field_info, entry),
        DataType::Struct(fields) => struct_tree(alloc, field_info, fields),
        DataType::Dictionary(_, value, _) => type_tree(alloc, field_info, value),
        DataType::Extension(_, inner, _) => type_tree(alloc, field_info, inner),
        _ => leaf_tree(field_info, data_type),
    }
}

fn leaf_tree(field_info: FieldInfo, data_type: &DataType) -> Result<ParquetType>
    requires { is_compound (type_view data_type.now) ≡ false }
    ensures { Gives tree_view (type_tree (info_view field_info None None) (type_view data_type.now))
        (fault (type_view data_type.now)) result }
{
    Ok(leaf_of(field_info, stored_as(data_type)?))
}

#[cycle(trees)]
fn list_tree(alloc: Global, field_info: FieldInfo, item: &Field) -> Result<ParquetType>
    requires { field_nesting (field_view item.now) ≤ 128 }
    ensures { Gives tree_view (list_over (info_view field_info None None) (tree_of (field_view item.now)))
        (field_fault (field_view item.now)) result }
{
    let (converted, logical) = (ConvertedType::List, LogicalType::List);
    let item = field_tree(alloc, item)?;
    Ok(over(alloc, field_info, converted, logical, "list", item)?)
}

#[cycle(trees)]
fn map_tree(alloc: Global, field_info: FieldInfo, entry: &Field) -> Result<ParquetType>
    requires { field_nesting (field_view entry.now) ≤ 128 }
    ensures { Gives tree_view (map_over (info_view field_info None None) (tree_of (field_view entry.now)))
        (field_fault (field_view entry.now)) result }
{
    let (converted, logical) = (ConvertedType::Map, LogicalType::Map);
    let entry = field_tree(alloc, entry)?;
    Ok(over(alloc, field_info, converted, logical, "map", entry)?)
}

#[cycle(trees)]
fn struct_tree(alloc: Global, field_info: FieldInfo, fields: &Vec<Field>) -> Result<ParquetType>
    requires { fields_nesting (fields_view fields.now.items) ≤ 128 }
    ensures { Gives tree_view (type_tree (info_view field_info None None) (t_struct (fields_view fields.now.items)))
        (fault (t_struct (fields_view fields.now.items))) result }
{
    if fields.is_empty() {
        return Err(Error::InvalidArgumentError(A::A4));
    }
    let trees = field_trees(alloc, fields)?;
    Ok(struct_of(field_info, trees))
}

#[cycle(trees)]
fn field_tree(alloc: Global, field: &Field) -> Result<ParquetType>
    requires { field_nesting (field_view field.now) ≤ 128 }
    ensures { Gives tree_view (tree_of (field_view field.now)) (field_fault (field_view field.now)) result }
{
    let field_info = FieldInfo {
        name: field.name.clone()?,
        repetition: if field.is_nullable {
            Repetition::Optional
        } else {
            Repetition::Required
        },
        id: None,
    };
    type_tree(alloc, field_info, &field.data_type)
}

/// The trees of the fields, in order. Each type nests to at most 128.
#[cycle(trees)]
pub fn field_trees(alloc: Global, fields: &Vec<Field>) -> Result<Vec<ParquetType>>
    requires { fields_nesting (fields_view fields.now.items) ≤ 128 }
    ensures { Gives (λ v. trees_view v.items) (trees_of (fields_view fields.now.items))
        (fields_fault (fields_view fields.now.items)) result }
{
    let mut trees = Vec::with_capacity(alloc, fields.len())?;
    for field in fields {
        trees.push(field_tree(alloc, field)?)?;
    }
    Ok(trees)
}
