//! The types and fields of a tree.
ghost use Rattle.std.specs.Prelude.{◌≡◌, ◌≤◌, IfOk, IfErr, map, option_map, string_bytes};
ghost use Rattle.columns_base.specs.declared.error.Error.TheVariants.{Memory};
ghost use Rattle.columns_core.specs.View.{type_view, field_view};
ghost use Rattle.columns_core.specs.Tree.{t_list};
ghost use Rattle.pq_tree.specs.Tree.{nesting, nesting_of};
ghost use Rattle.pq_tree.specs.TreeViews.{tree_view, trees_view};
ghost use Rattle.pq_tree.specs.Views.{repetition_view};
ghost use Rattle.schema_from_tree.specs.Answers.{Gives};
ghost use Rattle.schema_from_tree.specs.FromTree.{field_as, field_named, info_of, type_of, list_of, item_of, map_of, struct_with, arrow_fields};

use crate::groups::{Rule, rule_of_group};
use crate::info::{field_as_node, info_of_item, info_of_node, is_item_name};
use crate::leaves::type_of_leaf;
use columns_base::Result;
use columns_core::{DataType, Field};
use pq_tree::{FieldInfo, ParquetType, Repetition};
use std::alloc::Global;

/// The Arrow fields of the nodes, in order, without those of groups that hold no column (Parquet format, LogicalTypes).
/// `Memory` alone is refused. The trees nest to at most 128, as those of every `SchemaDescriptor` do.
pub fn parquet_to_arrow_schema(alloc: Global, fields: &[ParquetType]) -> Result<Vec<Field>>
    requires { nesting_of (trees_view fields.now) ≤ 128 }
    ensures ok { IfOk result (λ fs. map field_view fs.items ≡ arrow_fields (trees_view fields.now)) }
    ensures refused { IfErr result (λ e. e ≡ Memory) }
{
    fields_of_nodes(alloc, fields)
}

/// The Arrow type of the node, and None where no column gives one (Parquet format, LogicalTypes). `Memory` alone is
/// refused. The node nests to at most 128, as those of every `SchemaDescriptor` do.
pub fn to_data_type(alloc: Global, type_: &ParquetType) -> Result<Option<DataType>>
    requires { nesting (tree_view type_.now) ≤ 128 }
    ensures ok { IfOk result (λ t. option_map type_view t ≡ type_of (tree_view type_.now)) }
    ensures refused { IfErr result (λ e. e ≡ Memory) }
{
    type_of_node(alloc, type_)
}

/// A list whose item has the type, and the name and the nullability of the node.
fn list_as_node(alloc: Global, info: &FieldInfo, item: DataType) -> Result<DataType>
    ensures { Gives type_view result (t_list
        (field_named (string_bytes info.now.name) (repetition_view info.now.repetition) (type_view item))) }
{
    Ok(DataType::List(Box::new(alloc, field_as_node(alloc, info, item)?)?))
}

#[cycle(nodes)]
fn type_of_node(alloc: Global, node: &ParquetType) -> Result<Option<DataType>>
    ensures { Gives (option_map type_view) result (type_of (tree_view node.now)) }
{
    match node {
        ParquetType::PrimitiveType(leaf) => {
            let data_type = type_of_leaf(alloc, leaf)?;
            match leaf.field_info.repetition {
                Repetition::Repeated => Ok(Some(list_as_node(alloc, &leaf.field_info, data_type)?)),
                Repetition::Required | Repetition::Optional => Ok(Some(data_type)),
            }
        }
        ParquetType::GroupType {
            field_info,
            logical_type,
            converted_type,
            fields,
        } => {
            if matches!(field_info.repetition, Repetition::Repeated) {
                return repeated_group(alloc, field_info, fields);
            }
            match rule_of_group(*logical_type, *converted_type) {
                Rule::ByList => list_of_nodes(alloc, field_info.name.as_str(), fields),
                Rule::ByMap => map_of_nodes(alloc, fields),
                Rule::ByStruct => struct_of_nodes(alloc, fields),
            }
        }
    }
}

#[cycle(nodes)]
fn repeated_group(
    alloc: Global,
    info: &FieldInfo,
    children: &[ParquetType],
) -> Result<Option<DataType>>
    ensures { Gives (option_map type_view) result
        (option_map (λ t. t_list (field_named (string_bytes info.now.name) (repetition_view info.now.repetition) t))
        (struct_with (arrow_fields (trees_view children.now)))) }
{
    match struct_of_nodes(alloc, children)? {
        Some(item) => Ok(Some(list_as_node(alloc, info, item)?)),
        None => Ok(None),
    }
}

#[cycle(nodes)]
fn list_of_nodes(alloc: Global, parent: &str, children: &[ParquetType]) -> Result<Option<DataType>>
    ensures { Gives (option_map type_view) result (list_of parent.now (trees_view children.now)) }
{
    let [first, ..] = children else {
        return Ok(None);
    };
    match item_of_node(alloc, parent, first)? {
        Some(item) => Ok(Some(list_as_node(alloc, info_of_item(first), item)?)),
        None => Ok(None),
    }
}

#[cycle(nodes)]
fn item_of_node(alloc: Global, parent: &str, node: &ParquetType) -> Result<Option<DataType>>
    ensures { Gives (option_map type_view) result (item_of parent.now (tree_view node.now)) }
{
    match node {
        ParquetType::PrimitiveType(leaf) => Ok(Some(type_of_leaf(alloc, leaf)?)),
        ParquetType::GroupType {
            field_info,
            fields,
            ..
        } => match fields.as_slice() {
            [only] => {
                if is_item_name(parent, field_info.name.as_str()) {
                    return struct_of_nodes(alloc, fields);
                }
                type_of_node(alloc, only)
            }
            [] => Ok(None),
            [_, _, ..] => struct_of_nodes(alloc, fields),
        },
    }
}

#[cycle(nodes)]
fn map_of_nodes(alloc: Global, children: &[ParquetType]) -> Result<Option<DataType>>
    ensures { Gives (option_map type_view) result (map_of (trees_view children.now)) }
{
    let [first, ..] = children else {
        return Ok(None);
    };
    match field_of_node(alloc, first)? {
        Some(entry) => Ok(Some(DataType::Map(Box::new(alloc, entry)?, false))),
        None => Ok(None),
    }
}

#[cycle(nodes)]
fn struct_of_nodes(alloc: Global, children: &[ParquetType]) -> Result<Option<DataType>>
    ensures { Gives (option_map type_view) result (struct_with (arrow_fields (trees_view children.now))) }
{
    let fields = fields_of_nodes(alloc, children)?;
    if fields.is_empty() {
        return Ok(None);
    }
    Ok(Some(DataType::Struct(fields)))
}

#[cycle(nodes)]
fn field_of_node(alloc: Global, node: &ParquetType) -> Result<Option<Field>>
    ensures { Gives (option_map field_view) result (option_map (field_as (info_of (tree_view node.now)))
        (type_of (tree_view node.now))) }
{
    match type_of_node(alloc, node)? {
        Some(data_type) => Ok(Some(field_as_node(alloc, info_of_node(node), data_type)?)),
        None => Ok(None),
    }
}

#[cycle(nodes)]
fn fields_of_nodes(alloc: Global, nodes: &[ParquetType]) -> Result<Vec<Field>>
    ensures { Gives (λ fs. map field_view fs.items) result (arrow_fields (trees_view nodes.now)) }
{
    let mut fields = Vec::new(alloc);
    for node in nodes {
        if let Some(field) = field_of_node(alloc, node)? {
            fields.push(field)?;
        }
    }
    Ok(fields)
}
