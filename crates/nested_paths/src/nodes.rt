//! Which nodes of a tree stand for lists, structs and leaves.
ghost use Rattle.std.specs.Prelude.{◌≡◌, option_map};
ghost use Rattle.pq_tree.specs.TreeViews.{tree_view, trees_view, info_view};
ghost use Rattle.nested_paths.specs.Nodes as table;

use pq_tree::{FieldInfo, ParquetType, Repetition};

fn info_of(node: &ParquetType) -> &FieldInfo
    ensures { (info_view result.now None None).repetition ≡ (table.info_of (tree_view node.now)).repetition }
{
    match node {
        ParquetType::PrimitiveType(leaf) => &leaf.field_info,
        ParquetType::GroupType { field_info, .. } => field_info,
    }
}

// Whether what the node stands for may be missing.
pub(crate) fn is_optional(node: &ParquetType) -> bool
    ensures { result ≡ table.is_optional (tree_view node.now) }
{
    info_of(node).repetition != Repetition::Required
}

fn is_repeated(info: &FieldInfo) -> bool
    ensures { result ≡ table.is_repeated (info_view info.now None None) }
{
    info.repetition == Repetition::Repeated
}

// Whether the node stands for a leaf.
pub(crate) fn is_leaf_node(node: &ParquetType) -> bool
    ensures { result ≡ table.is_leaf_node (tree_view node.now) }
{
    match node {
        ParquetType::PrimitiveType(leaf) => !is_repeated(&leaf.field_info),
        ParquetType::GroupType { .. } => false,
    }
}

// The children of a group that is repeated, or is not, as is asked.
fn children_in(node: &ParquetType, asked: bool) -> Option<&[ParquetType]>
    ensures { option_map (λ ts. trees_view ts.now) result ≡ table.children_in asked (tree_view node.now) }
{
    match node {
        ParquetType::PrimitiveType(_) => None,
        ParquetType::GroupType {
            field_info,
            fields,
            ..
        } => {
            if is_repeated(field_info) == asked {
                Some(fields)
            } else {
                None
            }
        }
    }
}

fn only_child(node: &ParquetType, asked: bool) -> Option<&ParquetType>
    ensures { option_map (λ t. tree_view t.now) result ≡ table.only_child asked (tree_view node.now) }
{
    let children = children_in(node, asked)?;
    if children.len() != 1 {
        return None;
    }
    Some(&children[0])
}

// The item of a node that stands for a list or a map.
pub(crate) fn item_node(node: &ParquetType) -> Option<&ParquetType>
    ensures { option_map (λ t. tree_view t.now) result ≡ table.item_node (tree_view node.now) }
{
    only_child(only_child(node, false)?, true)
}

// The fields of a node that stands for a struct.
pub(crate) fn field_nodes(node: &ParquetType) -> Option<&[ParquetType]>
    ensures { option_map (λ ts. trees_view ts.now) result ≡ table.field_nodes (tree_view node.now) }
{
    children_in(node, false)
}
