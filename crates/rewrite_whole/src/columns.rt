//! Which fields and trees have columns.
ghost use Rattle.std.specs.Prelude.{◌≡◌, ◌≤◌, not, nat_eq, length};
ghost use Rattle.columns_core.specs.Measures.{nesting, field_nesting, fields_nesting, leaves as type_leaves, field_leaves, fields_leaves};
ghost use Rattle.columns_core.specs.View.{type_view, field_view, fields_view};
ghost use Rattle.pq_tree.specs.Tree.{leaves, leaves_of, nesting as tree_nesting, nesting_of};
ghost use Rattle.pq_tree.specs.TreeViews.{tree_view, trees_view};

use columns_core::{DataType, Field};
use pq_tree::ParquetType;

/// Whether a type has a column. It nests to at most 128.
#[cycle(columns)]
fn has_column(data_type: &DataType) -> bool
    requires { nesting (type_view data_type.now) ≤ 128 }
    ensures { result ≡ not (nat_eq (type_leaves (type_view data_type.now)) 0) }
{
    match data_type {
        DataType::List(item) | DataType::LargeList(item) | DataType::FixedSizeList(item, _) => {
            has_column(&item.data_type)
        }
        DataType::Struct(fields) | DataType::Union(fields, _, _) => have_column(fields),
        DataType::Map(entry, _) => has_column(&entry.data_type),
        DataType::Extension(_, inner, _) => has_column(inner),
        _ => true,
    }
}

/// Whether one of the fields has a column. They nest to at most 128.
#[cycle(columns)]
fn have_column(fields: &Vec<Field>) -> bool
    requires { fields_nesting (fields_view fields.now.items) ≤ 128 }
    ensures { result ≡ not (nat_eq (fields_leaves (fields_view fields.now.items)) 0) }
{
    for field in fields {
        if has_column(&field.data_type) {
            return true;
        }
    }
    false
}

/// Whether a field has a column. It nests to at most 128.
pub fn is_with_columns(field: &Field) -> bool
    requires { field_nesting (field_view field.now) ≤ 128 }
    ensures { result ≡ not (nat_eq (field_leaves (field_view field.now)) 0) }
{
    has_column(&field.data_type)
}

/// Whether a column is beneath a node. It nests to at most 128.
#[cycle(nodes)]
pub fn holds_column(node: &ParquetType) -> bool
    requires { tree_nesting (tree_view node.now) ≤ 128 }
    ensures { result ≡ not (nat_eq (length (leaves (tree_view node.now))) 0) }
{
    match node {
        ParquetType::PrimitiveType(_) => true,
        ParquetType::GroupType { fields, .. } => hold_column(fields),
    }
}

/// Whether a column is beneath one of the nodes. They nest to at most 128.
#[cycle(nodes)]
fn hold_column(nodes: &Vec<ParquetType>) -> bool
    requires { nesting_of (trees_view nodes.now.items) ≤ 128 }
    ensures { result ≡ not (nat_eq (length (leaves_of (trees_view nodes.now.items))) 0) }
{
    for node in nodes {
        if holds_column(node) {
            return true;
        }
    }
    false
}
