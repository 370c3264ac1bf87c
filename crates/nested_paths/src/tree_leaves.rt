//! The leaves of a tree of columns.
ghost use Rattle.std.specs.Prelude.{◌≡◌, IfOk, IfErr, OnOk, ◌++◌, map};
ghost use Rattle.columns_base.specs.declared.error.Error.TheVariants.{Memory};
ghost use Rattle.pq_tree.specs.Tree.{leaves, leaves_of};
ghost use Rattle.pq_tree.specs.TreeViews.{tree_view, trees_view};
ghost use Rattle.nested_paths.specs.Leaves.{node_of, leaf_node};

use columns_base::Result;
use pq_tree::{ParquetType, PrimitiveType};
use std::alloc::Global;

/// The leaves of a tree, in order, moved out of it (Parquet format, "Nested Encoding").
///
/// # Errors
///
/// `Memory`: memory ran out.
pub fn to_parquet_leaves(alloc: Global, type_: ParquetType) -> Result<Vec<PrimitiveType>>
    ensures ok { IfOk result (λ found. map leaf_node found.items ≡ map node_of (leaves (tree_view type_))) }
    ensures err { IfErr result (λ e. e ≡ Memory) }
{
    let mut found = Vec::new(alloc);
    push_leaves(type_, &mut found)?;
    Ok(found)
}

#[cycle(leaves)]
fn push_leaves(node: ParquetType, found: &mut Vec<PrimitiveType>) -> Result<()>
    ensures ok { OnOk result (map leaf_node found.new.items ≡ map leaf_node found.old.items
        ++ map node_of (leaves (tree_view node))) }
    ensures err { IfErr result (λ e. e ≡ Memory) }
{
    match node {
        ParquetType::PrimitiveType(leaf) => {
            found.push(leaf)?;
            Ok(())
        }
        ParquetType::GroupType { fields, .. } => push_all_leaves(fields, found),
    }
}

#[cycle(leaves)]
fn push_all_leaves(nodes: Vec<ParquetType>, found: &mut Vec<PrimitiveType>) -> Result<()>
    ensures ok { OnOk result (map leaf_node found.new.items ≡ map leaf_node found.old.items
        ++ map node_of (leaves_of (trees_view nodes.items))) }
    ensures err { IfErr result (λ e. e ≡ Memory) }
{
    for node in nodes {
        push_leaves(node, found)?;
    }
    Ok(())
}
