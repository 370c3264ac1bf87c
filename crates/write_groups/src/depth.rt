//! How deep trees of columns nest.
ghost use Rattle.std.specs.Prelude.{◌≤◌, IsTrue, ◌↔◌};
ghost use Rattle.pq_tree.specs.Tree.{nesting, nesting_of};
ghost use Rattle.pq_tree.specs.TreeViews.{tree_view, trees_view};

use pq_tree::ParquetType;

/// Whether the tree nests no deeper than this.
#[cycle(nesting)]
pub(crate) fn nests_within(tree: &ParquetType, depth: u8) -> bool
    ensures { IsTrue result ↔ nesting (tree_view tree.now) ≤ depth }
{
    if depth == 0 {
        return false;
    }
    match tree {
        ParquetType::PrimitiveType(_) => true,
        ParquetType::GroupType { fields, .. } => nest_within(fields, depth - 1),
    }
}

/// Whether each of the trees nests no deeper than this.
#[cycle(nesting)]
fn nest_within(trees: &Vec<ParquetType>, depth: u8) -> bool
    ensures { IsTrue result ↔ nesting_of (trees_view trees.now.items) ≤ depth }
{
    for tree in trees {
        if !nests_within(tree, depth) {
            return false;
        }
    }
    true
}
