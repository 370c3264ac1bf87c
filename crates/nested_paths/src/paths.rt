//! The paths of an array.
ghost use Rattle.std.specs.Prelude.{◌≡◌, ◌⊎◌, IfOk, IfErr, ◌++◌, ◌∷◌, [], Some, None, length, map};
ghost use Rattle.columns_base.specs.declared.error.Error.TheVariants.{Memory};
ghost use Rattle.shredding.specs.Shape.{ways};
ghost use Rattle.columns_slots.specs.Slots.{slots};
ghost use Rattle.columns_array.specs.Boxed.{boxed, all_boxed};
ghost use Rattle.pq_tree.specs.Tree.{leaves};
ghost use Rattle.pq_tree.specs.TreeViews.{tree_view, trees_view};
ghost use Rattle.nested_paths.specs.Paths.{misfit, misfits, paths, paths_in, part_at};
ghost use Rattle.levels.specs.Nested.{parts_of};
ghost use Rattle.nested_paths.specs.Nodes.{is_optional};
ghost use Rattle.nested_paths.specs.Leaves.{array_leaves};
ghost use Rattle.nested_paths.specs.Levels.{path_levels, leaf_levels};
ghost use Rattle.nested_paths.specs.Seen.{read_by, shape_by, AreSeen};
ghost use Rattle.nested_paths.specs.Kinds.{is_large_array, kinds, kinds_in, kinds_of, kinds_below, all_kinds};
ghost use Rattle.nested_paths.specs.Taken.{all_parts, TakesPaths};

use crate::inner::{Inner, inner_of, part_of};
use crate::nodes::{field_nodes, is_leaf_node, is_optional, item_node};
use columns_array::ArrayBox;
use columns_base::{A, Error, N, Result};
use levels::Nested;
use pq_tree::ParquetType;
use std::alloc::Global;

const DIFFERS: Error = Error::InvalidArgumentError(A::A8);

/// The paths of an array along a tree of columns, one for each leaf, in order: the parts from the outermost array to the leaf. A map is
/// a list, and a list keeps the size of its offsets. A part is optional where its node in the tree is. Masks and offsets are shared with
/// the array.
///
/// # Errors
///
/// The first place is told, from the outside in and in the order of fields.
///
/// - `InvalidArgumentError(A8)`: array and tree differ in kind or in the number of children.
/// - `NotYetImplemented(N5)`: there are lists of a fixed size.
/// - `Memory`: memory ran out.
pub fn to_nested(alloc: Global, array: &ArrayBox, type_: &ParquetType) -> Result<Vec<Vec<Nested>>>
    ensures ok { IfOk result (λ found. all_parts found.items ≡ paths (boxed array.now) (tree_view type_.now)) }
    ensures kinds { IfOk result (λ found. all_kinds found.items ≡ kinds (boxed array.now)) }
    ensures fits { IfOk result (λ found. misfit (boxed array.now) (tree_view type_.now) ≡ None) }
    ensures seen { IfOk result (λ found. AreSeen (slots (read_by (boxed array.now) (tree_view type_.now)))
        (ways (shape_by (boxed array.now) (tree_view type_.now))) (all_parts found.items)
        (array_leaves (boxed array.now))) }
    ensures levels { IfOk result (λ found. map path_levels (all_parts found.items)
        ≡ map leaf_levels (leaves (tree_view type_.now))) }
    ensures err { IfErr result (λ e. (e ≡ Memory) ⊎ (misfit (boxed array.now) (tree_view type_.now) ≡ Some e)) }
{
    array.know();
    let mut found = Vec::new(alloc);
    push_paths(alloc, array, type_, &[], &mut found)?;
    Ok(found)
}

#[cycle(paths)]
fn push_paths(
    alloc: Global,
    array: &ArrayBox,
    node: &ParquetType,
    parents: &[Nested],
    found: &mut Vec<Vec<Nested>>,
) -> Result<()>
    ensures taken { TakesPaths (parts_of parents.now) (all_parts found.old.items) (all_parts found.new.items)
        (paths (boxed array.now) (tree_view node.now)) (misfit (boxed array.now) (tree_view node.now)) result }
    ensures kinds { IfOk result (λ u. all_kinds found.new.items ≡ all_kinds found.old.items
        ++ kinds_below (kinds_of parents.now) (kinds (boxed array.now))) }
{
    match inner_of(array) {
        Inner::Leaf => {
            if !is_leaf_node(node) {
                return Err(DIFFERS);
            }
            found.push(path_to(alloc, parents, array, node)?)?;
            Ok(())
        }
        Inner::Items(items) => {
            let Some(item) = item_node(node) else {
                return Err(DIFFERS);
            };
            let path = path_to(alloc, parents, array, node)?;
            push_paths(alloc, items, item, &path, found)
        }
        Inner::Fields(arrays) => {
            let Some(nodes) = field_nodes(node) else {
                return Err(DIFFERS);
            };
            if arrays.len() != nodes.len() {
                return Err(DIFFERS);
            }
            let path = path_to(alloc, parents, array, node)?;
            push_all_paths(alloc, arrays, nodes, &path, found)
        }
        Inner::Fixed => Err(Error::NotYetImplemented(N::N5)),
    }
}

// The paths of a struct's fields, one field after another.
#[cycle(paths)]
fn push_all_paths(
    alloc: Global,
    arrays: &[ArrayBox],
    nodes: &[ParquetType],
    parents: &[Nested],
    found: &mut Vec<Vec<Nested>>,
) -> Result<()>
    requires { length arrays.now ≡ length nodes.now }
    ensures taken { TakesPaths (parts_of parents.now) (all_parts found.old.items) (all_parts found.new.items)
        (paths_in (all_boxed arrays.now) (trees_view nodes.now))
        (misfits (all_boxed arrays.now) (trees_view nodes.now)) result }
    ensures kinds { IfOk result (λ u. all_kinds found.new.items ≡ all_kinds found.old.items
        ++ kinds_below (kinds_of parents.now) (kinds_in (all_boxed arrays.now))) }
{
    for i in 0..arrays.len() {
        push_paths(alloc, &arrays[i], &nodes[i], parents, found)?;
    }
    Ok(())
}

// The parts down to an array.
fn path_to(
    alloc: Global,
    parents: &[Nested],
    array: &ArrayBox,
    node: &ParquetType,
) -> Result<Vec<Nested>>
    ensures ok { IfOk result (λ path. parts_of path.items ≡ parts_of parents.now
        ++ part_at (is_optional (tree_view node.now)) (boxed array.now) ∷ []) }
    ensures kinds { IfOk result (λ path. kinds_of path.items ≡ kinds_of parents.now ++ is_large_array (boxed array.now)
        ∷ []) }
    ensures err { IfErr result (λ e. e ≡ Memory) }
{
    let mut path = copy_of(alloc, parents)?;
    path.push(part_of(array, is_optional(node))?)?;
    Ok(path)
}

fn copy_of(alloc: Global, parents: &[Nested]) -> Result<Vec<Nested>>
    ensures ok { IfOk result (λ path. path.items ≡ parents.now) }
    ensures err { IfErr result (λ e. e ≡ Memory) }
{
    let mut path = Vec::with_capacity(alloc, parents.len())?;
    for parent in parents {
        path.push(parent.clone()?)?;
    }
    Ok(path)
}
