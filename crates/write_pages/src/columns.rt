//! The pages of all columns of an array.
ghost use Rattle.std.specs.Prelude.{◌≡◌, ◌≢◌, ◌⊎◌, ◌≤◌, None, Some, length, map, IfOk, OnOk, IfErr};
ghost use Rattle.shredding.specs.Shape.{ways};
ghost use Rattle.columns_base.specs.declared.error.Error.TheVariants.{Memory, InvalidArgumentError};
ghost use Rattle.columns_base.specs.declared.error.A.TheVariants.{A8};
ghost use Rattle.columns_array.specs.Boxed.{boxed};
ghost use Rattle.columns_slots.specs.Slots.{slots};
ghost use Rattle.levels.specs.Nested.{parts_of};
ghost use Rattle.nested_paths.specs.Leaves.{array_leaves, leaf_node, node_of};
ghost use Rattle.nested_paths.specs.Paths.{misfit, paths};
ghost use Rattle.nested_paths.specs.Seen.{read_by, shape_by, AreSeen};
ghost use Rattle.nested_paths.specs.Taken.{all_parts, shown};
ghost use Rattle.pq_tree.specs.Tree.{leaves};
ghost use Rattle.pq_tree.specs.TreeViews.{tree_view};
ghost use Rattle.write_pages.specs.Columns.{AnyRefused, AreColumns, AreShort, PushesColumn, RefusesColumn};
ghost use Rattle.write_pages.specs.Given.{to_give};

use crate::options::WriteOptions;
use crate::pages::{PageIter, array_to_pages};
use columns_array::ArrayBox;
use columns_core::{A, Error, Result};
use levels::Nested;
use nested_paths::{to_leaves, to_nested, to_parquet_leaves};
use pq_tree::{Encoding, ParquetType, PrimitiveType};
use std::alloc::Global;

// The pages of one path over its leaf array.
fn push_column(
    alloc: Global,
    array: &ArrayBox,
    type_: &PrimitiveType,
    nested: &[Nested],
    options: WriteOptions,
    encoding: Encoding,
    columns: &mut Vec<PageIter>,
) -> Result<()>
    requires { length nested.now ≤ 128 }
    ensures ok { OnOk result (PushesColumn options type_.now (parts_of nested.now)
        (boxed array.now) encoding columns.old.items columns.new.items) }
    ensures err { IfErr result (λ e. (e ≡ Memory) ⊎ RefusesColumn options (leaf_node type_.now) (parts_of nested.now)
        (boxed array.now) encoding e) }
{
    let type_ = type_.clone(alloc)?;
    match array_to_pages(alloc, array, type_, nested, options, encoding) {
        Ok(pages) => columns.push(pages)?,
        Err(error) => return Err(error),
    }
    Ok(())
}

// The pages of each path over its leaf array.
fn pages_of_all(
    alloc: Global,
    arrays: &[&ArrayBox],
    types: &[PrimitiveType],
    paths: &[Vec<Nested>],
    options: WriteOptions,
    encoding: &[Encoding],
) -> Result<Vec<PageIter>>
    requires arrays { length arrays.now ≡ length types.now }
    requires paths { length paths.now ≡ length types.now }
    requires encodings { length encoding.now ≡ length types.now }
    requires short { AreShort (all_parts paths.now) }
    ensures ok { IfOk result (λ columns. AreColumns options (map leaf_node types.now) (all_parts paths.now)
        (shown arrays.entry.now) encoding.now (map to_give columns.items)) }
    ensures err { IfErr result (λ e. (e ≡ Memory) ⊎ AnyRefused options (map leaf_node types.now) (all_parts paths.now)
        (shown arrays.entry.now) encoding.now e) }
{
    let mut columns = Vec::with_capacity(alloc, types.len())?;
    for i in 0..types.len() {
        let (path, encoding) = (&paths[i], encoding[i]);
        if let Err(error) = push_column(
            alloc,
            arrays[i],
            &types[i],
            path,
            options,
            encoding,
            &mut columns,
        ) {
            return Err(error);
        }
    }
    Ok(columns)
}

/// The pages of each leaf of an array that is written by a tree of columns, in order: those of the path and the leaf array that `to_nested`
/// and `to_leaves` give for the leaf, by the row rule, in the encoding at its place (Parquet format, "Nested Encoding", "Data Pages"). What the
/// path and the leaf array of each stand for is what is seen of the array's slots along the way to the leaf. No path has more than 128 parts.
///
/// # Errors
///
/// - `InvalidArgumentError(A8)`: there are more or fewer encodings than leaves.
/// - Those of `to_nested`: array and tree do not go together.
/// - Those of `array_to_pages`, of some leaf.
/// - `Memory`.
pub fn array_to_columns(
    alloc: Global,
    array: &ArrayBox,
    type_: &ParquetType,
    options: WriteOptions,
    encoding: &[Encoding],
) -> Result<Vec<PageIter>>
    requires { AreShort (paths (boxed array.now) (tree_view type_.now)) }
    ensures fits { IfOk result (λ _. misfit (boxed array.now) (tree_view type_.now) ≡ None) }
    ensures columns { IfOk result (λ its. AreColumns options (map node_of (leaves (tree_view type_.now)))
        (paths (boxed array.now) (tree_view type_.now)) (array_leaves (boxed array.now)) encoding.now
        (map to_give its.items)) }
    ensures seen { IfOk result (λ _. AreSeen (slots (read_by (boxed array.now) (tree_view type_.now)))
        (ways (shape_by (boxed array.now) (tree_view type_.now))) (paths (boxed array.now) (tree_view type_.now))
        (array_leaves (boxed array.now))) }
    ensures err { IfErr result (λ e. (e ≡ Memory) ⊎ (misfit (boxed array.now) (tree_view type_.now) ≡ Some e)
        ⊎ ((e ≡ InvalidArgumentError A8) × (length encoding.now ≢ length (leaves (tree_view type_.now))))
        ⊎ AnyRefused options (map node_of (leaves (tree_view type_.now)))
        (paths (boxed array.now) (tree_view type_.now)) (array_leaves (boxed array.now)) encoding.now e) }
{
    let found = to_nested(alloc, array, type_)?;
    let types = to_parquet_leaves(alloc, type_.clone(alloc)?)?;
    if encoding.len() != types.len() {
        return Err(Error::InvalidArgumentError(A::A8));
    }
    match to_leaves(alloc, array) {
        Ok(arrays) => pages_of_all(alloc, &arrays, &types, &found, options, encoding),
        Err(error) => Err(error),
    }
}
