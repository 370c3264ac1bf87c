//! The trees of a schema, from its elements in preorder.
ghost use Rattle.std.specs.Prelude.{◌≡◌, ◌≤◌, ℕ, List, IfOk, IfErr, map, string_bytes};
ghost use Rattle.columns_base.specs.declared.error.Error.TheVariants.{Memory};
ghost use Rattle.pq_tree.specs.Forest.{AreTrees, RefusesTrees, max_nesting};
ghost use Rattle.pq_tree.specs.Tree.{nesting_of};
ghost use Rattle.pq_tree.specs.TreeReading.{Gives, leaf_of, group_with, tree_at, trees_at, counted, is_childless_of};
ghost use Rattle.pq_tree.specs.TreeViews.{tree_view, trees_view};
ghost use Rattle.pq_tree.specs.Views.{element_view, physical_view};

use crate::columns::MAX_NESTING;
use crate::types::{ParquetType, PrimitiveType, SchemaElement};
use columns_base::{Error, N, PhysicalType, S};
use std::alloc::Global;

/// The tree in front, and the elements behind it.
#[cycle(trees)]
#[tactic(auto, unfolding(crate::specs::TreeReading::tree_at))]
fn take_tree(
    alloc: Global,
    elements: &[SchemaElement],
    depth: u8,
) -> Result<(ParquetType, &[SchemaElement]), Error>
    ensures { Gives (λ x. (tree_view x.0, map element_view x.1.now)) result
        (tree_at depth (map element_view elements.now)) }
{
    if depth == 0 {
        return Err(Error::NotYetImplemented(N::N7));
    }
    let [element, rest @ ..] = elements else {
        return Err(Error::OutOfSpec(S::S1));
    };
    match element.physical_type {
        Some(physical_type) => Ok((take_leaf(alloc, element, physical_type)?, rest)),
        None => take_group(alloc, element, rest, depth - 1),
    }
}

fn take_leaf(
    alloc: Global,
    element: &SchemaElement,
    physical_type: PhysicalType,
) -> Result<ParquetType, Error>
    ensures { Gives tree_view result (leaf_of (element_view element.now) (physical_view physical_type)) }
{
    if element.num_children > 0 {
        return Err(Error::OutOfSpec(S::S1));
    }
    Ok(ParquetType::PrimitiveType(PrimitiveType {
        field_info: element.field_info.clone(alloc)?,
        logical_type: element.logical_type,
        converted_type: element.converted_type,
        physical_type,
    }))
}

#[cycle(trees)]
fn take_group<'a>(
    alloc: Global,
    element: &SchemaElement,
    elements: &'a [SchemaElement],
    depth: u8,
) -> Result<(ParquetType, &'a [SchemaElement]), Error>
    ensures { Gives (λ x. (tree_view x.0, map element_view x.1.now)) result
        (group_with (trees_at depth) (element_view element.now) (map element_view elements.now)) }
{
    let (fields, rest) = take_trees(alloc, element.num_children, elements, depth)?;
    let group = ParquetType::GroupType {
        field_info: element.field_info.clone(alloc)?,
        logical_type: element.logical_type,
        converted_type: element.converted_type,
        fields,
    };
    Ok((group, rest))
}

/// So many trees, and the elements behind them. The number is no ground to reserve memory.
#[cycle(trees)]
fn take_trees(
    alloc: Global,
    count: usize,
    elements: &[SchemaElement],
    depth: u8,
) -> Result<(Vec<ParquetType>, &[SchemaElement]), Error>
    ensures { Gives (λ x. (trees_view x.0.items, map element_view x.1.now)) result
        (trees_at depth count (map element_view elements.now)) }
{
    let mut trees = Vec::new(alloc);
    let mut rest = elements;
    'trees: for _ in 0..count {
        let (tree, after) = take_tree(alloc, rest, depth)?;
        trees.push(tree)?;
        rest = after;
    }
    Ok((trees, rest))
}

/// Whether the elements are so many trees in preorder, and no more.
fn is_preorder(elements: &[SchemaElement], count: usize) -> bool
    ensures { result ≡ counted count (map element_view elements.now) }
{
    let mut pending = count;
    for element in elements {
        if pending == 0 || !is_childless(element) {
            return false;
        }
        let Some(sum) = (pending - 1).checked_add(element.num_children) else {
            return false;
        };
        pending = sum;
    }
    pending == 0
}

fn is_childless(element: &SchemaElement) -> bool
    ensures { result ≡ is_childless_of (element_view element.now) }
{
    element.physical_type.is_none() || element.num_children == 0
}

/// The trees that the elements spell in preorder. `OutOfSpec(S1)` where a leaf has children, or
/// where elements are missing or left over, and `NotYetImplemented(N7)` where the trees nest
/// deeper than 127, so that the schema nests past 128.
pub fn read_trees(
    alloc: Global,
    elements: &[SchemaElement],
    count: usize,
) -> Result<Vec<ParquetType>, Error>
    ensures found { IfOk result (λ ts. AreTrees (map element_view elements.now) count (trees_view ts.items)) }
    ensures shallow { IfOk result (λ ts. nesting_of (trees_view ts.items) ≤ max_nesting) }
    ensures refused { IfErr result (RefusesTrees (map element_view elements.now) count) }
{
    if !is_preorder(elements, count) {
        return Err(Error::OutOfSpec(S::S1));
    }
    let (trees, _) = take_trees(alloc, count, elements, MAX_NESTING)?;
    Ok(trees)
}
