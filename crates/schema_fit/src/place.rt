//! A walk over those parts of a tree that are left once required nodes are spliced out. It takes no memory: a place
//! has a number for each level, which counts the children that were passed, or says of a node whether it was given.
ghost use Rattle.std.specs.Prelude.{◌≡◌, ◌≤◌, ◌<◌, ◌+◌, ◌-◌, ◌^◌, length, replicate, IfSome};
ghost use Rattle.pq_tree.specs.Tree.{nesting, nesting_of};
ghost use Rattle.pq_tree.specs.TreeViews.{tree_view, trees_view};
ghost use Rattle.pq_tree.specs.Views.{repetition_view};
ghost use Rattle.schema_fit.specs.Places.{found_bone, found_nesting, repetition_at, Steps};
ghost use Rattle.schema_fit.specs.Skeleton.{trees_bones, bone, no_bones};
ghost use Rattle.schema_fit.specs.Walk.{has_bones, inner_bones, next_at, beneath, once, rest_of, rest_in, rest_inside, rest_from};

use pq_tree::{ParquetType, PrimitiveType, Repetition};

/// A part of a tree without its required nodes.
#[derive(Clone, Copy)]
pub enum Found<'a> {
    Leaf(&'a PrimitiveType),
    /// What is beneath this node may be missing.
    Optional(&'a ParquetType),
    /// What is beneath this node may stand any number of times.
    Repeated(&'a ParquetType),
}

/// A node as it stands, or what is beneath it.
#[derive(Clone, Copy)]
pub struct Source<'a> {
    pub node: &'a ParquetType,
    pub is_inside: bool,
}

/// Whether a column is beneath the node.
#[cycle(columns)]
pub fn holds_column(node: &ParquetType) -> bool
    ensures { result ≡ has_bones (inner_bones (tree_view node.now)) }
{
    match node {
        ParquetType::PrimitiveType(_) => true,
        ParquetType::GroupType { fields, .. } => hold_column(fields),
    }
}

#[cycle(columns)]
#[tactic(auto, using(crate::proofs::Bones::has_more))]
fn hold_column(nodes: &[ParquetType]) -> bool
    ensures { result ≡ has_bones (trees_bones (trees_view nodes.now)) }
{
    for node in nodes {
        if holds_column(node) {
            return true;
        }
    }
    false
}

fn repetition(node: &ParquetType) -> Repetition
    ensures { repetition_view result ≡ repetition_at (tree_view node.now) }
{
    match node {
        ParquetType::PrimitiveType(leaf) => leaf.field_info.repetition,
        ParquetType::GroupType { field_info, .. } => field_info.repetition,
    }
}

fn give_once<'a>(found: Found<'a>, path: &mut [usize]) -> Option<Found<'a>>
    requires { 0 < length path.old }
    ensures next { Steps result (once (next_at path.old) (bone (found_bone found.entry) no_bones))
        (once (next_at path.new) (bone (found_bone found.entry) no_bones)) }
    ensures same { IfSome result (λ b. b ≡ found.entry) }
{
    if path[0] > 0 {
        return None;
    }
    path[0] = 1;
    Some(found)
}

/// The child that comes next.
fn at(path: &[usize]) -> usize
    requires { 0 < length path.now }
    ensures { result ≡ next_at path.now }
{
    path[0]
}

/// Goes on to the child behind that one.
fn pass(path: &mut [usize])
    requires small { next_at path.old + 1 < 2 ^ 64 }
    requires room { 0 < length path.old }
    ensures at { next_at path.new ≡ next_at path.old + 1 }
    ensures begins { beneath path.new ≡ replicate (length path.old - 1) 0 }
{
    path[0] += 1;
    path[1..].fill(0);
}

/// The next part of what is beneath the node.
#[cycle(places)]
fn next_inside<'a>(node: &'a ParquetType, path: &mut [usize]) -> Option<Found<'a>>
    requires { nesting (tree_view node.now) ≤ length path.old }
    ensures next { Steps result (rest_inside (tree_view node.now) path.old)
        (rest_inside (tree_view node.now) path.new) }
    ensures shallow { IfSome result (λ b. found_nesting b ≤ nesting (tree_view node.now)) }
{
    match node {
        ParquetType::PrimitiveType(leaf) => give_once(Found::Leaf(leaf), path),
        ParquetType::GroupType { fields, .. } => next_of_nodes(fields, path),
    }
}

/// The next part of the node.
#[cycle(places)]
fn next_of_node<'a>(node: &'a ParquetType, path: &mut [usize]) -> Option<Found<'a>>
    requires { nesting (tree_view node.now) ≤ length path.old }
    ensures next { Steps result (rest_of (tree_view node.now) path.old) (rest_of (tree_view node.now) path.new) }
    ensures shallow { IfSome result (λ b. found_nesting b ≤ nesting (tree_view node.now)) }
{
    let found = match repetition(node) {
        Repetition::Required => return next_inside(node, path),
        Repetition::Optional => Found::Optional(node),
        Repetition::Repeated => Found::Repeated(node),
    };
    if !holds_column(node) {
        return None;
    }
    give_once(found, path)
}

/// The next part of a node, which the path comes to one level down.
#[cycle(places)]
fn next_beneath<'a>(node: &'a ParquetType, path: &mut [usize]) -> Option<Found<'a>>
    requires { nesting (tree_view node.now) < length path.old }
    ensures at { next_at path.new ≡ next_at path.old }
    ensures next { Steps result (rest_of (tree_view node.now) (beneath path.old))
        (rest_of (tree_view node.now) (beneath path.new)) }
    ensures shallow { IfSome result (λ b. found_nesting b ≤ nesting (tree_view node.now)) }
{
    next_of_node(node, &mut path[1..])
}

/// The next part of the nodes, those of the first ones first.
#[cycle(places)]
fn next_of_nodes<'a>(nodes: &'a [ParquetType], path: &mut [usize]) -> Option<Found<'a>>
    requires { nesting_of (trees_view nodes.now) < length path.old }
    ensures next { Steps result (rest_in (trees_view nodes.now) (next_at path.old) (beneath path.old))
        (rest_in (trees_view nodes.now) (next_at path.new) (beneath path.new)) }
    ensures shallow { IfSome result (λ b. found_nesting b ≤ nesting_of (trees_view nodes.now)) }
{
    'nodes: loop {
        let index = at(path);
        if index >= nodes.len() {
            return None;
        }
        if let Some(found) = next_beneath(&nodes[index], path) {
            return Some(found);
        }
        pass(path);
    }
}

/// The next part of the source.
pub fn next<'a>(source: Source<'a>, path: &mut [usize]) -> Option<Found<'a>>
    requires { nesting (tree_view source.node.now) ≤ length path.old }
    ensures next { Steps result (rest_from source.entry.is_inside (tree_view source.entry.node.now) path.old)
        (rest_from source.entry.is_inside (tree_view source.entry.node.now) path.new) }
    ensures shallow { IfSome result (λ b. found_nesting b ≤ nesting (tree_view source.entry.node.now)) }
{
    if source.is_inside {
        return next_inside(source.node, path);
    }
    next_of_node(source.node, path)
}
