//! Field and tree side by side.
ghost use Rattle.std.specs.Prelude.{◌≡◌, ◌≤◌, Bool, length};
ghost use Rattle.columns_core.specs.View.{type_view, field_view, fields_view};
ghost use Rattle.pq_tree.specs.Tree.{nesting};
ghost use Rattle.pq_tree.specs.TreeViews.{tree_view};
ghost use Rattle.pq_tree.specs.Types.{repeated};
ghost use Rattle.schema_fit.specs.Fits.{compared};
ghost use Rattle.schema_fit.specs.PageTable.{go_together};
ghost use Rattle.schema_fit.specs.Skeleton.{type_bones, field_bones, fields_bones, same_bones, under};
ghost use Rattle.schema_fit.specs.Walk.{has_bones, inner_bones, rest_from, leaf_alone, Eats};

use crate::page_table::{Asked, goes_together};
use crate::place::{Found, Source, next};
use columns_core::{DataType, Field};
use pq_tree::ParquetType;

/// The greatest nesting of a tree.
const MAX_NESTING: usize = 128;

/// Whether a leaf is beneath the type.
#[cycle(leaves)]
#[tactic(auto, using(crate::proofs::Bones::has_under))]
fn holds_leaf(data_type: &DataType) -> bool
    ensures { (b : Bool) → has_bones (type_bones b (type_view data_type.now)) ≡ result }
{
    match data_type {
        DataType::List(item) => field_holds_leaf(item),
        DataType::LargeList(item) => field_holds_leaf(item),
        DataType::Map(entry, _) => field_holds_leaf(entry),
        DataType::Struct(fields) => hold_leaf(fields),
        DataType::Extension(_, inner, _) => holds_leaf(inner),
        _ => true,
    }
}

#[cycle(leaves)]
#[tactic(auto, using(crate::proofs::Bones::has_under))]
fn field_holds_leaf(field: &Field) -> bool
    ensures { has_bones (field_bones (field_view field.now)) ≡ result }
{
    holds_leaf(&field.data_type)
}

#[cycle(leaves)]
#[tactic(auto, using(crate::proofs::Bones::has_and_then))]
fn hold_leaf(fields: &[Field]) -> bool
    ensures { has_bones (fields_bones (fields_view fields.now)) ≡ result }
{
    for field in fields {
        if field_holds_leaf(field) {
            return true;
        }
    }
    false
}

/// Whether the field stands at the front of what is left of the source. If so, it is passed.
#[cycle(walk)]
fn eat_field(asked: Asked, field: &Field, source: Source<'_>, path: &mut [usize]) -> bool
    requires deep { nesting (tree_view source.node.now) ≤ 128 }
    requires room { length path.old ≡ 128 }
    ensures { Eats (go_together asked) result (field_bones (field_view field.now))
        (rest_from source.entry.is_inside (tree_view source.entry.node.now) path.old)
        (rest_from source.entry.is_inside (tree_view source.entry.node.now) path.new) }
{
    if !field.is_nullable {
        return eat_type(asked, false, &field.data_type, source, path);
    }
    if !holds_leaf(&field.data_type) {
        return true;
    }
    let Some(found) = next(source, path) else {
        return false;
    };
    match found {
        Found::Optional(node) => is_type_inside(asked, true, &field.data_type, node),
        Found::Leaf(_) => false,
        Found::Repeated(_) => false,
    }
}

/// The same of a type, as under a required field.
#[cycle(walk)]
fn eat_type(
    asked: Asked,
    is_nullable: bool,
    data_type: &DataType,
    source: Source<'_>,
    path: &mut [usize],
) -> bool
    requires deep { nesting (tree_view source.node.now) ≤ 128 }
    requires room { length path.old ≡ 128 }
    ensures { Eats (go_together asked) result (type_bones is_nullable (type_view data_type.now))
        (rest_from source.entry.is_inside (tree_view source.entry.node.now) path.old)
        (rest_from source.entry.is_inside (tree_view source.entry.node.now) path.new) }
{
    match data_type {
        DataType::List(item) => eat_items(asked, item, source, path),
        DataType::LargeList(item) => eat_items(asked, item, source, path),
        DataType::Map(entry, _) => eat_items(asked, entry, source, path),
        DataType::Struct(fields) => eat_fields(asked, fields, source, path),
        DataType::Extension(_, inner, _) => eat_type(asked, is_nullable, inner, source, path),
        _ => eat_leaf(asked, is_nullable, data_type, source, path),
    }
}

/// The same of any number of items.
#[cycle(walk)]
fn eat_items(asked: Asked, item: &Field, source: Source<'_>, path: &mut [usize]) -> bool
    requires deep { nesting (tree_view source.node.now) ≤ 128 }
    requires room { length path.old ≡ 128 }
    ensures { Eats (go_together asked) result (under repeated (field_bones (field_view item.now)))
        (rest_from source.entry.is_inside (tree_view source.entry.node.now) path.old)
        (rest_from source.entry.is_inside (tree_view source.entry.node.now) path.new) }
{
    if !field_holds_leaf(item) {
        return true;
    }
    let Some(found) = next(source, path) else {
        return false;
    };
    match found {
        Found::Repeated(node) => is_field_inside(asked, item, node),
        Found::Leaf(_) => false,
        Found::Optional(_) => false,
    }
}

/// The same of fields in order.
#[cycle(walk)]
fn eat_fields(asked: Asked, fields: &[Field], source: Source<'_>, path: &mut [usize]) -> bool
    requires deep { nesting (tree_view source.node.now) ≤ 128 }
    requires room { length path.old ≡ 128 }
    ensures { Eats (go_together asked) result (fields_bones (fields_view fields.now))
        (rest_from source.entry.is_inside (tree_view source.entry.node.now) path.old)
        (rest_from source.entry.is_inside (tree_view source.entry.node.now) path.new) }
{
    for field in fields {
        if !eat_field(asked, field, source, path) {
            return false;
        }
    }
    true
}

/// The same of a leaf.
fn eat_leaf(
    asked: Asked,
    is_nullable: bool,
    data_type: &DataType,
    source: Source<'_>,
    path: &mut [usize],
) -> bool
    requires deep { nesting (tree_view source.node.now) ≤ 128 }
    requires room { length path.old ≡ 128 }
    ensures { Eats (go_together asked) result (leaf_alone is_nullable (type_view data_type.now))
        (rest_from source.entry.is_inside (tree_view source.entry.node.now) path.old)
        (rest_from source.entry.is_inside (tree_view source.entry.node.now) path.new) }
{
    let Some(found) = next(source, path) else {
        return false;
    };
    match found {
        Found::Leaf(leaf) => goes_together(asked, is_nullable, data_type, leaf),
        Found::Optional(_) => false,
        Found::Repeated(_) => false,
    }
}

/// Whether the type, as under a required field, and what is beneath the node are the same.
#[cycle(walk)]
fn is_type_inside(asked: Asked, is_nullable: bool, data_type: &DataType, node: &ParquetType) -> bool
    requires { nesting (tree_view node.now) ≤ 128 }
    ensures { result ≡ same_bones (go_together asked) (type_bones is_nullable (type_view data_type.now))
        (inner_bones (tree_view node.now)) }
{
    let mut path = [0; MAX_NESTING];
    let source = Source {
        node,
        is_inside: true,
    };
    if !eat_type(asked, is_nullable, data_type, source, &mut path) {
        return false;
    }
    next(source, &mut path).is_none()
}

/// Whether the field and what is beneath the node are the same.
#[cycle(walk)]
fn is_field_inside(asked: Asked, field: &Field, node: &ParquetType) -> bool
    requires { nesting (tree_view node.now) ≤ 128 }
    ensures { result ≡ same_bones (go_together asked) (field_bones (field_view field.now))
        (inner_bones (tree_view node.now)) }
{
    let mut path = [0; MAX_NESTING];
    let source = Source {
        node,
        is_inside: true,
    };
    if !eat_field(asked, field, source, &mut path) {
        return false;
    }
    next(source, &mut path).is_none()
}

/// Whether the field and the node are the same.
pub fn is_same(asked: Asked, field: &Field, node: &ParquetType) -> bool
    requires { nesting (tree_view node.now) ≤ 128 }
    ensures { result ≡ compared asked (field_view field.now) (tree_view node.now) }
{
    let mut path = [0; MAX_NESTING];
    let source = Source {
        node,
        is_inside: false,
    };
    if !eat_field(asked, field, source, &mut path) {
        return false;
    }
    next(source, &mut path).is_none()
}
