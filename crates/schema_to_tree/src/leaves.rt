//! The leaves of a type.
ghost use Rattle.std.specs.Prelude.{◌≡◌, ◌≤◌, IfOk, IfErr, OnErr, min, true, false};
ghost use Rattle.columns_core.specs.View.{type_view, fields_view};
ghost use Rattle.columns_core.specs.Measures.{leaves, fields_leaves, nesting, fields_nesting};
ghost use Rattle.columns_base.specs.declared.error.N.TheVariants.{N5};
ghost use Rattle.columns_base.specs.declared.error.Error.TheVariants.{NotYetImplemented};
ghost use Rattle.schema_to_tree.specs.Leaves as table;
ghost use Rattle.schema_to_tree.specs.Order.{IsFirst};
ghost use Rattle.schema_to_tree.specs.Leaves.{meets, fields_meet, is_union, is_branch, leaf_types, leaves_as, fields_leaf_types, way_fault, fields_way_fault, shown, Pushes, TakesEach, AnswersEach, HasLeaves, RefusesLeaves};

use columns_base::{A, Error, N, Result};
use columns_core::{DataType, Field};
use std::alloc::Global;

/// The number of a type's leaves, or `usize::MAX` where there are more. N5 for a union. The type nests to at most 128, which
/// `DataType::nests_within` tests.
#[cycle(count)]
pub fn n_columns(data_type: &DataType) -> Result<usize>
    requires { nesting (type_view data_type.now) ≤ 128 }
    ensures ok { IfOk result (λ n. n ≡ min usize.MAX (leaves (type_view data_type.now))) }
    ensures unions { IfOk result (λ n. meets is_union (type_view data_type.now) ≡ false) }
    ensures err { IfErr result (λ e. e ≡ NotYetImplemented N5) }
    ensures refused { OnErr result (meets is_union (type_view data_type.now) ≡ true) }
{
    match data_type {
        DataType::List(item) | DataType::LargeList(item) | DataType::FixedSizeList(item, _) => {
            n_columns(&item.data_type)
        }
        DataType::Map(entry, _) => n_columns(&entry.data_type),
        DataType::Struct(fields) => n_columns_of(fields),
        DataType::Extension(_, inner, _) => n_columns(inner),
        DataType::Union(_, _, _) => Err(Error::NotYetImplemented(N::N5)),
        _ => Ok(1),
    }
}

#[cycle(count)]
fn n_columns_of(fields: &Vec<Field>) -> Result<usize>
    requires { fields_nesting (fields_view fields.now.items) ≤ 128 }
    ensures ok { IfOk result (λ n. n ≡ min usize.MAX (fields_leaves (fields_view fields.now.items))) }
    ensures unions { IfOk result (λ n. fields_meet is_union (fields_view fields.now.items) ≡ false) }
    ensures err { IfErr result (λ e. e ≡ NotYetImplemented N5) }
    ensures refused { OnErr result (fields_meet is_union (fields_view fields.now.items) ≡ true) }
{
    let mut count = 0usize;
    for field in fields {
        count = count.saturating_add(n_columns(&field.data_type)?);
    }
    Ok(count)
}

/// What `map` gives for each leaf type, in order. A dictionary is a leaf, and an extension over a leaf is given as it stands.
/// N5 for a union, A8 for a map whose entry is no struct, whichever comes first in the order of the parts. The type nests to
/// at most 128, which `DataType::nests_within` tests.
pub fn transverse<T: Drop, F: Fn(&DataType) -> T + Drop>(
    alloc: Global,
    data_type: &DataType,
    map: F,
) -> Result<Vec<T>>
    requires depth { nesting (type_view data_type.now) ≤ 128 }
    requires taken { TakesEach F.Fn map (leaf_types (type_view data_type.now)) }
    ensures ok { IfOk result (λ v. AnswersEach F.Fn map (leaf_types (type_view data_type.now)) v.items
        × HasLeaves (type_view data_type.now)) }
    ensures err { IfErr result (λ e. RefusesLeaves (type_view data_type.now) e) }
    ensures first { IfErr result (IsFirst (way_fault (type_view data_type.now))) }
{
    let mut leaves = Vec::new(alloc);
    push_leaves(data_type, data_type, &mut leaves)?;
    let mut answers = Vec::with_capacity(alloc, leaves.len())?;
    for leaf in leaves.iter() {
        answers.push(map(*leaf))?;
    }
    Ok(answers)
}

#[cycle(push)]
fn push_leaves<'a>(
    data_type: &'a DataType,
    outer: &'a DataType,
    leaves: &mut Vec<&'a DataType>,
) -> Result<()>
    requires { nesting (type_view data_type.now) ≤ 128 }
    ensures { Pushes (shown leaves.old.items) (shown leaves.new.items)
        (leaves_as (type_view outer.now) (type_view data_type.now)) (way_fault (type_view data_type.now)) result }
{
    match data_type {
        DataType::List(item) | DataType::LargeList(item) | DataType::FixedSizeList(item, _) => {
            push_leaves(&item.data_type, &item.data_type, leaves)
        }
        DataType::Map(entry, _) => {
            if !is_struct(entry.data_type.base()) {
                return Err(Error::InvalidArgumentError(A::A8));
            }
            push_leaves(&entry.data_type, &entry.data_type, leaves)
        }
        DataType::Struct(fields) => push_leaves_of(fields, leaves),
        DataType::Extension(_, inner, _) => push_leaves(inner, outer, leaves),
        DataType::Union(_, _, _) => Err(Error::NotYetImplemented(N::N5)),
        _ => push_leaf(data_type, outer, leaves),
    }
}

#[cycle(push)]
fn push_leaves_of<'a>(fields: &'a Vec<Field>, leaves: &mut Vec<&'a DataType>) -> Result<()>
    requires { fields_nesting (fields_view fields.now.items) ≤ 128 }
    ensures { Pushes (shown leaves.old.items) (shown leaves.new.items)
        (fields_leaf_types (fields_view fields.now.items)) (fields_way_fault (fields_view fields.now.items)) result }
{
    for field in fields {
        push_leaves(&field.data_type, &field.data_type, leaves)?;
    }
    Ok(())
}

fn push_leaf<'a>(
    data_type: &'a DataType,
    outer: &'a DataType,
    leaves: &mut Vec<&'a DataType>,
) -> Result<()>
    requires { is_branch (type_view data_type.now) ≡ false }
    ensures { Pushes (shown leaves.old.items) (shown leaves.new.items)
        (leaves_as (type_view outer.now) (type_view data_type.now)) (way_fault (type_view data_type.now)) result }
{
    leaves.push(outer)?;
    Ok(())
}

fn is_struct(data_type: &DataType) -> bool
    ensures { result ≡ table.is_struct (type_view data_type.now) }
{
    matches!(data_type, DataType::Struct(_))
}
