//! The columns of trees, by a walk from above that counts the levels.
ghost use Rattle.std.specs.Prelude.{◌≡◌, ◌≤◌, ◌+◌, ◌++◌, ◌↔◌, IsTrue, OnOk, IfOk, IfErr, map};
ghost use Rattle.columns_base.specs.declared.error.Error.TheVariants.{Memory};
ghost use Rattle.pq_tree.specs.Columns.{columns_under, columns_beneath};
ghost use Rattle.pq_tree.specs.Described.{column_view};
ghost use Rattle.pq_tree.specs.Tree.{nesting, nesting_of, defines, repeats, leaf};
ghost use Rattle.pq_tree.specs.TreeViews.{info_view, tree_view, trees_view, leaf_view};
ghost use Rattle.pq_tree.specs.Views.{physical_view, repetition_view};

use crate::types::{Descriptor, ParquetType, PrimitiveType, Repetition};
use columns_base::Error;
use std::alloc::Global;

/// How deep the nodes beneath a schema's root may nest: with the root it is 128.
pub const MAX_NESTING: u8 = 127;

/// Whether the tree nests no deeper than this.
#[cycle(nesting)]
fn nests_within(tree: &ParquetType, depth: u8) -> bool
    ensures { IsTrue result ↔ nesting (tree_view tree.now) ≤ depth }
{
    if depth == 0 {
        return false;
    }
    match tree {
        ParquetType::PrimitiveType(_) => true,
        ParquetType::GroupType { fields, .. } => all_nest_within(fields, depth - 1),
    }
}

/// Whether each of the trees nests no deeper than this.
#[cycle(nesting)]
pub fn all_nest_within(trees: &Vec<ParquetType>, depth: u8) -> bool
    ensures { IsTrue result ↔ nesting_of (trees_view trees.now.items) ≤ depth }
{
    for tree in trees {
        if !nests_within(tree, depth) {
            return false;
        }
    }
    true
}

fn defined_by(repetition: Repetition) -> u8
    ensures { result ≡ defines (repetition_view repetition) }
{
    match repetition {
        Repetition::Required => 0,
        Repetition::Optional => 1,
        Repetition::Repeated => 1,
    }
}

fn repeated_by(repetition: Repetition) -> u8
    ensures { result ≡ repeats (repetition_view repetition) }
{
    match repetition {
        Repetition::Required => 0,
        Repetition::Optional => 0,
        Repetition::Repeated => 1,
    }
}

fn push_column(
    alloc: Global,
    leaf: &PrimitiveType,
    definition: u8,
    repetition: u8,
    columns: &mut Vec<Descriptor>,
) -> Result<(), Error>
    requires defines { definition + 1 ≤ 255 }
    requires repeats { repetition + 1 ≤ 255 }
    ensures found { OnOk result (map column_view columns.new.items
        ≡ map column_view columns.old.items ++ columns_under definition repetition (leaf_view leaf.now)) }
    ensures refused { IfErr result (λ e. e ≡ Memory) }
{
    let primitive_type = leaf.clone(alloc)?;
    let step = leaf.field_info.repetition;
    columns.push(Descriptor {
        primitive_type,
        max_def_level: i16::from(definition + defined_by(step)),
        max_rep_level: i16::from(repetition + repeated_by(step)),
    })?;
    Ok(())
}

/// Appends the tree's columns, beneath nodes that have so many levels.
#[cycle(columns)]
fn push_columns(
    alloc: Global,
    tree: &ParquetType,
    definition: u8,
    repetition: u8,
    columns: &mut Vec<Descriptor>,
) -> Result<(), Error>
    requires defines { definition + nesting (tree_view tree.now) ≤ 255 }
    requires repeats { repetition + nesting (tree_view tree.now) ≤ 255 }
    ensures found { OnOk result (map column_view columns.new.items
        ≡ map column_view columns.old.items ++ columns_under definition repetition (tree_view tree.now)) }
    ensures refused { IfErr result (λ e. e ≡ Memory) }
{
    match tree {
        ParquetType::PrimitiveType(leaf) => {
            push_column(alloc, leaf, definition, repetition, columns)
        }
        ParquetType::GroupType {
            field_info,
            fields,
            ..
        } => push_all_columns(
            alloc,
            fields,
            definition + defined_by(field_info.repetition),
            repetition + repeated_by(field_info.repetition),
            columns,
        ),
    }
}

/// Appends the columns of trees, beneath nodes that have so many levels.
#[cycle(columns)]
pub fn push_all_columns(
    alloc: Global,
    trees: &Vec<ParquetType>,
    definition: u8,
    repetition: u8,
    columns: &mut Vec<Descriptor>,
) -> Result<(), Error>
    requires defines { definition + nesting_of (trees_view trees.now.items) ≤ 255 }
    requires repeats { repetition + nesting_of (trees_view trees.now.items) ≤ 255 }
    ensures found { OnOk result (map column_view columns.new.items
        ≡ map column_view columns.old.items ++ columns_beneath definition repetition (trees_view trees.now.items)) }
    ensures refused { IfErr result (λ e. e ≡ Memory) }
{
    for tree in trees {
        push_columns(alloc, tree, definition, repetition, columns)?;
    }
    Ok(())
}
