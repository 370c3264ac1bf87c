//! What a node says of itself.
ghost use Rattle.std.specs.Prelude.{◌≡◌, string_bytes};
ghost use Rattle.columns_core.specs.View.{type_view, field_view};
ghost use Rattle.pq_tree.specs.TreeViews.{tree_view};
ghost use Rattle.pq_tree.specs.Views.{repetition_view};
ghost use Rattle.schema_from_tree.specs.Answers.{Gives};
ghost use Rattle.schema_from_tree.specs.FromTree.{is_nullable_of, info_of, item_info, names_an_item, field_named};

use columns_base::Result;
use columns_core::{DataType, Field, Metadata};
use pq_tree::{FieldInfo, ParquetType, Repetition};
use std::alloc::Global;

/// Whether a node may be missing under its parent: it is optional or repeated (Parquet format, `FieldRepetitionType`).
pub fn is_nullable(field_info: &FieldInfo) -> bool
    ensures { result ≡ is_nullable_of (repetition_view field_info.now.repetition) }
{
    match field_info.repetition {
        Repetition::Required => false,
        Repetition::Optional | Repetition::Repeated => true,
    }
}

/// What the node says of itself.
pub fn info_of_node(node: &ParquetType) -> &FieldInfo
    ensures name { string_bytes result.now.name ≡ (info_of (tree_view node.now)).name }
    ensures repetition { repetition_view result.now.repetition ≡ (info_of (tree_view node.now)).repetition }
{
    match node {
        ParquetType::PrimitiveType(leaf) => &leaf.field_info,
        ParquetType::GroupType { field_info, .. } => field_info,
    }
}

/// The node whose name and nullability the item of a list has, by the list's first child.
pub fn info_of_item(node: &ParquetType) -> &FieldInfo
    ensures name { string_bytes result.now.name ≡ (item_info (tree_view node.now)).name }
    ensures repetition { repetition_view result.now.repetition ≡ (item_info (tree_view node.now)).repetition }
{
    match node {
        ParquetType::PrimitiveType(leaf) => &leaf.field_info,
        ParquetType::GroupType {
            field_info,
            fields,
            ..
        } => match fields.as_slice() {
            [only] => {
                if field_info.name.as_str() == "list" {
                    return info_of_node(only);
                }
                field_info
            }
            [] | [_, _, ..] => field_info,
        },
    }
}

/// Whether a group under a list of this name is itself the item (Parquet format, LogicalTypes, "Backward-compatibility rules").
pub fn is_item_name(parent: &str, name: &str) -> bool
    ensures { result ≡ names_an_item parent.now name.now }
{
    if name == "array" {
        return true;
    }
    match name.as_bytes().strip_suffix(b"_tuple") {
        Some(stem) => stem == parent.as_bytes(),
        None => false,
    }
}

/// A field of the type, with the name and the nullability of the node.
pub fn field_as_node(alloc: Global, info: &FieldInfo, data_type: DataType) -> Result<Field>
    ensures { Gives field_view result (field_named (string_bytes info.now.name) (repetition_view info.now.repetition)
        (type_view data_type)) }
{
    Ok(Field {
        name: String::from_str(alloc, info.name.as_str())?,
        data_type,
        is_nullable: is_nullable(info),
        metadata: Metadata::new(alloc),
    })
}
