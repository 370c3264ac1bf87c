//! The nodes of a tree.
ghost use Rattle.std.specs.Prelude.{◌≡◌, IfOk, None};
ghost use Rattle.pq_tree.specs.Tree.{group};
ghost use Rattle.pq_tree.specs.Views.{converted_view, logical_view};
ghost use Rattle.pq_tree.specs.TreeViews.{info_view, tree_view, trees_view};
ghost use Rattle.schema_to_tree.specs.Table.{leaf_of, marked, over};
ghost use Rattle.schema_to_tree.specs.StoredViews.{stored_view};

use crate::stored::StoredAs;
use pq_tree::{ConvertedType, FieldInfo, LogicalType, ParquetType, PrimitiveType, Repetition};
use std::alloc::{AllocError, Global};

/// A leaf.
pub fn leaf_of(field_info: FieldInfo, stored: StoredAs) -> ParquetType
    ensures { tree_view result ≡ leaf_of (info_view field_info None None) (stored_view stored) }
{
    ParquetType::PrimitiveType(PrimitiveType {
        field_info,
        logical_type: stored.logical_type,
        converted_type: stored.converted_type,
        physical_type: stored.physical_type,
    })
}

/// A struct: a group without annotations.
pub fn struct_of(field_info: FieldInfo, fields: Vec<ParquetType>) -> ParquetType
    ensures { tree_view result ≡ group (marked (info_view field_info None None) None None) (trees_view fields.items) }
{
    ParquetType::GroupType {
        field_info,
        logical_type: None,
        converted_type: None,
        fields,
    }
}

/// A list or a map: an annotated group over a repeated group over the part (Parquet format, LogicalTypes, "Nested
/// Types").
pub fn over(
    alloc: Global,
    field_info: FieldInfo,
    converted_type: ConvertedType,
    logical_type: LogicalType,
    middle: &str,
    part: ParquetType,
) -> Result<ParquetType, AllocError>
    ensures { IfOk result (λ p. tree_view p ≡ over (info_view field_info None None) (converted_view converted_type)
        (logical_view logical_type) middle.now (tree_view part)) }
{
    let mut parts = Vec::with_capacity(alloc, 1)?;
    parts.push(part)?;
    let middle = ParquetType::GroupType {
        field_info: FieldInfo {
            name: String::from_str(alloc, middle)?,
            repetition: Repetition::Repeated,
            id: None,
        },
        logical_type: None,
        converted_type: None,
        fields: parts,
    };
    let mut fields = Vec::with_capacity(alloc, 1)?;
    fields.push(middle)?;
    Ok(ParquetType::GroupType {
        field_info,
        logical_type: Some(logical_type),
        converted_type: Some(converted_type),
        fields,
    })
}
