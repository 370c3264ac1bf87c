//! By which rule a group goes.
ghost use Rattle.std.specs.Prelude.{◌≡◌, option_map};
ghost use Rattle.pq_tree.specs.Views.{logical_view, converted_view};
ghost use Rattle.schema_from_tree.specs.FromTree.{rule_of};

use pq_tree::{ConvertedType, LogicalType};

/// The rules of groups that are not repeated (Parquet format, LogicalTypes, "Nested Types").
#[derive(Clone, Copy, Debug, PartialEq, Eq)]
pub enum Rule {
    /// A list of what its first child holds.
    ByList,
    /// A map over the field of its first child.
    ByMap,
    /// A struct of its fields.
    ByStruct,
}

/// The rule of a group with these annotations.
pub fn rule_of_group(
    logical_type: Option<LogicalType>,
    converted_type: Option<ConvertedType>,
) -> Rule
    ensures { result ≡ rule_of (option_map logical_view logical_type) (option_map converted_view converted_type) }
{
    match (logical_type, converted_type) {
        (Some(LogicalType::List | LogicalType::Map), _) => Rule::ByList,
        (None, Some(ConvertedType::List)) => Rule::ByList,
        (None, Some(ConvertedType::Map | ConvertedType::MapKeyValue)) => Rule::ByMap,
        _ => Rule::ByStruct,
    }
}
