//! How deep types and their trees nest.
ghost use Rattle.std.specs.Prelude.{◌≡◌, ◌≤◌, min};
ghost use Rattle.columns_core.specs.View.{type_view, fields_view};
ghost use Rattle.columns_core.specs.Measures.{nesting, fields_nesting};
ghost use Rattle.schema_to_tree.specs.Depth.{tree_depth, fields_tree_depth};

use columns_core::{DataType, Field};

/// How deep a type nests, or `limit` where it nests deeper. What lies deeper is not looked at.
#[cycle(nesting)]
pub fn nesting_to(data_type: &DataType, limit: usize) -> usize
    ensures { result ≡ min limit (nesting (type_view data_type.now)) }
{
    if limit == 0 {
        return 0;
    }
    match data_type {
        DataType::List(item) | DataType::LargeList(item) | DataType::FixedSizeList(item, _) => {
            nesting_to(&item.data_type, limit - 1) + 1
        }
        DataType::Struct(fields) | DataType::Union(fields, _, _) => {
            fields_nesting_to(fields, limit - 1) + 1
        }
        DataType::Map(entry, _) => nesting_to(&entry.data_type, limit - 1) + 1,
        DataType::Dictionary(_, value, _) => nesting_to(value, limit - 1) + 1,
        DataType::Extension(_, inner, _) => nesting_to(inner, limit - 1) + 1,
        _ => 1,
    }
}

/// How deep the deepest of the fields nests, or `limit` where one nests deeper.
#[cycle(nesting)]
pub fn fields_nesting_to(fields: &Vec<Field>, limit: usize) -> usize
    ensures { result ≡ min limit (fields_nesting (fields_view fields.now.items)) }
{
    let mut deepest = 0;
    for field in fields {
        deepest = nesting_to(&field.data_type, limit).max(deepest);
    }
    deepest
}

/// How deep the tree of a type nests, or `limit` where it nests deeper. The type itself, which is walked whole, nests to at
/// most 128.
#[cycle(tree_depth)]
pub fn tree_depth_to(data_type: &DataType, limit: usize) -> usize
    requires { nesting (type_view data_type.now) ≤ 128 }
    ensures { result ≡ min limit (tree_depth (type_view data_type.now)) }
{
    match data_type {
        DataType::List(item) | DataType::LargeList(item) | DataType::FixedSizeList(item, _) => {
            tree_depth_to(&item.data_type, limit)
                .saturating_add(2)
                .min(limit)
        }
        DataType::Map(entry, _) => tree_depth_to(&entry.data_type, limit)
            .saturating_add(2)
            .min(limit),
        DataType::Struct(fields) => fields_tree_depth_to(fields, limit)
            .saturating_add(1)
            .min(limit),
        DataType::Dictionary(_, value, _) => tree_depth_to(value, limit),
        DataType::Extension(_, inner, _) => tree_depth_to(inner, limit),
        _ => limit.min(1),
    }
}

/// How deep the deepest tree of the fields nests, or `limit` where one nests deeper. Each type nests to at most 128.
#[cycle(tree_depth)]
pub fn fields_tree_depth_to(fields: &Vec<Field>, limit: usize) -> usize
    requires { fields_nesting (fields_view fields.now.items) ≤ 128 }
    ensures { result ≡ min limit (fields_tree_depth (fields_view fields.now.items)) }
{
    let mut deepest = 0;
    for field in fields {
        deepest = tree_depth_to(&field.data_type, limit).max(deepest);
    }
    deepest
}
