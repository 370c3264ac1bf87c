//! Whether a field and a tree are of one column.
ghost use Rattle.std.specs.Prelude.{◌≡◌, ◌≤◌};
ghost use Rattle.columns_core.specs.Measures.{field_nesting};
ghost use Rattle.columns_core.specs.View.{type_view, field_view};
ghost use Rattle.pq_tree.specs.Tree.{nesting};
ghost use Rattle.pq_tree.specs.TreeViews.{tree_view};
ghost use Rattle.schema_fit.specs.Fits.{asked_of, agrees_with, fits_to};

use crate::page_table::Asked;
use crate::walk::is_same;
use columns_core::{DataType, Field};
use pq_tree::ParquetType;

/// What is asked of the leaves of a column of the type: it is flat where the type is that of a leaf.
fn asked_for(data_type: &DataType) -> Asked
    ensures { result ≡ asked_of (type_view data_type.now) }
{
    match data_type {
        DataType::List(_) | DataType::LargeList(_) => Asked::Nested,
        DataType::Map(_, _) | DataType::Struct(_) => Asked::Nested,
        _ => Asked::Flat,
    }
}

/// Whether pages of the tree's columns may hold the rows of the field: optional, repeated and leaf nodes stand where
/// the field has nullable fields, lists and leaves, and each leaf is stored as its Arrow type allows there, in the same
/// unit of time (Parquet format, LogicalTypes; Arrow columnar format, "Data Types"). Names and field ids are not
/// compared, and groups and structs without a column count as absent.
///
/// Both nest to at most 128: `Field::nests_within` tests the field, and the trees of every `SchemaDescriptor` do.
pub fn fits(field: &Field, type_: &ParquetType) -> bool
    requires field { field_nesting (field_view field.now) ≤ 128 }
    requires tree { nesting (tree_view type_.now) ≤ 128 }
    ensures { result ≡ fits_to (field_view field.now) (tree_view type_.now) }
{
    is_same(asked_for(field.data_type.base()), field, type_)
}

/// Whether nothing that is known of the field speaks against the tree: as `fits`, but a leaf whose Arrow type no page
/// holds goes together with every leaf, and a leaf that pages hold in flat columns alone may be nested. Both nest as `fits` asks.
pub fn agrees(field: &Field, type_: &ParquetType) -> bool
    requires field { field_nesting (field_view field.now) ≤ 128 }
    requires tree { nesting (tree_view type_.now) ≤ 128 }
    ensures { result ≡ agrees_with (field_view field.now) (tree_view type_.now) }
{
    is_same(Asked::Agreement, field, type_)
}
