//! Which types are served.
ghost use Rattle.std.specs.Prelude.{◌≡◌, ◌≤◌};
ghost use Rattle.columns_core.specs.Measures.{nesting, fields_nesting};
ghost use Rattle.columns_core.specs.View.{type_view, fields_view};
ghost use Rattle.pq_headline.specs.Served.{is_served_type, are_served_fields};

use columns_core::{DataType, Field};

/// Whether a type is served, with all that is in it. It nests to at most 128.
#[cycle(served)]
fn is_type_served(data_type: &DataType) -> bool
    requires { nesting (type_view data_type.now) ≤ 128 }
    ensures { result ≡ is_served_type (type_view data_type.now) }
{
    match data_type {
        DataType::List(item) | DataType::LargeList(item) => is_type_served(&item.data_type),
        DataType::Map(entry, _) => is_type_served(&entry.data_type),
        DataType::Struct(fields) => are_fields_served(fields),
        DataType::Extension(_, inner, _) => is_type_served(inner),
        DataType::FixedSizeList(_, _) | DataType::Union(_, _, _) => false,
        DataType::Dictionary(_, _, _) => false,
        _ => true,
    }
}

/// Whether all fields are of types that are served. They nest to at most 128.
#[cycle(served)]
pub fn are_fields_served(fields: &Vec<Field>) -> bool
    requires { fields_nesting (fields_view fields.now.items) ≤ 128 }
    ensures { result ≡ are_served_fields (fields_view fields.now.items) }
{
    for field in fields {
        if !is_type_served(&field.data_type) {
            return false;
        }
    }
    true
}
