//! 64-bit times of seconds or milliseconds, which no file has.
ghost use Rattle.std.specs.Prelude.{◌≡◌, ◌≤◌};
ghost use Rattle.columns_core.specs.Measures.{nesting, fields_nesting};
ghost use Rattle.columns_core.specs.View.{type_view, fields_view};
ghost use Rattle.schema_to_tree.specs.Conditions.{is_bad_time64, some_type, some_fields};

use columns_core::{DataType, Field, TimeUnit};

/// Whether a type has such a time in it. It nests to at most 128.
#[cycle(times)]
pub fn has_bad_time64(data_type: &DataType) -> bool
    requires { nesting (type_view data_type.now) ≤ 128 }
    ensures { result ≡ some_type is_bad_time64 (type_view data_type.now) }
{
    match data_type {
        DataType::Time64(unit) => matches!(unit, TimeUnit::Second | TimeUnit::Millisecond),
        DataType::List(item) | DataType::LargeList(item) | DataType::FixedSizeList(item, _) => {
            has_bad_time64(&item.data_type)
        }
        DataType::Struct(fields) | DataType::Union(fields, _, _) => have_bad_time64(fields),
        DataType::Map(entry, _) => has_bad_time64(&entry.data_type),
        DataType::Dictionary(_, value, _) => has_bad_time64(value),
        DataType::Extension(_, inner, _) => has_bad_time64(inner),
        _ => false,
    }
}

/// Whether one of the fields has such a time in it. Each nests to at most 128.
#[cycle(times)]
pub fn have_bad_time64(fields: &Vec<Field>) -> bool
    requires { fields_nesting (fields_view fields.now.items) ≤ 128 }
    ensures { result ≡ some_fields is_bad_time64 (fields_view fields.now.items) }
{
    for field in fields {
        if has_bad_time64(&field.data_type) {
            return true;
        }
    }
    false
}
