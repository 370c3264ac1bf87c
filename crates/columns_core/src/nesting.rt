//! How deep types nest.
ghost use Rattle.std.specs.Prelude.{◌≤◌, ◌↔◌, IsTrue};
ghost use Rattle.columns_core.specs.View.{type_view, field_view, fields_view, schema_view};
ghost use Rattle.columns_core.specs.Measures.{nesting, field_nesting, fields_nesting};

use crate::types::{DataType, Field, Schema};

/// How deep types may nest that are read from bytes, written, or walked: an ordinary type nests 1, one with a type inside it one
/// more than that.
pub const MAX_NESTING: usize = 128;

impl DataType {
    /// Whether the type nests no deeper than `limit`. What lies deeper is not looked at.
    pub fn nests_within(&self, limit: usize) -> bool
        ensures { IsTrue result ↔ nesting (type_view self.now) ≤ limit }
    {
        nests_within(self, limit)
    }
}

impl Field {
    /// Whether the field's type nests no deeper than `limit`. What lies deeper is not looked at.
    pub fn nests_within(&self, limit: usize) -> bool
        ensures { IsTrue result ↔ field_nesting (field_view self.now) ≤ limit }
    {
        nests_within(&self.data_type, limit)
    }
}

impl Schema {
    /// Whether no field's type nests deeper than `limit`. What lies deeper is not looked at.
    pub fn nests_within(&self, limit: usize) -> bool
        ensures { IsTrue result ↔ fields_nesting (schema_view self.now).fields ≤ limit }
    {
        all_nest_within(&self.fields, limit)
    }
}

#[cycle(nests)]
fn nests_within(data_type: &DataType, limit: usize) -> bool
    ensures { IsTrue result ↔ nesting (type_view data_type.now) ≤ limit }
{
    if limit == 0 {
        return false;
    }
    match data_type {
        DataType::List(item) | DataType::LargeList(item) | DataType::FixedSizeList(item, _) => {
            nests_within(&item.data_type, limit - 1)
        }
        DataType::Struct(fields) | DataType::Union(fields, _, _) => {
            all_nest_within(fields, limit - 1)
        }
        DataType::Map(entry, _) => nests_within(&entry.data_type, limit - 1),
        DataType::Dictionary(_, value, _) => nests_within(value, limit - 1),
        DataType::Extension(_, inner, _) => nests_within(inner, limit - 1),
        _ => true,
    }
}

/// Whether no field's type nests deeper than `limit`. What lies deeper is not looked at.
#[cycle(nests)]
pub fn all_nest_within(fields: &Vec<Field>, limit: usize) -> bool
    ensures { IsTrue result ↔ fields_nesting (fields_view fields.now.items) ≤ limit }
{
    for field in fields {
        if !nests_within(&field.data_type, limit) {
            return false;
        }
    }
    true
}
