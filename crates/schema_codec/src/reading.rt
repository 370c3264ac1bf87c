//! Reading a schema, from left to right.

ghost use Rattle.std.specs.Prelude.{◌≡◌, map};
ghost use Rattle.columns_core.specs.View.{type_view, field_view, fields_view, schema_view};
ghost use Rattle.schema_codec.specs.Parse.{Gives, items_at};
ghost use Rattle.schema_codec.specs.Reading.{type_at, parts_with, nested_with, field_at, fields_at, schema_at, plain_reads};

use crate::fault::Refusal;
use crate::leaves::{take_ids, take_leaf};
use crate::meta::take_metadata;
use crate::numbers::{
    take_count, take_key_type, take_optional_text, take_size, take_tag, take_text, take_truth,
};
use crate::tag::{Container, Tag, simple_type};
use columns_core::{DataType, Field, Schema};
use std::alloc::Global;

/// How deep a type may nest, itself counted.
const MAX_NESTING: u8 = 128;

/// A type that nests to at most `depth`.
#[cycle(read)]
fn take_type(alloc: Global, bytes: &[u8], depth: u8) -> Result<(DataType, &[u8]), Refusal>
    ensures { Gives (λ x. (type_view x.0, x.1.now)) result (type_at depth bytes.now) }
{
    if depth == 0 {
        return Err(Refusal::Unreadable);
    }
    let (tag, rest) = take_tag(bytes)?;
    take_parts(alloc, tag, rest, depth - 1)
}

/// A type of this tag, from what stands behind it.
#[cycle(read)]
fn take_parts(
    alloc: Global,
    tag: Tag,
    bytes: &[u8],
    depth: u8,
) -> Result<(DataType, &[u8]), Refusal>
    ensures { Gives (λ x. (type_view x.0, x.1.now)) result (parts_with (type_at depth) tag bytes.now) }
{
    match tag {
        Tag::Plain(simple) => Ok((simple_type(simple), bytes)),
        Tag::Leaf(leaf) => take_leaf(alloc, leaf, bytes),
        Tag::Nested(container) => take_nested(alloc, container, bytes, depth),
    }
}

#[cycle(read)]
fn take_nested(
    alloc: Global,
    tag: Container,
    bytes: &[u8],
    depth: u8,
) -> Result<(DataType, &[u8]), Refusal>
    ensures { Gives (λ x. (type_view x.0, x.1.now)) result (nested_with (type_at depth) tag bytes.now) }
{
    match tag {
        Container::List => {
            let (item, rest) = take_boxed(alloc, bytes, depth)?;
            Ok((DataType::List(item), rest))
        }
        Container::FixedSizeList => {
            let (item, rest) = take_boxed(alloc, bytes, depth)?;
            let (size, rest) = take_size(rest)?;
            Ok((DataType::FixedSizeList(item, size), rest))
        }
        Container::LargeList => {
            let (item, rest) = take_boxed(alloc, bytes, depth)?;
            Ok((DataType::LargeList(item), rest))
        }
        Container::Struct => {
            let (fields, rest) = take_fields(alloc, bytes, depth)?;
            Ok((DataType::Struct(fields), rest))
        }
        Container::Union => take_union(alloc, bytes, depth),
        Container::Map => {
            let (entry, rest) = take_boxed(alloc, bytes, depth)?;
            let (is_sorted, rest) = take_truth(rest)?;
            Ok((DataType::Map(entry, is_sorted), rest))
        }
        Container::Dictionary => take_dictionary(alloc, bytes, depth),
        Container::Extension => take_extension(alloc, bytes, depth),
    }
}

#[cycle(read)]
fn take_union(alloc: Global, bytes: &[u8], depth: u8) -> Result<(DataType, &[u8]), Refusal>
    ensures { Gives (λ x. (type_view x.0, x.1.now)) result (nested_with (type_at depth) Container.Union bytes.now) }
{
    let (fields, rest) = take_fields(alloc, bytes, depth)?;
    let (ids, rest) = take_ids(alloc, rest)?;
    let (is_sparse, rest) = take_truth(rest)?;
    Ok((DataType::Union(fields, ids, is_sparse), rest))
}

#[cycle(read)]
fn take_dictionary(alloc: Global, bytes: &[u8], depth: u8) -> Result<(DataType, &[u8]), Refusal>
    ensures { Gives (λ x. (type_view x.0, x.1.now)) result (nested_with
        (type_at depth) Container.Dictionary bytes.now) }
{
    let (key, rest) = take_key_type(bytes)?;
    let (value, rest) = take_type(alloc, rest, depth)?;
    let (is_sorted, rest) = take_truth(rest)?;
    let value = Box::new(alloc, value)?;
    Ok((DataType::Dictionary(key, value, is_sorted), rest))
}

#[cycle(read)]
fn take_extension(alloc: Global, bytes: &[u8], depth: u8) -> Result<(DataType, &[u8]), Refusal>
    ensures { Gives (λ x. (type_view x.0, x.1.now)) result (nested_with (type_at depth) Container.Extension bytes.now) }
{
    let (name, rest) = take_text(alloc, bytes)?;
    let (inner, rest) = take_type(alloc, rest, depth)?;
    let (metadata, rest) = take_optional_text(alloc, rest)?;
    let inner = Box::new(alloc, inner)?;
    Ok((DataType::Extension(name, inner, metadata), rest))
}

/// A field whose type nests to at most `depth`.
#[cycle(read)]
#[tactic(auto, unfolding(crate::specs::Reading::field_with))]
fn take_field(alloc: Global, bytes: &[u8], depth: u8) -> Result<(Field, &[u8]), Refusal>
    ensures { Gives (λ x. (field_view x.0, x.1.now)) result (field_at depth bytes.now) }
{
    let (name, rest) = take_text(alloc, bytes)?;
    let (is_nullable, rest) = take_truth(rest)?;
    let (data_type, rest) = take_type(alloc, rest, depth)?;
    let (metadata, rest) = take_metadata(alloc, rest)?;
    let field = Field {
        name,
        data_type,
        is_nullable,
        metadata,
    };
    Ok((field, rest))
}

#[cycle(read)]
fn take_boxed(alloc: Global, bytes: &[u8], depth: u8) -> Result<(Box<Field>, &[u8]), Refusal>
    ensures { Gives (λ x. (field_view x.0.value, x.1.now)) result (field_at depth bytes.now) }
{
    let (field, rest) = take_field(alloc, bytes, depth)?;
    Ok((Box::new(alloc, field)?, rest))
}

#[cycle(read)]
#[tactic(auto, unfolding(crate::specs::Reading::fields_with))]
fn take_fields(alloc: Global, bytes: &[u8], depth: u8) -> Result<(Vec<Field>, &[u8]), Refusal>
    ensures { Gives (λ x. (fields_view x.0.items, x.1.now)) result (fields_at depth bytes.now) }
{
    let (count, rest) = take_count(bytes)?;
    take_some_fields(alloc, count, rest, depth)
}

/// As many fields as a count states. The count is no ground to reserve memory.
#[cycle(read)]
fn take_some_fields(
    alloc: Global,
    count: u32,
    bytes: &[u8],
    depth: u8,
) -> Result<(Vec<Field>, &[u8]), Refusal>
    ensures { Gives (λ x. (map field_view x.0.items, x.1.now)) result (items_at (field_at depth) count bytes.now) }
{
    let mut fields = Vec::new(alloc);
    let mut rest = bytes;
    'fields: for _ in 0..count {
        let (field, after) = take_field(alloc, rest, depth)?;
        fields.push(field)?;
        rest = after;
    }
    Ok((fields, rest))
}

#[tactic(auto, unfolding(crate::specs::Reading::schema_at))]
fn take_schema(alloc: Global, bytes: &[u8]) -> Result<(Schema, &[u8]), Refusal>
    ensures { Gives (λ x. (schema_view x.0, x.1.now)) result (schema_at bytes.now) }
{
    let (fields, rest) = take_fields(alloc, bytes, MAX_NESTING)?;
    let (metadata, rest) = take_metadata(alloc, rest)?;
    Ok((Schema { fields, metadata }, rest))
}

/// The schema that the bytes spell, all of them.
#[tactic(auto, unfolding(crate::specs::Reading::plain_reads))]
pub fn read_plain(alloc: Global, bytes: &[u8]) -> Result<Schema, Refusal>
    ensures { Gives schema_view result (plain_reads bytes.now) }
{
    let (schema, rest) = take_schema(alloc, bytes)?;
    if rest.is_empty() {
        Ok(schema)
    } else {
        Err(Refusal::Unreadable)
    }
}
