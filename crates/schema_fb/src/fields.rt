//! Fields and the types that have types within.

ghost use Rattle.std.specs.Prelude.{◌≡◌, ◌+◌, ◌≤◌, length, map, option_map, IfOk};
ghost use Rattle.columns_core.specs.View.{type_view, field_view};
ghost use Rattle.schema_codec.specs.Parse.{Gives};
ghost use Rattle.schema_fb.specs.Places.{items_at, items_in};
ghost use Rattle.schema_fb.specs.Reading.{only, child_in, union_in, nested_in, tagged_in, type_in, field_at};
ghost use Rattle.schema_fb.specs.Steps.{seen, item_from, dense_in, field_in};

use crate::extensions::{keyed_in, made_field};
use crate::leaves::{leaf_in, natural_in, truth_in};
use crate::meta::metadata_in;
use crate::places::{Table, byte_in, follow, short_in, slot, table_at, table_in};
use crate::tag::{Container, Tag, simple_type, tag_from};
use crate::texts::{numbers_in, spend, text_in, vector_from};
use columns_core::{DataType, Field};
use schema_codec::Refusal;
use std::alloc::Global;

/// The only one of the fields, if there is exactly one.
fn only(mut fields: Vec<Field>) -> Option<Field>
    ensures { option_map field_view result ≡ only (map field_view fields.items) }
{
    if fields.len() != 1 {
        return None;
    }
    fields.pop()
}

/// Whether a union is dense.
fn dense_in(bytes: &[u8], table: &Table) -> Result<bool, Refusal>
    ensures { Gives (λ x. x) result (dense_in bytes.now table.now) }
{
    match short_in(bytes, table, 0, 0)? {
        0 => Ok(false),
        1 => Ok(true),
        _ => Err(Refusal::Unreadable),
    }
}

/// The field at a place and at most `depth` levels of fields, itself counted.
#[cycle(read)]
fn field_at(
    alloc: Global,
    bytes: &[u8],
    place: usize,
    left: u128,
    depth: u8,
) -> Result<(Field, u128), Refusal>
    ensures { Gives (seen field_view) result (field_at bytes.now depth place left) }
{
    if depth == 0 {
        return Err(Refusal::Unreadable);
    }
    let table = table_at(bytes, place)?;
    let rest = spend(1, left)?;
    field_in(alloc, bytes, &table, rest, depth - 1)
}

/// A field from its table, with at most `depth` levels of fields within. The slots are name, nullable, type tag, type,
/// dictionary, children and custom_metadata.
#[cycle(read)]
fn field_in(
    alloc: Global,
    bytes: &[u8],
    table: &Table,
    left: u128,
    depth: u8,
) -> Result<(Field, u128), Refusal>
    ensures { Gives (seen field_view) result (field_in (field_at bytes.now depth) bytes.now table.now left) }
{
    let (name, rest) = text_in(alloc, bytes, table, 0, left)?;
    let is_nullable = truth_in(bytes, table, 1)?;
    let (inner, rest) = type_in(alloc, bytes, table, rest, depth)?;
    let data_type = keyed_in(alloc, bytes, table, inner)?;
    let (metadata, rest) = metadata_in(alloc, bytes, table, 6, rest)?;
    let field = made_field(alloc, name, is_nullable, data_type, metadata)?;
    Ok((field, rest))
}

/// The type of a field, without its dictionary and its extension.
#[cycle(read)]
#[tactic(auto, unfolding(crate::specs::Reading::type_in))]
fn type_in(
    alloc: Global,
    bytes: &[u8],
    parent: &Table,
    left: u128,
    depth: u8,
) -> Result<(DataType, u128), Refusal>
    ensures { Gives (seen type_view) result (type_in (field_at bytes.now depth) bytes.now parent.now left) }
{
    let number = byte_in(bytes, parent, 2, 0)?;
    let Some(tag) = tag_from(number) else {
        return Err(Refusal::Unreadable);
    };
    let table = table_in(bytes, parent, 3)?;
    match tag {
        Tag::Plain(simple) => Ok((simple_type(simple), left)),
        Tag::Leaf(leaf) => leaf_in(alloc, leaf, bytes, &table, left),
        Tag::Nested(container) => nested_in(alloc, container, bytes, parent, &table, left, depth),
    }
}

/// A type from its field's table and from its own.
#[cycle(read)]
fn nested_in(
    alloc: Global,
    tag: Container,
    bytes: &[u8],
    parent: &Table,
    table: &Table,
    left: u128,
    depth: u8,
) -> Result<(DataType, u128), Refusal>
    ensures { Gives (seen type_view) result
        (nested_in tag (field_at bytes.now depth) bytes.now parent.now table.now left) }
{
    match tag {
        Container::List => {
            let (item, rest) = child_in(alloc, bytes, parent, left, depth)?;
            Ok((DataType::List(item), rest))
        }
        Container::Struct => {
            let (fields, rest) = fields_in(alloc, bytes, parent, 5, left, depth)?;
            Ok((DataType::Struct(fields), rest))
        }
        Container::Union => union_in(alloc, bytes, parent, table, left, depth),
        Container::FixedSizeList => {
            let size = natural_in(bytes, table, 0)?;
            let (item, rest) = child_in(alloc, bytes, parent, left, depth)?;
            Ok((DataType::FixedSizeList(item, size), rest))
        }
        Container::Map => {
            let is_sorted = truth_in(bytes, table, 0)?;
            let (entry, rest) = child_in(alloc, bytes, parent, left, depth)?;
            Ok((DataType::Map(entry, is_sorted), rest))
        }
        Container::LargeList => {
            let (item, rest) = child_in(alloc, bytes, parent, left, depth)?;
            Ok((DataType::LargeList(item), rest))
        }
    }
}

/// A union from its field's table and from its own.
#[cycle(read)]
#[tactic(auto, unfolding(crate::specs::Reading::union_in))]
fn union_in(
    alloc: Global,
    bytes: &[u8],
    parent: &Table,
    table: &Table,
    left: u128,
    depth: u8,
) -> Result<(DataType, u128), Refusal>
    ensures { Gives (seen type_view) result (union_in (field_at bytes.now depth) bytes.now parent.now table.now left) }
{
    let is_dense = dense_in(bytes, table)?;
    let ids = numbers_in(alloc, bytes, table, 1)?;
    let (fields, rest) = fields_in(alloc, bytes, parent, 5, left, depth)?;
    Ok((DataType::Union(fields, ids, !is_dense), rest))
}

/// The only child of a field.
#[cycle(read)]
#[tactic(auto, unfolding(crate::specs::Reading::child_in))]
fn child_in(
    alloc: Global,
    bytes: &[u8],
    parent: &Table,
    left: u128,
    depth: u8,
) -> Result<(Box<Field>, u128), Refusal>
    ensures { Gives (seen (λ b. field_view b.value)) result (child_in
        (field_at bytes.now depth) bytes.now parent.now left) }
{
    let (fields, rest) = fields_in(alloc, bytes, parent, 5, left, depth)?;
    match only(fields) {
        Some(field) => Ok((Box::new(alloc, field)?, rest)),
        None => Err(Refusal::Unreadable),
    }
}

/// The fields of the vector in a slot, none where it is absent, each with at most `depth` levels.
#[cycle(read)]
#[tactic(auto, unfolding(crate::specs::Places::items_in))]
pub fn fields_in(
    alloc: Global,
    bytes: &[u8],
    table: &Table,
    i: u8,
    left: u128,
    depth: u8,
) -> Result<(Vec<Field>, u128), Refusal>
    ensures { Gives (seen (λ v. map field_view v.items)) result
        (items_in (field_at bytes.now depth) bytes.now table.now i left) }
{
    match slot(bytes, table, i) {
        Some(place) => {
            let (count, first) = vector_from(bytes, place)?;
            fields_at(alloc, bytes, count, first, left, depth)
        }
        None => Ok((Vec::new(alloc), left)),
    }
}

/// As many fields as a count tells. The count is no ground to reserve memory.
#[cycle(read)]
fn fields_at(
    alloc: Global,
    bytes: &[u8],
    count: u32,
    place: usize,
    left: u128,
    depth: u8,
) -> Result<(Vec<Field>, u128), Refusal>
    ensures { Gives (seen (λ v. map field_view v.items)) result
        (items_at (field_at bytes.now depth) bytes.now count place left) }
{
    let mut fields = Vec::new(alloc);
    let mut at = place;
    let mut rest = left;
    'fields: for _ in 0..count {
        let (field, after) = field_from(alloc, bytes, at, rest, depth)?;
        fields.push(field)?;
        rest = after;
        at += 4;
    }
    Ok((fields, rest))
}

/// The field to which the offset at a place leads.
#[cycle(read)]
fn field_from(
    alloc: Global,
    bytes: &[u8],
    place: usize,
    left: u128,
    depth: u8,
) -> Result<(Field, u128), Refusal>
    ensures gives { Gives (seen field_view) result (item_from (field_at bytes.now depth) bytes.now place left) }
    ensures within { IfOk result (λ _. place + 4 ≤ length bytes.now) }
{
    let there = follow(bytes, place)?;
    field_at(alloc, bytes, there, left, depth)
}
