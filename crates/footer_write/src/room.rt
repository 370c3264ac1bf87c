//! How many bytes a footer may take, spent from what is left of a limit.
ghost use Rattle.std.specs.Prelude.{◌≡◌, ◌<◌, ◌+◌, length, sum_by, map, option_map, string_bytes, MatchOption};
ghost use Rattle.pq_tree.specs.TreeViews.{tree_view, trees_view, schema_view, pairs_view};
ghost use Rattle.pq_tree.specs.Views.{bytes_view, key_view, statistics_view};
ghost use Rattle.pq_files.specs.Room.{bytes_of, key_room, are_same, schema_key, bounds_room, name_room, chunk_room, group_room};
ghost use Rattle.footer_write.specs.FooterView.{chunk_view, row_group_view, footer_view};
ghost use Rattle.footer_write.specs.Room.{walked_room, tree_room, trees_room};

use crate::types::{ThriftColumnChunk, ThriftFileMetaData, ThriftRowGroup};
use pq_tree::{FieldInfo, KeyValue, ParquetType, Statistics};

/// The key of the Arrow schema.
const SCHEMA_KEY: &str = "ARROW:schema";

fn spend(left: usize, bytes: usize) -> Option<usize>
    ensures { MatchOption result (left < bytes) (λ rest. rest + bytes ≡ left) }
{
    if left < bytes {
        return None;
    }
    Some(left - bytes)
}

fn spend_info(left: usize, info: &FieldInfo) -> Option<usize>
    ensures { MatchOption result (left < 128 + length (string_bytes info.now.name))
        (λ rest. rest + (128 + length (string_bytes info.now.name)) ≡ left) }
{
    spend(spend(left, 128)?, info.name.len())
}

#[cycle(room)]
fn spend_tree(left: usize, tree: &ParquetType) -> Option<usize>
    ensures { MatchOption result (left < tree_room (tree_view tree.now)) (λ rest. rest + tree_room (tree_view tree.now)
        ≡ left) }
{
    match tree {
        ParquetType::PrimitiveType(leaf) => spend_info(left, &leaf.field_info),
        ParquetType::GroupType {
            field_info,
            fields,
            ..
        } => {
            let left = spend_info(left, field_info)?;
            spend_trees(left, fields)
        }
    }
}

#[cycle(room)]
fn spend_trees(left: usize, trees: &[ParquetType]) -> Option<usize>
    ensures { MatchOption result (left < trees_room (trees_view trees.now))
        (λ rest. rest + trees_room (trees_view trees.now) ≡ left) }
{
    let mut rest = left;
    for tree in trees {
        rest = spend_tree(rest, tree)?;
    }
    Some(rest)
}

fn text_length(text: &Option<String>) -> usize
    ensures { result ≡ bytes_of (option_map string_bytes text.now) }
{
    match text {
        Some(text) => text.len(),
        None => 0,
    }
}

fn bytes_length(bytes: &Option<Vec<u8>>) -> usize
    ensures { result ≡ bytes_of (option_map bytes_view bytes.now) }
{
    match bytes {
        Some(bytes) => bytes.len(),
        None => 0,
    }
}

#[tactic(auto, using(crate::proofs::SameTexts::told_by))]
fn is_schema_key(key: &str) -> bool
    ensures { result ≡ are_same key.now schema_key }
{
    key == SCHEMA_KEY
}

fn spend_key(left: usize, key: &KeyValue) -> Option<usize>
    ensures { MatchOption result (left < key_room (key_view key.now)) (λ rest. rest + key_room (key_view key.now)
        ≡ left) }
{
    let value = text_length(&key.value);
    if is_schema_key(key.key.as_str()) {
        return spend(spend(left, 96)?, value);
    }
    let left = spend(spend(left, 32)?, key.key.len())?;
    spend(left, value)
}

fn spend_keys(left: usize, keys: &[KeyValue]) -> Option<usize>
    ensures { MatchOption result (left < sum_by key_room (map key_view keys.now))
        (λ rest. rest + sum_by key_room (map key_view keys.now) ≡ left) }
{
    let mut rest = left;
    for key in keys {
        rest = spend_key(rest, key)?;
    }
    Some(rest)
}

fn spend_pairs(left: usize, pairs: &Option<Vec<KeyValue>>) -> Option<usize>
    ensures { MatchOption result (left < sum_by key_room (pairs_view pairs.now))
        (λ rest. rest + sum_by key_room (pairs_view pairs.now) ≡ left) }
{
    match pairs {
        Some(keys) => spend_keys(left, keys),
        None => Some(left),
    }
}

fn spend_name(left: usize, name: &String) -> Option<usize>
    ensures { MatchOption result (left < name_room (string_bytes name.now))
        (λ rest. rest + name_room (string_bytes name.now) ≡ left) }
{
    spend(spend(left, 8)?, name.len())
}

fn spend_path(left: usize, path: &[String]) -> Option<usize>
    ensures { MatchOption result (left < sum_by name_room (map string_bytes path.now))
        (λ rest. rest + sum_by name_room (map string_bytes path.now) ≡ left) }
{
    let mut rest = left;
    for name in path {
        rest = spend_name(rest, name)?;
    }
    Some(rest)
}

fn spend_bounds(left: usize, statistics: &Option<Statistics>) -> Option<usize>
    ensures { MatchOption result (left < bounds_room (option_map statistics_view statistics.now))
        (λ rest. rest + bounds_room (option_map statistics_view statistics.now) ≡ left) }
{
    let Some(statistics) = statistics else {
        return Some(left);
    };
    let left = spend(left, bytes_length(&statistics.max_value))?;
    spend(left, bytes_length(&statistics.min_value))
}

fn spend_chunk(left: usize, chunk: &ThriftColumnChunk) -> Option<usize>
    ensures { MatchOption result (left < chunk_room (chunk_view chunk.now))
        (λ rest. rest + chunk_room (chunk_view chunk.now) ≡ left) }
{
    let left = spend(left, 256)?;
    let left = spend_path(left, &chunk.meta_data.path_in_schema)?;
    spend_bounds(left, &chunk.meta_data.statistics)
}

fn spend_chunks(left: usize, chunks: &[ThriftColumnChunk]) -> Option<usize>
    ensures { MatchOption result (left < sum_by chunk_room (map chunk_view chunks.now))
        (λ rest. rest + sum_by chunk_room (map chunk_view chunks.now) ≡ left) }
{
    let mut rest = left;
    for chunk in chunks {
        rest = spend_chunk(rest, chunk)?;
    }
    Some(rest)
}

fn spend_group(left: usize, group: &ThriftRowGroup) -> Option<usize>
    ensures { MatchOption result (left < group_room (row_group_view group.now))
        (λ rest. rest + group_room (row_group_view group.now) ≡ left) }
{
    let left = spend(left, 64)?;
    spend_chunks(left, &group.columns)
}

fn spend_groups(left: usize, groups: &[ThriftRowGroup]) -> Option<usize>
    ensures { MatchOption result (left < sum_by group_room (map row_group_view groups.now))
        (λ rest. rest + sum_by group_room (map row_group_view groups.now) ≡ left) }
{
    let mut rest = left;
    for group in groups {
        rest = spend_group(rest, group)?;
    }
    Some(rest)
}

/// What is left of the bytes after the room of a footer. None where that passes them.
pub fn spend_footer(left: usize, metadata: &ThriftFileMetaData) -> Option<usize>
    ensures { MatchOption result (left < walked_room (footer_view metadata.now))
        (λ rest. rest + walked_room (footer_view metadata.now) ≡ left) }
{
    let left = spend(left, 4_224)?;
    let left = spend(left, metadata.schema.name().len())?;
    let left = spend_trees(left, metadata.schema.fields())?;
    let left = spend_pairs(left, &metadata.key_value_metadata)?;
    spend_groups(left, &metadata.row_groups)
}
