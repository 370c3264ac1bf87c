//! Metadata: texts under keys.

ghost use Rattle.std.specs.Prelude.{◌≡◌, ◌+◌, ◌≤◌, [], length, IfOk, string_bytes};
ghost use Rattle.columns_core.specs.Meta.{texts};
ghost use Rattle.schema_codec.specs.Parse.{Gives};
ghost use Rattle.schema_fb.specs.Places.{items_at, items_in};
ghost use Rattle.schema_fb.specs.Reading.{entry_at, put_all, metadata_in};
ghost use Rattle.schema_fb.specs.Steps.{seen, entry_view, item_from};

use crate::places::{Table, follow, slot, table_at};
use crate::texts::{spend, text_in, vector_from};
use columns_base::Result as Outcome;
use columns_core::Metadata;
use schema_codec::Refusal;
use std::alloc::Global;

type Entry = (String, String);

/// The entry at a place.
#[tactic(auto, unfolding(crate::specs::Reading::entry_at))]
fn entry_at(alloc: Global, bytes: &[u8], place: usize, left: u128) -> Result<(Entry, u128), Refusal>
    ensures { Gives (seen entry_view) result (entry_at bytes.now place left) }
{
    let table = table_at(bytes, place)?;
    let rest = spend(1, left)?;
    let (key, rest) = text_in(alloc, bytes, &table, 0, rest)?;
    let (value, rest) = text_in(alloc, bytes, &table, 1, rest)?;
    Ok(((key, value), rest))
}

/// The entry to which the offset at a place leads.
fn entry_from(
    alloc: Global,
    bytes: &[u8],
    place: usize,
    left: u128,
) -> Result<(Entry, u128), Refusal>
    ensures gives { Gives (seen entry_view) result (item_from (entry_at bytes.now) bytes.now place left) }
    ensures within { IfOk result (λ _. place + 4 ≤ length bytes.now) }
{
    let there = follow(bytes, place)?;
    entry_at(alloc, bytes, there, left)
}

/// As many entries as a count tells. The count is no ground to reserve memory.
fn entries_at(
    alloc: Global,
    bytes: &[u8],
    count: u32,
    place: usize,
    left: u128,
) -> Result<(Vec<Entry>, u128), Refusal>
    ensures { Gives (seen (λ v. texts v.items)) result (items_at (entry_at bytes.now) bytes.now count place left) }
{
    let mut entries = Vec::new(alloc);
    let mut at = place;
    let mut rest = left;
    'entries: for _ in 0..count {
        let (entry, after) = entry_from(alloc, bytes, at, rest)?;
        entries.push(entry)?;
        rest = after;
        at += 4;
    }
    Ok((entries, rest))
}

/// The entries of the vector in a slot, none where it is absent.
#[tactic(auto, unfolding(crate::specs::Places::items_in))]
fn entries_in(
    alloc: Global,
    bytes: &[u8],
    table: &Table,
    i: u8,
    left: u128,
) -> Result<(Vec<Entry>, u128), Refusal>
    ensures { Gives (seen (λ v. texts v.items)) result (items_in (entry_at bytes.now) bytes.now table.now i left) }
{
    match slot(bytes, table, i) {
        Some(place) => {
            let (count, first) = vector_from(bytes, place)?;
            entries_at(alloc, bytes, count, first, left)
        }
        None => Ok((Vec::new(alloc), left)),
    }
}

/// The metadata of entries: of equal keys the last counts.
fn put_all(alloc: Global, entries: Vec<Entry>) -> Outcome<Metadata>
    ensures { IfOk result (λ m. m ≡ put_all [] (texts entries.items)) }
{
    let mut metadata = Metadata::new(alloc);
    for (key, text) in entries {
        metadata.insert(key, text)?;
    }
    Ok(metadata)
}

/// The metadata of the vector in a slot.
#[tactic(auto, unfolding(crate::specs::Reading::metadata_in))]
pub fn metadata_in(
    alloc: Global,
    bytes: &[u8],
    table: &Table,
    i: u8,
    left: u128,
) -> Result<(Metadata, u128), Refusal>
    ensures { Gives (λ x. (x.0, x.1)) result (metadata_in bytes.now table.now i left) }
{
    let (entries, rest) = entries_in(alloc, bytes, table, i, left)?;
    match put_all(alloc, entries) {
        Ok(metadata) => Ok((metadata, rest)),
        Err(_) => Err(Refusal::Memory),
    }
}
