//! Texts and vectors of numbers, with a count of what may still be read.

ghost use Rattle.std.specs.Prelude.{◌≡◌, ◌+◌, ◌≤◌, length, option_map, string_bytes, IfOk};
ghost use Rattle.schema_codec.specs.Parse.{Gives};
ghost use Rattle.schema_fb.specs.Places.{spend, text_at, text_in, optional_text_in, numbers_at, numbers_in};
ghost use Rattle.schema_fb.specs.Steps.{seen, item_from, vector_from};

use crate::places::{Table, bytes_at, follow, slot, word_at};
use schema_codec::Refusal;
use std::alloc::Global;

/// What may still be read once so much more is.
pub fn spend(count: u32, left: u128) -> Result<u128, Refusal>
    ensures { Gives (λ x. x) result (spend count left) }
{
    match left.checked_sub(u128::from(count)) {
        Some(rest) => Ok(rest),
        None => Err(Refusal::Unreadable),
    }
}

/// The text at a place: its length, its bytes, and a byte behind them, which is not looked at.
#[tactic(auto, unfolding(crate::specs::Places::text_at))]
pub fn text_at(
    alloc: Global,
    bytes: &[u8],
    place: usize,
    left: u128,
) -> Result<(String, u128), Refusal>
    ensures { Gives (seen string_bytes) result (text_at bytes.now place left) }
{
    let size = word_at(bytes, place)?;
    let whole = bytes_at(bytes, place + 4, size as usize + 1)?;
    let rest = spend(size, left)?;
    let (text, _) = whole.split_at(size as usize);
    match std::str::from_utf8(text) {
        Ok(text) => Ok((String::from_str(alloc, text)?, rest)),
        Err(_) => Err(Refusal::Unreadable),
    }
}

/// The text to which the offset at a place leads.
fn text_from(
    alloc: Global,
    bytes: &[u8],
    place: usize,
    left: u128,
) -> Result<(String, u128), Refusal>
    ensures { Gives (seen string_bytes) result (item_from (text_at bytes.now) bytes.now place left) }
{
    let there = follow(bytes, place)?;
    text_at(alloc, bytes, there, left)
}

/// The text in a slot, empty where it is absent.
pub fn text_in(
    alloc: Global,
    bytes: &[u8],
    table: &Table,
    i: u8,
    left: u128,
) -> Result<(String, u128), Refusal>
    ensures { Gives (seen string_bytes) result (text_in bytes.now table.now i left) }
{
    match slot(bytes, table, i) {
        Some(place) => text_from(alloc, bytes, place, left),
        None => Ok((String::new(alloc), left)),
    }
}

/// The text in a slot, `None` where it is absent.
pub fn optional_text_in(
    alloc: Global,
    bytes: &[u8],
    table: &Table,
    i: u8,
    left: u128,
) -> Result<(Option<String>, u128), Refusal>
    ensures { Gives (seen (option_map string_bytes)) result (optional_text_in bytes.now table.now i left) }
{
    match slot(bytes, table, i) {
        Some(place) => {
            let (text, rest) = text_from(alloc, bytes, place, left)?;
            Ok((Some(text), rest))
        }
        None => Ok((None, left)),
    }
}

/// How many parts the vector has to which the offset at a place leads, and where the first stands.
pub fn vector_from(bytes: &[u8], place: usize) -> Result<(u32, usize), Refusal>
    ensures { Gives (λ x. (x.0, x.1)) result (vector_from bytes.now place) }
{
    let there = follow(bytes, place)?;
    let count = word_at(bytes, there)?;
    Ok((count, there + 4))
}

/// So many signed numbers of four bytes. The count is no ground to reserve memory.
fn numbers_at(alloc: Global, bytes: &[u8], count: u32, place: usize) -> Result<Vec<i32>, Refusal>
    ensures { Gives (λ v. v.items) result (numbers_at bytes.now count place) }
{
    let mut ids = Vec::new(alloc);
    let mut at = place;
    'ids: for _ in 0..count {
        let id = word_at(bytes, at)?;
        ids.push(id.cast_signed())?;
        at += 4;
    }
    Ok(ids)
}

/// The vector of signed numbers in a slot, `None` where it is absent.
#[tactic(auto, unfolding(crate::specs::Places::numbers_in))]
pub fn numbers_in(
    alloc: Global,
    bytes: &[u8],
    table: &Table,
    i: u8,
) -> Result<Option<Vec<i32>>, Refusal>
    ensures { Gives (λ o. option_map (λ v. v.items) o) result (numbers_in bytes.now table.now i) }
{
    match slot(bytes, table, i) {
        Some(place) => {
            let (count, first) = vector_from(bytes, place)?;
            let ids = numbers_at(alloc, bytes, count, first)?;
            Ok(Some(ids))
        }
        None => Ok(None),
    }
}
