//! Numbers, truth values and texts at the front of bytes.

ghost use Rattle.std.specs.Prelude.{◌≡◌, ◌≤◌, length, IfOk, option_map, string_bytes};
ghost use Rattle.schema_codec.specs.Parse.{Gives};
ghost use Rattle.schema_codec.specs.Reading.{byte_at, bytes_at, count_at, size_at, id_at, truth_at, unit_at, interval_unit_at, key_type_at, tag_at, text_at, optional_text_at};

use crate::fault::Refusal;
use crate::tag::{Tag, interval_unit_from, key_type_from, tag_from, unit_from};
use columns_core::{IntegerType, IntervalUnit, TimeUnit};
use std::alloc::Global;

pub fn take_byte(bytes: &[u8]) -> Result<(u8, &[u8]), Refusal>
    ensures { Gives (λ x. (x.0, x.1.now)) result (byte_at bytes.now) }
{
    match bytes {
        [] => Err(Refusal::Unreadable),
        [byte, rest @ ..] => Ok((*byte, rest)),
    }
}

/// So many bytes.
pub fn take_bytes(bytes: &[u8], count: usize) -> Result<(&[u8], &[u8]), Refusal>
    ensures { Gives (λ x. (x.0.now, x.1.now)) result (bytes_at count bytes.now) }
{
    if bytes.len() < count {
        return Err(Refusal::Unreadable);
    }
    Ok(bytes.split_at(count))
}

/// A count or a length.
#[tactic(auto, unfolding(crate::specs::Reading::count_at))]
pub fn take_count(bytes: &[u8]) -> Result<(u32, &[u8]), Refusal>
    ensures { Gives (λ x. (x.0, x.1.now)) result (count_at bytes.now) }
{
    if bytes.len() < 4 {
        return Err(Refusal::Unreadable);
    }
    let (front, rest) = bytes.split_at(4);
    let count = u32::from_le_bytes([front[0], front[1], front[2], front[3]]);
    Ok((count, rest))
}

#[tactic(auto, unfolding(crate::specs::Reading::size_at))]
pub fn take_size(bytes: &[u8]) -> Result<(usize, &[u8]), Refusal>
    ensures { Gives (λ x. (x.0, x.1.now)) result (size_at bytes.now) }
{
    if bytes.len() < 8 {
        return Err(Refusal::Unreadable);
    }
    let (front, rest) = bytes.split_at(8);
    let size = usize::from_le_bytes([
        front[0], front[1], front[2], front[3], front[4], front[5], front[6], front[7],
    ]);
    Ok((size, rest))
}

/// The id of a union's part.
pub fn take_id(bytes: &[u8]) -> Result<(i32, &[u8]), Refusal>
    ensures { Gives (λ x. (x.0, x.1.now)) result (id_at bytes.now) }
{
    let (bits, rest) = take_count(bytes)?;
    Ok((bits.cast_signed(), rest))
}

#[tactic(auto, unfolding(crate::specs::Reading::truth_at))]
pub fn take_truth(bytes: &[u8]) -> Result<(bool, &[u8]), Refusal>
    ensures { Gives (λ x. (x.0, x.1.now)) result (truth_at bytes.now) }
{
    let (byte, rest) = take_byte(bytes)?;
    match byte {
        0 => Ok((false, rest)),
        1 => Ok((true, rest)),
        _ => Err(Refusal::Unreadable),
    }
}

#[tactic(auto, unfolding(crate::specs::Reading::unit_at))]
pub fn take_unit(bytes: &[u8]) -> Result<(TimeUnit, &[u8]), Refusal>
    ensures { Gives (λ x. (x.0, x.1.now)) result (unit_at bytes.now) }
{
    let (byte, rest) = take_byte(bytes)?;
    match unit_from(byte) {
        Some(unit) => Ok((unit, rest)),
        None => Err(Refusal::Unreadable),
    }
}

#[tactic(auto, unfolding(crate::specs::Reading::interval_unit_at))]
pub fn take_interval_unit(bytes: &[u8]) -> Result<(IntervalUnit, &[u8]), Refusal>
    ensures { Gives (λ x. (x.0, x.1.now)) result (interval_unit_at bytes.now) }
{
    let (byte, rest) = take_byte(bytes)?;
    match interval_unit_from(byte) {
        Some(unit) => Ok((unit, rest)),
        None => Err(Refusal::Unreadable),
    }
}

#[tactic(auto, unfolding(crate::specs::Reading::key_type_at))]
pub fn take_key_type(bytes: &[u8]) -> Result<(IntegerType, &[u8]), Refusal>
    ensures { Gives (λ x. (x.0, x.1.now)) result (key_type_at bytes.now) }
{
    let (byte, rest) = take_byte(bytes)?;
    match key_type_from(byte) {
        Some(key) => Ok((key, rest)),
        None => Err(Refusal::Unreadable),
    }
}

#[tactic(auto, unfolding(crate::specs::Reading::tag_at))]
pub fn take_tag(bytes: &[u8]) -> Result<(Tag, &[u8]), Refusal>
    ensures { Gives (λ x. (x.0, x.1.now)) result (tag_at bytes.now) }
{
    let (byte, rest) = take_byte(bytes)?;
    match tag_from(byte) {
        Some(tag) => Ok((tag, rest)),
        None => Err(Refusal::Unreadable),
    }
}

/// A text behind its length.
#[tactic(auto, unfolding(crate::specs::Reading::text_at))]
pub fn take_text(alloc: Global, bytes: &[u8]) -> Result<(String, &[u8]), Refusal>
    ensures { Gives (λ x. (string_bytes x.0, x.1.now)) result (text_at bytes.now) }
{
    let (count, rest) = take_count(bytes)?;
    let (text, rest) = take_bytes(rest, count as usize)?;
    match std::str::from_utf8(text) {
        Ok(text) => Ok((String::from_str(alloc, text)?, rest)),
        Err(_) => Err(Refusal::Unreadable),
    }
}

#[tactic(auto, unfolding(crate::specs::Reading::optional_text_at))]
pub fn take_optional_text(alloc: Global, bytes: &[u8]) -> Result<(Option<String>, &[u8]), Refusal>
    ensures { Gives (λ x. (option_map string_bytes x.0, x.1.now)) result (optional_text_at bytes.now) }
{
    let (is_there, rest) = take_truth(bytes)?;
    if !is_there {
        return Ok((None, rest));
    }
    let (text, rest) = take_text(alloc, rest)?;
    Ok((Some(text), rest))
}
