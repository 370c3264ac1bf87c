//! Numbers at a place of the bytes, tables and their slots.

ghost use Rattle.std.specs.Prelude.{◌≡◌, ◌+◌, ◌≤◌, length, drop, take, IfOk};
ghost use Rattle.std.specs.Int.{w16, from_le_bytes};
ghost use Rattle.schema_codec.specs.Parse.{Gives};
ghost use Rattle.schema_fb.specs.Places.{bytes_at, byte_at, short_at, word_at, follow, table_at, entry_of, slot, number_in, table_in};
ghost use Rattle.schema_fb.specs.Steps.{vtable_at, table_from};

use schema_codec::Refusal;
use std::marker::Model;

/// So many bytes from a place on.
pub fn bytes_at(bytes: &[u8], place: usize, count: usize) -> Result<&[u8], Refusal>
    ensures gives { Gives (λ x. x.now) result (bytes_at count bytes.now place) }
    ensures within { IfOk result (λ x. place + count ≤ length bytes.now) }
    ensures size { IfOk result (λ x. length x.now ≡ count) }
{
    if bytes.len() < place {
        return Err(Refusal::Unreadable);
    }
    let (_, rest) = bytes.split_at(place);
    if rest.len() < count {
        return Err(Refusal::Unreadable);
    }
    let (front, _) = rest.split_at(count);
    Ok(front)
}

/// The byte at a place.
#[tactic(auto, unfolding(crate::specs::Places::byte_at))]
pub fn byte_at(bytes: &[u8], place: usize) -> Result<u8, Refusal>
    ensures { Gives (λ x. x) result (byte_at bytes.now place) }
{
    let byte = bytes_at(bytes, place, 1)?;
    Ok(byte[0])
}

/// A number of two bytes, the lowest first.
#[tactic(auto, unfolding(crate::specs::Places::short_at))]
pub fn short_at(bytes: &[u8], place: usize) -> Result<u16, Refusal>
    ensures gives { Gives (λ x. x) result (short_at bytes.now place) }
    ensures within { IfOk result (λ _. place + 2 ≤ length bytes.now) }
{
    let short = bytes_at(bytes, place, 2)?;
    Ok(u16::from_le_bytes([short[0], short[1]]))
}

/// A number of four bytes, the lowest first.
#[tactic(auto, unfolding(crate::specs::Places::word_at))]
pub fn word_at(bytes: &[u8], place: usize) -> Result<u32, Refusal>
    ensures gives { Gives (λ x. x) result (word_at bytes.now place) }
    ensures within { IfOk result (λ _. place + 4 ≤ length bytes.now) }
{
    let word = bytes_at(bytes, place, 4)?;
    Ok(u32::from_le_bytes([word[0], word[1], word[2], word[3]]))
}

/// The place to which the offset at a place leads.
pub fn follow(bytes: &[u8], place: usize) -> Result<usize, Refusal>
    ensures gives { Gives (λ x. x) result (follow bytes.now place) }
    ensures within { IfOk result (λ _. place + 4 ≤ length bytes.now) }
{
    let offset = word_at(bytes, place)?;
    Ok(place + offset as usize)
}

/// Where a table stands, where its vtable stands, and how many bytes the vtable has.
#[derive(Drop)]
pub struct Table {
    place: usize,
    vtable: usize,
    size: u16,
}

impl Model for Table {
    ghost use Rattle.std.specs.Prelude.{◌<◌, ◌^◌};
    ghost use Rattle.schema_fb.specs.Places.{Table as Placed};

    ghost Value = { Placed };

    ghost view = { λ t. record { place = t.place; vtable = t.vtable; size = t.size } };

    ghost invariant = { λ t. (t.place < 2 ^ 63) × (t.vtable < 2 ^ 63) };
}

/// Where the vtable of the table at a place stands: so far before it as the number there tells, in two's complement.
fn vtable_of(bytes: &[u8], place: usize) -> Result<usize, Refusal>
    ensures gives { Gives (λ x. x) result (vtable_at bytes.now place) }
    ensures within { IfOk result (λ _. place + 4 ≤ length bytes.now) }
{
    let distance = word_at(bytes, place)?;
    if distance >= 0x8000_0000 {
        return Ok(place + (0x1_0000_0000 - distance as usize));
    }
    match place.checked_sub(distance as usize) {
        Some(vtable) => Ok(vtable),
        None => Err(Refusal::Unreadable),
    }
}

/// The table at a place.
#[tactic(auto, unfolding(crate::specs::Places::table_at))]
pub fn table_at(bytes: &[u8], place: usize) -> Result<Table, Refusal>
    ensures { Gives (λ t. t) result (table_at bytes.now place) }
{
    let vtable = vtable_of(bytes, place)?;
    let size = short_at(bytes, vtable)?;
    if size < 4 {
        return Err(Refusal::Unreadable);
    }
    if size % 2 == 1 {
        return Err(Refusal::Unreadable);
    }
    if bytes.len() < vtable + usize::from(size) {
        return Err(Refusal::Unreadable);
    }
    Ok(Table {
        place,
        vtable,
        size,
    })
}

/// The number in the first two bytes from a place on, those past the end counted as 0.
fn short_from(bytes: &[u8], place: usize) -> u16
    ensures { result ≡ from_le_bytes w16 (take 2 (drop place bytes.now)) }
{
    let rest = bytes.get(place..).unwrap_or(&[]);
    match rest {
        [] => 0,
        [low] => u16::from(*low),
        [low, high, ..] => u16::from_le_bytes([*low, *high]),
    }
}

/// The vtable's entry for a slot, 0 where the vtable is too short to have it.
fn entry_of(bytes: &[u8], table: &Table, i: u8) -> u16
    ensures { result ≡ entry_of bytes.now table.now i }
{
    let at = 4 + 2 * usize::from(i);
    if usize::from(table.size) < at + 2 {
        return 0;
    }
    short_from(bytes, table.vtable + at)
}

/// Where a slot of a table stands, `None` for one that is absent.
#[tactic(auto, unfolding(crate::specs::Places::slot))]
pub fn slot(bytes: &[u8], table: &Table, i: u8) -> Option<usize>
    ensures { result ≡ slot bytes.now table.now i }
{
    let entry = entry_of(bytes, table, i);
    if entry == 0 {
        return None;
    }
    Some(table.place + usize::from(entry))
}

/// A byte in a slot, or a default for one that is absent.
pub fn byte_in(bytes: &[u8], table: &Table, i: u8, default: u8) -> Result<u8, Refusal>
    ensures { Gives (λ x. x) result (number_in byte_at default bytes.now table.now i) }
{
    match slot(bytes, table, i) {
        Some(place) => byte_at(bytes, place),
        None => Ok(default),
    }
}

/// A number of two bytes in a slot, or a default for one that is absent.
pub fn short_in(bytes: &[u8], table: &Table, i: u8, default: u16) -> Result<u16, Refusal>
    ensures { Gives (λ x. x) result (number_in short_at default bytes.now table.now i) }
{
    match slot(bytes, table, i) {
        Some(place) => short_at(bytes, place),
        None => Ok(default),
    }
}

/// A number of four bytes in a slot, or a default for one that is absent.
pub fn word_in(bytes: &[u8], table: &Table, i: u8, default: u32) -> Result<u32, Refusal>
    ensures { Gives (λ x. x) result (number_in word_at default bytes.now table.now i) }
{
    match slot(bytes, table, i) {
        Some(place) => word_at(bytes, place),
        None => Ok(default),
    }
}

/// The table to which the offset at a place leads.
pub fn table_from(bytes: &[u8], place: usize) -> Result<Table, Refusal>
    ensures { Gives (λ t. t) result (table_from bytes.now place) }
{
    let there = follow(bytes, place)?;
    table_at(bytes, there)
}

/// The table to which a slot leads.
pub fn table_in(bytes: &[u8], table: &Table, i: u8) -> Result<Table, Refusal>
    ensures { Gives (λ t. t) result (table_in bytes.now table.now i) }
{
    match slot(bytes, table, i) {
        Some(place) => table_from(bytes, place),
        None => Err(Refusal::Unreadable),
    }
}
