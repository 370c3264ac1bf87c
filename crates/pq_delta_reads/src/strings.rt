//! Sections of byte strings, spelled plain.

ghost use Rattle.std.specs.Prelude.{◌≡◌, ◌⊎◌, ◌+◌, ◌++◌, ◌<◌, ◌≤◌, ◌^◌, ℕ, [], pos, length, take, OnOk, IfOk, IfErr, MatchOption};
ghost use Rattle.std.specs.Int.{w32};
ghost use Rattle.columns_base.specs.declared.error.Error.TheVariants.{Memory};
ghost use Rattle.pq_tree.specs.Physical.{byte_array};
ghost use Rattle.pq_files.specs.Delta.{AreDeltaLengths};
ghost use Rattle.pq_runs.specs.Delta.{wrapped};
ghost use Rattle.pq_runs.specs.Hybrid.{fault};
ghost use Rattle.pq_runs.specs.Writing.{Extends};
ghost use Rattle.pq_delta_reads.specs.Blocks.{StopsStrings, TakesStrings, signed};
ghost use Rattle.pq_delta_reads.specs.Read.{IsBehind};
ghost use Rattle.pq_delta_reads.specs.Sections.{TurnsPlain, SpellsNone, TakesString};

use crate::decoder::Decoder;
use crate::numbers::expect_room;
use columns_base::{Error, Result, S};
use pq_numbers::push_u32_le;

// The bytes behind so many lengths, whose last miniblock is whole.
fn behind_lengths(section: &[u8], count: usize) -> Result<&[u8]>
    ensures ok { IfOk result (λ behind. IsBehind count section.now behind.now) }
    ensures err { IfErr result (λ e. (e ≡ fault) × SpellsNone AreDeltaLengths count section.now) }
{
    let mut decoder = Decoder::try_new(section)?;
    if decoder.len() != count {
        return Err(Error::OutOfSpec(S::S6));
    }
    while let Some(item) = decoder.pass_block() {
        if let Err(error) = item {
            return Err(error);
        }
    }
    match decoder.behind(section) {
        Some(behind) => Ok(behind),
        None => Err(Error::OutOfSpec(S::S6)),
    }
}

// The length that a number of 32 bits is: none that is negative.
fn length_of(value: i64) -> Option<usize>
    ensures { MatchOption result ((n : ℕ) → wrapped w32 value ≡ pos n → ⊥) (λ n. (wrapped w32 value ≡ pos n)
        × (n < 2 ^ 31)) }
{
    let low = (value.cast_unsigned() % (1 << 32)) as u32;
    if low < 1 << 31 {
        Some(low as usize)
    } else {
        None
    }
}

// Appends the string of so many bytes at the front, and gives the bytes behind it.
fn push_string<'a>(out: &mut Vec<u8>, bytes: &'a [u8], size: usize) -> Result<&'a [u8]>
    requires { size < 2 ^ 31 }
    ensures ok { IfOk result (λ rest. TakesString size bytes.now rest.now out.old.items out.new.items) }
    ensures err { IfErr result (λ e. (e ≡ Memory) ⊎ ((e ≡ fault) × (length bytes.now < size))) }
    ensures kept { Extends out.old.items out.new.items }
{
    if bytes.len() < size {
        return Err(Error::OutOfSpec(S::S6));
    }
    let (string, rest) = bytes.split_at(size);
    push_u32_le(out, size as u32)?;
    out.extend_from_slice(string)?;
    Ok(rest)
}

// The same, of at most 32, where so many bytes stand there. A negative length is a great one without its sign.
#[inline(always)]
fn short_length(value: i64, bytes: &[u8]) -> Option<usize>
    ensures { MatchOption result (Unit {0}) (λ n. (wrapped w32 value ≡ pos n) × (n ≤ 32) × (32 ≤ length bytes.now)) }
{
    let low = (value.cast_unsigned() % (1 << 32)) as u32;
    if low > 32 {
        return None;
    }
    if bytes.len() < 32 {
        return None;
    }
    Some(low as usize)
}

// Bytes take their places, and those before them stay.
#[inline(always)]
fn put_bytes(places: &mut [u8; 1152], at: usize, text: &[u8])
    requires { at + length text.now ≤ 1152 }
    ensures { take (at + length text.now) places.new ≡ take at places.old ++ text.now }
{
    places[at..at + text.len()].copy_from_slice(text);
}

// As many bytes as a short string may have take their places, and those before them stay.
#[inline(always)]
fn put_chunk(places: &mut [u8; 1152], at: usize, bytes: &[u8])
    requires within { at + 32 ≤ 1152 }
    requires enough { 32 ≤ length bytes.now }
    ensures { take (at + 32) places.new ≡ take at places.old ++ take 32 bytes.now }
{
    match bytes.first_chunk::<32>() {
        Some(chunk) => {
            let chunk = *chunk;
            put_bytes(places, at, &chunk);
        }
        None => unreachable!(),
    }
}

// Puts the string of so many bytes at the front, and gives the bytes behind it. As many bytes are copied as a short string may have, which costs less.
#[inline(always)]
fn put_string<'a>(places: &mut [u8; 1152], at: usize, bytes: &'a [u8], size: usize) -> &'a [u8]
    requires within { at + 36 ≤ 1152 }
    requires short { size ≤ 32 }
    requires enough { 32 ≤ length bytes.now }
    ensures { TakesString size bytes.now result.now (take at places.old) (take (at + 4 + size) places.new) }
{
    let head = (size as u32).to_le_bytes();
    put_bytes(places, at, &head);
    put_chunk(places, at + 4, bytes);
    &bytes[size..]
}

// Puts the strings of the first lengths one behind the other, up to the first that is not short or has few bytes behind it. Gives how many, how many
// bytes they take, and the bytes behind them.
fn put_strings<'a>(
    places: &mut [u8; 1152],
    bytes: &'a [u8],
    lengths: &[u64; 32],
    count: usize,
) -> (usize, usize, &'a [u8])
    requires few { count ≤ 32 }
    ensures few { result.0 ≤ count }
    ensures fits { result.1 ≤ 1152 }
    ensures takes { TakesStrings (signed (take result.0 lengths.now)) bytes.now result.2.now []
        (take result.1 places.new) }
{
    let mut rest = bytes;
    let mut at = 0;
    for i in 0..count {
        match short_length(lengths[i].cast_signed(), rest) {
            None => return (i, at, rest),
            Some(size) => {
                rest = put_string(places, at, rest, size);
                at += 4 + size;
            }
        }
    }
    (count, at, rest)
}

// Appends the strings of the first lengths, and gives the bytes behind them.
fn push_strings<'a>(
    out: &mut Vec<u8>,
    places: &mut [u8; 1152],
    bytes: &'a [u8],
    lengths: &[u64; 32],
    count: usize,
) -> Result<&'a [u8]>
    requires { count ≤ 32 }
    ensures ok { IfOk result (λ rest. TakesStrings
        (signed (take count lengths.now)) bytes.now rest.now out.old.items out.new.items) }
    ensures err { IfErr result (λ e. (e ≡ Memory) ⊎ ((e ≡ fault)
        × StopsStrings (signed (take count lengths.now)) bytes.now out.old.items)) }
    ensures kept { Extends out.old.items out.new.items }
{
    let (first, size, rest) = put_strings(places, bytes, lengths, count);
    out.extend_from_slice(&places[..size])?;
    let mut rest = rest;
    for i in first..count {
        let Some(size) = length_of(lengths[i].cast_signed()) else {
            return Err(Error::OutOfSpec(S::S6));
        };
        rest = push_string(out, rest, size)?;
    }
    Ok(rest)
}

/// Appends the plain spelling of the byte strings with which a section of delta lengths begins: four bytes with the length, lowest first, and the bytes
/// of each (Parquet format, Encodings, "Delta-length byte array" and "Plain"). The lengths' last miniblock is whole, and what follows the strings is
/// not looked at. The lengths are gone over twice, so that nothing but `out` takes memory.
///
/// # Errors
///
/// S6 exactly where the section begins with no list of `count` strings: also for a negative length, and one past the end. Or want of memory. `out`
/// has what it had in front.
pub fn push_plain_strings(section: &[u8], count: usize, out: &mut Vec<u8>) -> Result<()>
    ensures ok { OnOk result (TurnsPlain AreDeltaLengths byte_array count section.now out.old.items out.new.items) }
    ensures err { IfErr result (λ e. (e ≡ Memory) ⊎ ((e ≡ fault) × SpellsNone AreDeltaLengths count section.now)) }
    ensures kept { Extends out.old.items out.new.items }
{
    let mut bytes = behind_lengths(section, count)?;
    expect_room(
        out,
        count.saturating_mul(4).saturating_add(bytes.len()),
        section.len(),
    );
    let mut decoder = Decoder::try_new(section)?;
    let mut lengths = [0; 32];
    let mut places = [0; 1152];
    while let Some(item) = decoder.next_block(&mut lengths) {
        let count = match item {
            Ok(count) => count,
            Err(error) => return Err(error),
        };
        bytes = push_strings(out, &mut places, bytes, &lengths, count)?;
    }
    Ok(())
}
