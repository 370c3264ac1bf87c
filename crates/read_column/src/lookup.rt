//! Entries at blocks of indices.
ghost use Rattle.std.specs.Prelude.{◌≡◌, ◌+◌, ◌*◌, ◌++◌, ◌<◌, ◌≤◌, ℕ, List, Some, IfErr, IfOk, MatchOption, All, drop, length, map, replicate, slice_get, take};
ghost use Rattle.columns_base.specs.declared.error.Error.TheVariants.{Memory};
ghost use Rattle.pq_numbers.specs.Bits.{unpacked};
ghost use Rattle.read_column.specs.Dictionary.{text_at};
ghost use Rattle.read_column.specs.Entries.{AreEven, IsPadded};
ghost use Rattle.read_column.specs.Lookups.{AreLaidAs, Lays};

use crate::entries::{Entries, Place};
use columns_base::Result;
use pq_delta_reads::unpack_into;

// The bytes from a place on.
#[inline(always)]
fn behind(bytes: &[u8], start: usize) -> &[u8]
    requires { start ≤ length bytes.now }
    ensures { result.now ≡ drop start bytes.now }
{
    &bytes[start..]
}

// The bytes behind the first so many, or none.
fn skip(bytes: &[u8], count: usize) -> &[u8]
    ensures { result.now ≡ drop count bytes.now }
{
    if count < bytes.len() {
        return &bytes[count..];
    }
    &[]
}

// The bytes from where an entry stands on, and how many of them it has, if it is short.
#[inline(always)]
fn short_at<'a>(body: &'a [u8], places: &[Place], index: usize) -> Option<(&'a [u8], usize)>
    requires { All (IsPadded (length body.now)) places.now }
    ensures { MatchOption result (Unit {0}) (λ s. (s.1 ≤ 32) × (32 ≤ length s.0.now)
        × (slice_get (map (text_at body.now) places.now) index ≡ Some (take s.1 s.0.now))) }
{
    if places.len() <= index {
        return None;
    }
    let place = &places[index];
    let size = place.end - place.start;
    if size > 32 {
        return None;
    }
    Some((behind(body, place.start), size))
}

// Bytes take their places, and those before them stay.
#[inline(always)]
fn put_bytes(out: &mut [u8; 1024], at: usize, text: &[u8])
    requires { at + length text.now ≤ 1024 }
    ensures { take (at + length text.now) out.new ≡ take at out.old ++ text.now }
{
    out[at..at + text.len()].copy_from_slice(text);
}

// The first bytes take their places, and those before them stay.
#[inline(always)]
fn put_chunk<const N: usize>(out: &mut [u8; 1024], at: usize, bytes: &[u8])
    requires within { at + N ≤ 1024 }
    requires enough { N ≤ length bytes.now }
    ensures { take (at + N) out.new ≡ take at out.old ++ take N bytes.now }
{
    let mut chunk = [0; N];
    chunk.copy_from_slice(&bytes[..N]);
    put_bytes(out, at, &chunk);
}

// The first bytes take their places, and those before them stay. As many are copied as a short entry may have, which costs less.
#[inline(always)]
fn put_text(out: &mut [u8; 1024], at: usize, bytes: &[u8], size: usize)
    requires within { at + 32 ≤ 1024 }
    requires short { size ≤ 32 }
    requires enough { 32 ≤ length bytes.now }
    ensures { take (at + size) out.new ≡ take at out.old ++ take size bytes.now }
{
    put_chunk::<32>(out, at, bytes);
}

/// Puts the entries at the first indices one behind the other, up to the first that is not short or is past the entries. Gives how many, and how many
/// bytes they have.
pub fn put_short(
    out: &mut [u8; 1024],
    body: &[u8],
    places: &[Place],
    indices: &[u64; 32],
    count: usize,
) -> (usize, usize)
    requires are { All (IsPadded (length body.now)) places.now }
    requires few { count ≤ 32 }
    ensures few { result.0 ≤ count }
    ensures fits { result.1 ≤ 1024 }
    ensures laid { AreLaidAs (map (text_at body.now) places.now) (take result.0 indices.now) (take result.1 out.new) }
{
    let mut at = 0;
    for i in 0..count {
        match short_at(body, places, indices[i] as usize) {
            None => return (i, at),
            Some((text, size)) => {
                put_text(out, at, text, size);
                at += size;
            }
        }
    }
    (count, at)
}

// The bytes from where an entry stands on, if there is one, where all have the same size.
#[inline(always)]
fn even_at<'a, const N: usize>(body: &'a [u8], places: &[Place], index: usize) -> Option<&'a [u8]>
    requires { AreEven N body.now (map (text_at body.now) places.now) }
    ensures { MatchOption result (Unit {0}) (λ text. (N ≤ length text.now)
        × (slice_get (map (text_at body.now) places.now) index ≡ Some (take N text.now))) }
{
    if places.len() <= index {
        return None;
    }
    Some(behind(body, N * index))
}

// Puts the entries at the first indices one behind the other, up to the first that is past the entries, where all have the same size. Gives how many.
#[inline(always)]
fn put_each<const N: usize>(
    out: &mut [u8; 1024],
    body: &[u8],
    places: &[Place],
    indices: &[u64; 32],
    count: usize,
) -> usize
    requires even { AreEven N body.now (map (text_at body.now) places.now) }
    requires small { N ≤ 32 }
    requires few { count ≤ 32 }
    ensures few { result ≤ count }
    ensures laid { AreLaidAs (map (text_at body.now) places.now) (take result indices.now) (take (N * result) out.new) }
{
    for i in 0..count {
        match even_at::<N>(body, places, indices[i] as usize) {
            None => return i,
            Some(text) => put_chunk::<N>(out, N * i, text),
        }
    }
    count
}

/// The same as `put_short`, where all entries have the same size.
pub fn put_even<const N: usize>(
    out: &mut [u8; 1024],
    body: &[u8],
    places: &[Place],
    indices: &[u64; 32],
    count: usize,
) -> (usize, usize)
    requires even { AreEven N body.now (map (text_at body.now) places.now) }
    requires small { N ≤ 32 }
    requires few { count ≤ 32 }
    ensures few { result.0 ≤ count }
    ensures fits { result.1 ≤ 1024 }
    ensures laid { AreLaidAs (map (text_at body.now) places.now) (take result.0 indices.now) (take result.1 out.new) }
{
    let n = if count == 32 {
        put_each::<N>(out, body, places, indices, 32)
    } else {
        put_each::<N>(out, body, places, indices, count)
    };
    (n, N * n)
}

// Appends the short entries at the first indices, and gives how many.
fn push_short(
    values: &mut Vec<u8>,
    places: &mut [u8; 1024],
    entries: &Entries,
    indices: &[u64; 32],
    count: usize,
) -> Result<usize>
    requires { count ≤ 32 }
    ensures ok { IfOk result (λ n. (n ≤ count) × ((text : List ℕ) × (values.new.items ≡ values.old.items ++ text)
        × AreLaidAs entries.now (take n indices.now) text)) }
    ensures err { IfErr result (λ e. e ≡ Memory) }
{
    let (n, size) = entries.put_short(places, indices, count);
    values.extend_from_slice(&places[..size])?;
    Ok(n)
}

// Appends the entries at the first indices, up to the first that is past the entries. Gives whether all were appended.
fn push_entries(
    values: &mut Vec<u8>,
    places: &mut [u8; 1024],
    entries: &Entries,
    indices: &[u64; 32],
    count: usize,
) -> Result<bool>
    requires { count ≤ 32 }
    ensures ok { IfOk result (λ all. Lays entries.now (take count indices.now) all values.old.items values.new.items) }
    ensures err { IfErr result (λ e. e ≡ Memory) }
{
    let mut at = push_short(values, places, entries, indices, count)?;
    while at < count {
        match entries.get(indices[at] as usize) {
            None => return Ok(false),
            Some(text) => values.extend_from_slice(text)?,
        }
        at += 1;
    }
    Ok(true)
}

/// Appends the entries at so many packed indices, up to the first that is past the entries. Gives whether all were appended.
///
/// # Errors
///
/// `Memory`.
pub fn push_packed(
    values: &mut Vec<u8>,
    entries: &Entries,
    body: &[u8],
    width: u32,
    count: usize,
) -> Result<bool>
    requires { width ≤ 32 }
    ensures ok { IfOk result (λ all. Lays entries.now
        (unpacked width count body.now) all values.old.items values.new.items) }
    ensures err { IfErr result (λ e. e ≡ Memory) }
{
    let mut rest = body;
    let mut left = count;
    let mut indices = [0; 32];
    let mut places = [0; 1024];
    while left > 0 {
        let some = left.min(32);
        unpack_into(rest, width, &mut indices);
        let all = push_entries(values, &mut places, entries, &indices, some)?;
        if !all {
            return Ok(false);
        }
        rest = skip(rest, 4 * width as usize);
        left -= some;
    }
    Ok(true)
}

/// Appends so many copies of the entry at an index, if there is one. Gives whether there is.
///
/// # Errors
///
/// `Memory`.
pub fn push_copies(
    values: &mut Vec<u8>,
    entries: &Entries,
    index: u32,
    count: usize,
) -> Result<bool>
    ensures ok { IfOk result (λ all. Lays entries.now (replicate count index) all values.old.items values.new.items) }
    ensures err { IfErr result (λ e. e ≡ Memory) }
{
    let indices = [u64::from(index); 32];
    let mut places = [0; 1024];
    let mut left = count;
    while left > 0 {
        let some = left.min(32);
        let all = push_entries(values, &mut places, entries, &indices, some)?;
        if !all {
            return Ok(false);
        }
        left -= some;
    }
    Ok(true)
}
