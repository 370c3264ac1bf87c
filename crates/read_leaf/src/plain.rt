//! Plain byte strings (Parquet format, Encodings, "Plain"), taken for the bits of a word.
ghost use Rattle.std.specs.Prelude.{◌≡◌, ◌⊎◌, ◌+◌, ◌*◌, ◌/◌, ◌%◌, ◌^◌, ◌==◌, ◌<◌, ◌≤◌, ◌++◌, ◌∷◌, [], true, IsTrue, vec_len, vec_capacity, IfOk, IfErr, MatchOption, List, ℕ, Some, None, take, drop, length as list_length};
ghost use Rattle.std.specs.Int.{bit_at};
ghost use Rattle.columns_base.specs.declared.error.Error.{Error};
ghost use Rattle.columns_base.specs.declared.error.S.{S};
ghost use Rattle.columns_core.specs.Bits.{word_bits};
ghost use Rattle.pq_numbers.specs.Texts.{number_of};
ghost use Rattle.read_walk.specs.Values.{ones};
ghost use Rattle.read_leaf.specs.Strings.{string_at, TookBytes, IsFault};

use crate::binary::push_first;
use crate::cut::skip;
use crate::room::want_room;
use crate::set_bits::bits_behind;
use columns_base::{Error, Result, S};
use std::simd::prelude::*;

// How many bytes a short string has at most.
const SHORT: usize = 32;

/// How many strings were taken, the bytes behind them, and why no more.
#[derive(Drop)]
pub struct Taken<'a> {
    pub count: usize,
    pub rest: &'a [u8],
    pub fault: Option<Error>,
}

// Short strings that were taken: how many, how many bytes they have, and the bytes behind them.
#[derive(Clone, Copy, Drop)]
struct ShortTaken<'a> {
    count: usize,
    size: usize,
    rest: &'a [u8],
}

// Whether a bit of a word is set.
#[inline(always)]
fn is_set(word: u64, at: usize) -> bool
    requires { at < 64 }
    ensures { result ≡ (bit_at word at == 1) }
{
    (word >> at) % 2 == 1
}

// The number that the first four bytes spell.
fn first_number(text: &[u8]) -> u32
    requires { 4 ≤ list_length text.now }
    ensures { result ≡ number_of (take 4 text.now) }
{
    match text {
        [a, b, c, d, ..] => u32::from_le_bytes([*a, *b, *c, *d]),
        _ => unreachable!(),
    }
}

// How long the string at the front is, and the bytes behind its length, of which it is the first; none where any of them is cut.
fn take_length(text: &[u8]) -> Option<(usize, &[u8])>
    ensures { MatchOption result (string_at text.now ≡ None) (λ s. (s.0 ≤ list_length s.1.now)
        × (string_at text.now ≡ Some (take s.0 s.1.now, drop s.0 s.1.now))) }
{
    if text.len() < 4 {
        return None;
    }
    let count = first_number(text) as usize;
    let behind = skip(text, 4);
    if behind.len() < count {
        return None;
    }
    Some((count, behind))
}

// The same where the string is short, and as many bytes stand there as a short string may have.
#[inline(always)]
fn take_short_length(text: &[u8]) -> Option<(usize, &[u8])>
    ensures { MatchOption result (Unit {0}) (λ s. (s.0 ≤ 32) × (32 ≤ list_length s.1.now)
        × (string_at text.now ≡ Some (take s.0 s.1.now, drop s.0 s.1.now))) }
{
    if text.len() < 4 + SHORT {
        return None;
    }
    let count = first_number(text) as usize;
    if SHORT < count {
        return None;
    }
    Some((count, skip(text, 4)))
}

// Writes the first bytes over others, all at once.
#[inline(always)]
fn put_chunk(places: &mut [u8], bytes: &[u8])
    requires size { list_length places.old ≡ 32 }
    requires enough { 32 ≤ list_length bytes.now }
    ensures { places.new ≡ take 32 bytes.now }
{
    Simd::<u8, 32>::from_slice(bytes).copy_to_slice(places);
}

// Writes the first bytes to a place on, and keeps what stands before it: as many as a short string may have, which costs less than to copy so many as
// it has.
#[inline(always)]
fn put_short(places: &mut [u8], at: usize, bytes: &[u8])
    requires within { at + 32 ≤ list_length places.old }
    requires enough { 32 ≤ list_length bytes.now }
    ensures { take (at + 32) places.new ≡ take at places.old ++ take 32 bytes.now }
{
    put_chunk(&mut places[at..at + 32], bytes);
}

// Writes the next string, where one is wanted, to a place on, if it is short. Gives its length, 0 where none is wanted, and the bytes behind it.
#[inline(always)]
fn put_next<'a>(
    places: &mut [u8],
    at: usize,
    text: &'a [u8],
    is_valid: bool,
) -> Option<(usize, &'a [u8])>
    requires { at + 32 ≤ list_length places.old }
    ensures { MatchOption result (places.new ≡ places.old) (λ s. (s.0 ≤ 32)
        × TookBytes (is_valid ∷ []) text.now s.1.now (s.0 ∷ []) (take at places.old) (take (at + s.0) places.new)) }
{
    if !is_valid {
        return Some((0, text));
    }
    match take_short_length(text) {
        None => None,
        Some((length, behind)) => {
            put_short(places, at, behind);
            Some((length, skip(behind, length)))
        }
    }
}

// Takes short strings for the low bits of a word, one for each length: the next one where the bit is set, else an empty one. Writes them one after
// another and their lengths, up to the first that is not short or may be near the end.
fn take_short<'a>(
    places: &mut [u8],
    lengths: &mut [usize],
    text: &'a [u8],
    valid: u64,
) -> ShortTaken<'a>
    requires few { list_length lengths.old ≤ 64 }
    requires room { 32 * list_length lengths.old ≤ list_length places.old }
    ensures within { result.count ≤ list_length lengths.old }
    ensures fits { result.size ≤ list_length places.old }
    ensures took { TookBytes (word_bits valid result.count) text.now result.rest.now (take result.count lengths.new) []
        (take result.size places.new) }
{
    let mut size = 0;
    let mut rest = text;
    for count in 0..lengths.len() {
        match put_next(places, size, rest, is_set(valid, count)) {
            None => return ShortTaken { count, size, rest },
            Some((length, behind)) => {
                lengths[count] = length;
                size += length;
                rest = behind;
            }
        }
    }
    ShortTaken {
        count: lengths.len(),
        size,
        rest,
    }
}

// Whether there is room for so many bytes, which is made where so many may still come.
fn has_room(content: &mut Vec<u8>, room: usize, left: usize) -> bool
    ensures same { content.new.items ≡ content.old.items }
    ensures enough { IsTrue result → vec_len content.new + room ≤ vec_capacity content.new }
{
    if want_room(content, room, left.saturating_add(room)).is_err() {
        return false;
    }
    room <= content.capacity() - content.len()
}

// Appends what `take_short` takes, if there is room.
fn append_short<'a>(
    content: &mut Vec<u8>,
    lengths: &mut [usize],
    text: &'a [u8],
    valid: u64,
) -> ShortTaken<'a>
    requires few { list_length lengths.old ≤ 64 }
    ensures within { result.count ≤ list_length lengths.old }
    ensures took { TookBytes (word_bits valid result.count) text.now result.rest.now
        (take result.count lengths.new) content.old.items content.new.items }
{
    let room = SHORT * lengths.len();
    if !has_room(content, room, text.len()) {
        return ShortTaken {
            count: 0,
            size: 0,
            rest: text,
        };
    }
    let before = content.len();
    content.resize(before + room, 0).unwrap();
    let taken = take_short(&mut content[before..], lengths, text, valid);
    content.truncate(before + taken.size);
    taken
}

// Appends the next string where one is wanted. Gives its length, 0 where none is, and the bytes behind it.
fn take_one<'a>(content: &mut Vec<u8>, text: &'a [u8], is_valid: bool) -> Result<(usize, &'a [u8])>
    ensures ok { IfOk result (λ s. TookBytes (is_valid ∷ []) text.now s.1.now
        (s.0 ∷ []) content.old.items content.new.items) }
    ensures err { IfErr result (λ e. ((e ≡ Error.Memory)
        ⊎ ((e ≡ Error.OutOfSpec S.S6) × (is_valid ≡ true) × (string_at text.now ≡ None)))
        × (content.new.items ≡ content.old.items)) }
{
    if !is_valid {
        return Ok((0, text));
    }
    match take_length(text) {
        None => Err(Error::OutOfSpec(S::S6)),
        Some((length, behind)) => {
            push_first(content, behind, length)?;
            Ok((length, skip(behind, length)))
        }
    }
}

// Appends a string for each of the low bits of a word, one for each length, and writes their lengths.
fn take_each<'a>(
    content: &mut Vec<u8>,
    lengths: &mut [usize],
    text: &'a [u8],
    valid: u64,
) -> Taken<'a>
    requires few { list_length lengths.old ≤ 64 }
    ensures within { result.count ≤ list_length lengths.old }
    ensures took { TookBytes (word_bits valid result.count) text.now result.rest.now
        (take result.count lengths.new) content.old.items content.new.items }
    ensures end { MatchOption result.fault (result.count ≡ list_length lengths.old)
        (IsFault (word_bits valid (list_length lengths.old)) text.now) }
{
    let mut rest = text;
    for count in 0..lengths.len() {
        match take_one(content, rest, is_set(valid, count)) {
            Ok((length, behind)) => {
                lengths[count] = length;
                rest = behind;
            }
            Err(error) => {
                return Taken {
                    count,
                    rest,
                    fault: Some(error),
                };
            }
        }
    }
    Taken {
        count: lengths.len(),
        rest,
        fault: None,
    }
}

/// Takes a plain string for each of the low bits of a word, one for each length: the next one where the bit is set, else an empty one. Appends
/// their bytes one after another and writes their lengths, as far as they stand. Short ones are taken in a loop of their own, up to the first that
/// is not.
pub fn take_plain<'a>(
    content: &mut Vec<u8>,
    lengths: &mut [usize],
    text: &'a [u8],
    valid: u64,
) -> Taken<'a>
    requires few { list_length lengths.old ≤ 64 }
    ensures within { result.count ≤ list_length lengths.old }
    ensures took { TookBytes (word_bits valid result.count) text.now result.rest.now
        (take result.count lengths.new) content.old.items content.new.items }
    ensures end { MatchOption result.fault (result.count ≡ list_length lengths.old)
        (IsFault (word_bits valid (list_length lengths.old)) text.now) }
{
    let short = append_short(content, lengths, text, valid);
    let bits = bits_behind(valid, short.count);
    let others = take_each(content, &mut lengths[short.count..], short.rest, bits);
    Taken {
        count: short.count + others.count,
        rest: others.rest,
        fault: others.fault,
    }
}
