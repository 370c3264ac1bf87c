//! Truth values.
ghost use Rattle.std.specs.Prelude.{◌≡◌, ℕ, Bool, List, ◌+◌, ◌-◌, ◌*◌, ◌/◌, ◌%◌, ◌^◌, ◌<◌, ◌≤◌, ◌==◌, ◌++◌, ◌↔◌, [], true, IsTrue, IsOk, IfOk, OnOk, IfErr, replicate, slice_index_or, length as list_length};
ghost use Rattle.columns_base.specs.declared.error.Error.{Error};
ghost use Rattle.columns_core.specs.Bits.{bits_from, word_bits};
ghost use Rattle.shredding.specs.Slot.{null};
ghost use Rattle.read_walk.specs.Values.{Decodes, DecodesMixed, ones, CannotDecode};
ghost use Rattle.read_leaf.specs.Truths.{AddsTruths, TookAmong, among_nulls, stored_truths, truth_slots};

use crate::bit_words::bits_in;
use crate::cut::skip;
use crate::set_bits::{count_set, low_bits};
use columns_base::{Error, Result, S};
use columns_core::MutableBitmap;
use read_walk::NestedDecoder;
use std::alloc::Global;
use std::marker::Model;

/// The plain bytes of a page's truth values that are left.
#[derive(Debug, Drop)]
pub struct PlainTruths<'a> {
    pub values: &'a [u8],
    /// How many bits were taken, the lowest bit of the first byte first.
    pub bit: usize,
}

/// Truth values, and which of them are there.
#[derive(Debug, Drop)]
pub struct TruthValues {
    values: MutableBitmap,
    validity: MutableBitmap,
}

impl Model for TruthValues {
    ghost use Rattle.std.specs.Prelude.{List, Bool, length, ◌≡◌};

    ghost Value = { List Bool × List Bool };

    ghost view = { λ d. (d.values.0, d.validity.0) };

    ghost invariant = { λ d. length d.values.0 ≡ length d.validity.0 };
}

impl TruthValues {
    /// No truth value.
    pub fn new(alloc: Global) -> Self
        ensures values { result.0 ≡ [] }
        ensures validity { result.1 ≡ [] }
    {
        TruthValues {
            values: MutableBitmap::new(alloc),
            validity: MutableBitmap::new(alloc),
        }
    }

    /// How many slots there are.
    pub fn len(&self) -> usize
        ensures { result ≡ list_length self.now.1 }
    {
        self.validity.len()
    }

    /// The truth values, those in the place of nulls too, and which are there: what an array of truth values is made of.
    pub fn into_parts(self) -> (MutableBitmap, MutableBitmap)
        ensures values { result.0.0 ≡ self.0 }
        ensures validity { result.1.0 ≡ self.1 }
        ensures even { list_length self.0 ≡ list_length self.1 }
    {
        (self.values, self.validity)
    }
}

/// Decodes plain truth values.
#[derive(Drop)]
pub struct TruthDecoder;

// Whether so many bits stand in the bytes behind so many first ones.
fn are_there(bytes: &[u8], bit: usize, count: usize) -> bool
    ensures { IsTrue result ↔ (bit + count ≤ 8 * list_length bytes.now) }
{
    bit as u128 + count as u128 <= 8 * bytes.len() as u128
}

// Appends at most 64 bits of packed bytes, where there is room.
#[inline(always)]
fn append_word(values: &mut MutableBitmap, bytes: &[u8], at: usize, count: usize)
    requires few { count ≤ 64 }
    requires within { at + count ≤ 8 * list_length bytes.now }
    requires room { count ≤ values.old.1 }
    ensures same { values.new.0 ≡ values.old.0 ++ bits_from bytes.now at count }
    ensures room { values.old.1 ≤ values.new.1 + count }
{
    let word = bits_in(bytes, at, count);
    values.extend_from_word(word, count).unwrap();
}

// Appends so many bits of packed bytes, 64 at once, where there is room.
fn append_bits(values: &mut MutableBitmap, bytes: &[u8], bit: usize, count: usize)
    requires within { bit + count ≤ 8 * list_length bytes.now }
    requires counted { bit + count < 2 ^ 64 }
    requires room { count ≤ values.old.1 }
    ensures { values.new.0 ≡ values.old.0 ++ bits_from bytes.now bit count }
{
    let mut done = 0;
    while done < count {
        let size = (count - done).min(64);
        append_word(values, bytes, bit + done, size);
        done += size;
    }
}

// Appends the next truth values, and gives the bytes from the one on that has the first bit behind them.
fn append_truths<'a>(
    values: &mut MutableBitmap,
    bytes: &'a [u8],
    bit: usize,
    count: usize,
) -> Result<&'a [u8]>
    requires within { bit + count ≤ 8 * list_length bytes.now }
    requires counted { bit + count < 2 ^ 64 }
    ensures ok { IfOk result (λ rest. AddsTruths count bytes.now bit rest.now
        ((bit + count) % 8) values.old.0 values.new.0) }
    ensures err { IfErr result (λ e. (e ≡ Error.Memory) × (values.new.0 ≡ values.old.0)) }
{
    match values.reserve(count) {
        Ok(()) => {}
        Err(error) => return Err(error),
    }
    append_bits(values, bytes, bit, count);
    Ok(skip(bytes, (bit + count) / 8))
}

// What is not below a place of a word.
#[inline(always)]
fn from_place(word: u64, at: u32) -> u64
    requires { at < 64 }
    ensures { result ≡ word / 2 ^ at * 2 ^ at }
{
    (word >> at) << at
}

// The low bits of a word in the places of the other word's set bits, and 0 in those of the nulls between them: from the lowest null on, what is
// not below it goes one place up.
fn spread_bits(source: u64, valid: u64, count: usize) -> u64
    requires few { count ≤ 64 }
    requires low { source < 2 ^ ones (word_bits valid count) }
    ensures { word_bits result count ≡ among_nulls (word_bits valid count)
        (word_bits source (ones (word_bits valid count))) }
{
    let mut nulls = low_bits(u64::MAX - valid, count);
    let mut word = source;
    while nulls != 0 {
        word += from_place(word, nulls.trailing_zeros());
        nulls = nulls & (nulls - 1);
    }
    word
}

// The next truth values among nulls, as the low bits of a word: at each bit of the other word that is set, and 0 elsewhere. Gives also the bytes
// from the one on that has the first bit behind them.
fn take_among(bytes: &[u8], bit: usize, valid: u64, count: usize) -> (u64, &[u8])
    requires few { count ≤ 64 }
    requires within { bit + ones (word_bits valid count) ≤ 8 * list_length bytes.now }
    requires counted { bit + ones (word_bits valid count) < 2 ^ 64 }
    ensures { TookAmong (word_bits valid count) bytes.now bit result.1.now ((bit + ones (word_bits valid count)) % 8)
        (word_bits result.0 count) }
{
    let wanted = count_set(valid, count);
    let source = bits_in(bytes, bit, wanted);
    let word = spread_bits(source, valid, count);
    (word, skip(bytes, (bit + wanted) / 8))
}

// The next truth values among nulls, where both are wanted.
fn decode_among<'a>(
    state: &mut PlainTruths<'a>,
    decoded: &mut TruthValues,
    valid: u64,
    count: usize,
    end: usize,
) -> Result<()>
    requires few { count ≤ 64 }
    requires end { end ≡ state.old.bit + ones (word_bits valid count) }
    requires within { end ≤ 8 * list_length state.old.values.now }
    ensures ok { OnOk result (DecodesMixed (word_bits valid count) (stored_truths state.old.values.now state.old.bit)
        (stored_truths state.new.values.now state.new.bit) (truth_slots decoded.old.0 decoded.old.1)
        (truth_slots decoded.new.0 decoded.new.1)) }
    ensures err { IfErr result (λ e. e ≡ Error.Memory) }
{
    decoded.validity.reserve(count)?;
    let (word, rest) = take_among(state.values, state.bit, valid, count);
    match decoded.values.extend_from_word(word, count) {
        Ok(()) => {}
        Err(error) => return Err(error),
    }
    state.values = rest;
    state.bit = end % 8;
    decoded.validity.extend_from_word(valid, count)
}

impl<'a> NestedDecoder<'a> for TruthDecoder {
    ghost use Rattle.read_leaf.specs.Truths.{stored_truths, truth_slots};

    type State = PlainTruths<'a>;

    type DecodedState = TruthValues;

    ghost left = { λ d s. stored_truths s.values.now s.bit };

    ghost slots = { λ d. truth_slots d.0 d.1 };

    ghost byte_limit = { 1 };

    fn push_valid(
        &self,
        state: &mut PlainTruths<'a>,
        decoded: &mut TruthValues,
        count: usize,
    ) -> Result<()>
        ensures ok { OnOk result (Decodes count (stored_truths state.old.values.now state.old.bit)
            (stored_truths state.new.values.now state.new.bit) (truth_slots decoded.old.0 decoded.old.1)
            (truth_slots decoded.new.0 decoded.new.1)) }
        ensures err { IfErr result (CannotDecode 1 count (stored_truths state.old.values.now state.old.bit)
            (truth_slots decoded.old.0 decoded.old.1)) }
    {
        if count == 0 {
            return Ok(());
        }
        if !are_there(state.values, state.bit, count) {
            return Err(Error::OutOfSpec(S::S6));
        }
        // No memory holds that many truth values.
        let Some(end) = state.bit.checked_add(count) else {
            return Err(Error::Memory);
        };
        decoded.validity.reserve(count)?;
        match append_truths(&mut decoded.values, state.values, state.bit, count) {
            Ok(rest) => state.values = rest,
            Err(error) => return Err(error),
        }
        state.bit = end % 8;
        decoded.validity.extend_constant(count, true)
    }

    fn push_null(&self, decoded: &mut TruthValues, count: usize) -> Result<()>
        ensures ok { OnOk result (truth_slots decoded.new.0 decoded.new.1
            ≡ truth_slots decoded.old.0 decoded.old.1 ++ replicate count null) }
        ensures err { IfErr result (λ e. e ≡ Error.Memory) }
    {
        decoded.validity.reserve(count)?;
        match decoded.values.extend_constant(count, false) {
            Ok(()) => {}
            Err(error) => return Err(error),
        }
        decoded.validity.extend_constant(count, false)
    }

    fn push_mixed(
        &self,
        state: &mut PlainTruths<'a>,
        decoded: &mut TruthValues,
        valid: u64,
        count: usize,
    ) -> Result<()>
        requires few { count ≤ 64 }
        ensures ok { OnOk result (DecodesMixed (word_bits valid count)
            (stored_truths state.old.values.now state.old.bit) (stored_truths state.new.values.now state.new.bit)
            (truth_slots decoded.old.0 decoded.old.1) (truth_slots decoded.new.0 decoded.new.1)) }
        ensures err { IfErr result (CannotDecode 1 (ones (word_bits valid count))
            (stored_truths state.old.values.now state.old.bit) (truth_slots decoded.old.0 decoded.old.1)) }
    {
        let wanted = count_set(valid, count);
        if wanted == count {
            return self.push_valid(state, decoded, count);
        }
        if wanted == 0 {
            return self.push_null(decoded, count);
        }
        if !are_there(state.values, state.bit, wanted) {
            return Err(Error::OutOfSpec(S::S6));
        }
        // No memory holds that many truth values.
        let Some(end) = state.bit.checked_add(wanted) else {
            return Err(Error::Memory);
        };
        decode_among(state, decoded, valid, count, end)
    }
}
