//! Numbers of fixed size.
ghost use Rattle.std.specs.Prelude.{◌≡◌, ◌⊎◌, ℕ, ℤ, List, ◌+◌, ◌*◌, ◌/◌, ◌<◌, ◌≤◌, ◌^◌, ◌++◌, [], true, IfOk, OnOk, IfErr, IsTrue, MatchOption, Some, None, map, replicate, length as list_length, take, drop};
ghost use Rattle.columns_base.specs.declared.error.Error.{Error};
ghost use Rattle.columns_base.specs.declared.error.S.{S};
ghost use Rattle.columns_core.specs.Bits.{word_bits};
ghost use Rattle.shredding.specs.Slot.{null};
ghost use Rattle.read_walk.specs.Values.{Decodes, DecodesMixed, ones, CannotDecode};
ghost use Rattle.read_leaf.specs.Numbers.{TookNumbers, TookOne, TookMixed, OneIsOutside, number_slots, stored_numbers};

use crate::cut::skip;
use crate::room::want_room;
use crate::set_bits::{bits_behind, count_set};
use crate::stored::{FromStored, StoredNumber};
use columns_base::{Error, Result, S};
use columns_core::MutableBitmap;
use read_walk::NestedDecoder;
use std::alloc::Global;
use std::marker::{Model, PhantomData};

/// The plain bytes of a page's values that are left.
#[derive(Debug, Drop)]
pub struct PlainNumbers<'a> {
    pub values: &'a [u8],
}

/// Numbers, and which of them are there. Behind the last slot are places that wait to be written.
#[derive(Debug, Drop)]
pub struct NumberValues<T: Drop> {
    pub(crate) values: Vec<T>,
    pub(crate) validity: MutableBitmap,
}

impl<T: Drop> Model for NumberValues<T> {
    ghost use Rattle.std.specs.Prelude.{List, Bool, length, take, ◌≤◌};

    ghost Value = { List T × List Bool };

    ghost view = { λ d. (take (length d.validity.0) d.values.items, d.validity.0) };

    ghost invariant = { λ d. length d.validity.0 ≤ length d.values.items };
}

impl<T: Drop> NumberValues<T> {
    /// No number.
    pub fn new(alloc: Global) -> Self
        ensures values { result.0 ≡ [] }
        ensures validity { result.1 ≡ [] }
    {
        NumberValues {
            values: Vec::new(alloc),
            validity: MutableBitmap::new(alloc),
        }
    }

    /// How many slots there are.
    pub fn len(&self) -> usize
        ensures { result ≡ list_length self.now.1 }
    {
        self.validity.len()
    }

    /// The numbers, those in the place of nulls too, and which are there: what an array of numbers is made of.
    pub fn into_parts(self) -> (Vec<T>, MutableBitmap)
        ensures values { result.0.items ≡ self.0 }
        ensures validity { result.1.0 ≡ self.1 }
        ensures even { list_length self.0 ≡ list_length self.1 }
    {
        let NumberValues {
            mut values,
            validity,
        } = self;
        values.truncate(validity.len());
        (values, validity)
    }
}

// How many places are made at once.
const BLOCK: usize = 256;

// From how many numbers on blocks of 4 KiB are read to a vector of their own first.
const LONG: usize = 8192;

/// Decodes plain numbers of `P` as numbers of `T`.
#[derive(Drop)]
pub struct PrimitiveDecoder<T, P> {
    number: PhantomData<T>,
    stored: PhantomData<P>,
}

impl<T, P> PrimitiveDecoder<T, P> {
    pub fn new() -> Self {
        PrimitiveDecoder {
            number: PhantomData,
            stored: PhantomData,
        }
    }
}

// The next number as one of the leaf, where it is one.
fn load<T: FromStored<P>, P: StoredNumber>(bytes: &[u8]) -> Option<T>
    requires { P.byte_count ≤ list_length bytes.now }
    ensures { MatchOption result (T.loaded (P.spelled (take P.byte_count bytes.now)) ≡ None)
        (λ x. T.loaded (P.spelled (take P.byte_count bytes.now)) ≡ Some (T.loaded_number x)) }
{
    T::from_stored(P::read(&bytes[..P::width()]))
}

// As many equal numbers more.
pub(crate) fn push_copies<T: Copy>(values: &mut Vec<T>, number: T, count: usize) -> Result<()>
    ensures ok { OnOk result (values.new.items ≡ values.old.items ++ replicate count number) }
    ensures kept { list_length values.old.items ≤ list_length values.new.items }
    ensures err { IfErr result (λ e. e ≡ Error.Memory) }
{
    if count == 1 {
        values.push(number)?;
        return Ok(());
    }
    let Some(size) = values.len().checked_add(count) else {
        return Err(Error::Memory);
    };
    values.resize(size, number)?;
    Ok(())
}

// Writes as many numbers to the places.
#[inline(always)]
fn put_numbers<T: Copy>(places: &mut [T], numbers: &[T])
    requires { list_length places.old ≡ list_length numbers.now }
    ensures { places.new ≡ numbers.now }
{
    for i in 0..numbers.len() {
        places[i] = numbers[i];
    }
}

// Writes the next numbers to N places; no where one of them is none of the leaf. All are read before the first is written, so that they move together.
#[inline(always)]
fn copy_block<T: FromStored<P>, P: StoredNumber, const N: usize>(
    places: &mut [T],
    source: &[u8],
) -> bool
    requires places { list_length places.old ≡ N }
    requires enough { P.byte_count * N ≤ list_length source.now }
    ensures { IsTrue result → TookNumbers T.loaded P.spelled P.byte_count N source.now
        (drop (P.byte_count * N) source.now) [] (map T.loaded_number places.new) }
{
    let mut numbers = [T::zero(); N];
    for i in 0..N {
        match load::<T, P>(skip(source, P::width() * i)) {
            Some(number) => numbers[i] = number,
            None => return false,
        }
    }
    put_numbers(places, &numbers);
    true
}

// Writes the next numbers to the places by blocks of 32; how many these are, all but the last few, unless one of the next is none of the leaf.
fn fill_blocks<T: FromStored<P>, P: StoredNumber>(places: &mut [T], bytes: &[u8]) -> usize
    requires enough { P.byte_count * list_length places.old ≤ list_length bytes.now }
    ensures within { result ≤ list_length places.new }
    ensures took { TookNumbers T.loaded P.spelled P.byte_count result bytes.now
        (drop (P.byte_count * result) bytes.now) [] (map T.loaded_number (take result places.new)) }
{
    let mut done = 0;
    while done + 32 <= places.len() {
        let part = &mut places[done..done + 32];
        if !copy_block::<T, P, 32>(part, skip(bytes, P::width() * done)) {
            break;
        }
        done += 32;
    }
    done
}

// Writes the next numbers to the places, one to each, and gives the bytes behind them; none where one of them is none of the leaf.
fn fill_singly<'a, T: FromStored<P>, P: StoredNumber>(
    places: &mut [T],
    bytes: &'a [u8],
) -> Option<&'a [u8]>
    requires enough { P.byte_count * list_length places.old ≤ list_length bytes.now }
    ensures { MatchOption result (OneIsOutside T.loaded P.spelled P.byte_count (list_length places.old) bytes.now)
        (λ rest. TookNumbers T.loaded P.spelled P.byte_count (list_length places.old) bytes.now rest.now []
        (map T.loaded_number places.new)) }
{
    let mut rest = bytes;
    for place in places.iter_mut() {
        match load::<T, P>(rest) {
            Some(number) => *place = number,
            None => return None,
        }
        rest = skip(rest, P::width());
    }
    Some(rest)
}

// The same, by blocks first.
fn fill_numbers<'a, T: FromStored<P>, P: StoredNumber>(
    places: &mut [T],
    bytes: &'a [u8],
) -> Option<&'a [u8]>
    requires enough { P.byte_count * list_length places.old ≤ list_length bytes.now }
    ensures { MatchOption result (OneIsOutside T.loaded P.spelled P.byte_count (list_length places.old) bytes.now)
        (λ rest. TookNumbers T.loaded P.spelled P.byte_count (list_length places.old) bytes.now rest.now []
        (map T.loaded_number places.new)) }
{
    let done = fill_blocks::<T, P>(places, bytes);
    let part = &mut places[done..];
    match fill_singly::<T, P>(part, skip(bytes, P::width() * done)) {
        Some(rest) => Some(rest),
        None => None,
    }
}

// Places for so many numbers behind the first ones, and for more where room is made for them, up to a block.
#[inline(never)]
fn add_places<T: Copy>(
    values: &mut Vec<T>,
    before: usize,
    count: usize,
    left: usize,
    blank: T,
) -> Result<()>
    requires some { before ≤ list_length values.old.items }
    requires few { list_length values.old.items < before + count }
    ensures ok { OnOk result (before + count ≤ list_length values.new.items) }
    ensures same { take before values.new.items ≡ take before values.old.items }
    ensures kept { before ≤ list_length values.new.items }
    ensures err { IfErr result (λ e. e ≡ Error.Memory) }
{
    want_room(values, count, left)?;
    let Some(end) = before.checked_add(count) else {
        return Err(Error::Memory);
    };
    let more = before.saturating_add(BLOCK).min(values.capacity());
    values.resize(end.max(more), blank)?;
    Ok(())
}

// The same, where they are not there.
#[inline(always)]
fn make_places<T: Copy>(
    values: &mut Vec<T>,
    before: usize,
    count: usize,
    left: usize,
    blank: T,
) -> Result<()>
    requires some { before ≤ list_length values.old.items }
    ensures ok { OnOk result (before + count ≤ list_length values.new.items) }
    ensures same { take before values.new.items ≡ take before values.old.items }
    ensures kept { before ≤ list_length values.new.items }
    ensures err { IfErr result (λ e. e ≡ Error.Memory) }
{
    if count <= values.len() - before {
        return Ok(());
    }
    add_places(values, before, count, left, blank)
}

// Writes the next `count` numbers behind the first ones, and gives the bytes behind them.
fn write_block<'a, T: FromStored<P>, P: StoredNumber>(
    values: &mut Vec<T>,
    before: usize,
    bytes: &'a [u8],
    count: usize,
) -> Result<&'a [u8]>
    requires some { before ≤ list_length values.old.items }
    requires enough { P.byte_count * count ≤ list_length bytes.now }
    ensures ok { IfOk result (λ rest. TookNumbers T.loaded P.spelled P.byte_count count bytes.now rest.now
        (map T.loaded_number (take before values.old.items))
        (map T.loaded_number (take (before + count) values.new.items))) }
    ensures long { OnOk result (before + count ≤ list_length values.new.items) }
    ensures kept { before ≤ list_length values.new.items }
    ensures err { IfErr result (λ e. (e ≡ Error.Memory) ⊎ ((e ≡ Error.OutOfSpec S.S7)
        × OneIsOutside T.loaded P.spelled P.byte_count count bytes.now)) }
{
    make_places(values, before, count, bytes.len() / P::width(), T::zero())?;
    match fill_numbers::<T, P>(&mut values[before..before + count], bytes) {
        Some(rest) => Ok(rest),
        None => Err(Error::OutOfSpec(S::S7)),
    }
}

// Appends the next numbers by blocks of N, all but the last few, unless one of the next is none of the leaf; how many these are. A block is read to
// a vector of its own first, so that no places need to be made in which nothing stands yet.
fn append_blocks<T: FromStored<P>, P: StoredNumber, const N: usize>(
    values: &mut Vec<T>,
    bytes: &[u8],
    count: usize,
) -> Result<usize>
    requires some { 0 < N }
    requires enough { P.byte_count * count ≤ list_length bytes.now }
    ensures ok { IfOk result (λ n. (n ≤ count) × TookNumbers T.loaded P.spelled P.byte_count n bytes.now
        (drop (P.byte_count * n) bytes.now) (map T.loaded_number values.old.items)
        (map T.loaded_number values.new.items)) }
    ensures kept { list_length values.old.items ≤ list_length values.new.items }
    ensures err { IfErr result (λ e. e ≡ Error.Memory) }
{
    let alloc = *values.allocator();
    let mut block = Vec::new(alloc);
    block.resize(N / 2, T::zero())?;
    block.resize(N, T::zero())?;
    let mut done = 0;
    while N <= count - done {
        if !copy_block::<T, P, N>(&mut block, skip(bytes, P::width() * done)) {
            break;
        }
        values.extend_from_slice(&block)?;
        done += N;
    }
    Ok(done)
}

// Writes the first of many numbers behind the first ones, and nothing behind them; how many these are.
fn write_front<T: FromStored<P>, P: StoredNumber>(
    values: &mut Vec<T>,
    before: usize,
    bytes: &[u8],
    count: usize,
) -> Result<usize>
    requires some { before ≤ list_length values.old.items }
    requires enough { P.byte_count * count ≤ list_length bytes.now }
    ensures ok { IfOk result (λ n. (n ≤ count) × TookNumbers T.loaded P.spelled P.byte_count n bytes.now
        (drop (P.byte_count * n) bytes.now) (map T.loaded_number (take before values.old.items))
        (map T.loaded_number (take (before + n) values.new.items)) × (before + n ≤ list_length values.new.items)) }
    ensures kept { before ≤ list_length values.new.items }
    ensures err { IfErr result (λ e. e ≡ Error.Memory) }
{
    if count < LONG {
        return Ok(0);
    }
    values.truncate(before);
    if P::width() == 4 {
        append_blocks::<T, P, 1024>(values, bytes, count)
    } else {
        append_blocks::<T, P, 512>(values, bytes, count)
    }
}

// The same block by block, each small enough that it is still at hand when it is written.
fn write_numbers<'a, T: FromStored<P>, P: StoredNumber>(
    values: &mut Vec<T>,
    before: usize,
    bytes: &'a [u8],
    count: usize,
) -> Result<&'a [u8]>
    requires some { before ≤ list_length values.old.items }
    requires enough { P.byte_count * count ≤ list_length bytes.now }
    ensures ok { IfOk result (λ rest. TookNumbers T.loaded P.spelled P.byte_count count bytes.now rest.now
        (map T.loaded_number (take before values.old.items))
        (map T.loaded_number (take (before + count) values.new.items))) }
    ensures long { OnOk result (before + count ≤ list_length values.new.items) }
    ensures kept { before ≤ list_length values.new.items }
    ensures err { IfErr result (λ e. (e ≡ Error.Memory) ⊎ ((e ≡ Error.OutOfSpec S.S7)
        × OneIsOutside T.loaded P.spelled P.byte_count count bytes.now)) }
{
    want_room(values, count, bytes.len() / P::width())?;
    let mut done = write_front::<T, P>(values, before, bytes, count)?;
    let mut rest = skip(bytes, P::width() * done);
    while done < count {
        let some = (count - done).min(BLOCK);
        match write_block::<T, P>(values, before + done, rest, some) {
            Ok(behind) => rest = behind,
            Err(error) => return Err(error),
        }
        done += some;
    }
    Ok(rest)
}

// Writes the next numbers to the places of which the bits are set, the lowest first, and gives the bytes behind them; none where one of them is
// none of the leaf. It goes from one set bit to the next, so that no branch depends on which are set.
fn fill_each<'a, T: FromStored<P>, P: StoredNumber>(
    places: &mut [T],
    bytes: &'a [u8],
    valid: u64,
) -> Option<&'a [u8]>
    requires enough { P.byte_count * ones (word_bits valid (list_length places.old)) ≤ list_length bytes.now }
    ensures { MatchOption result (OneIsOutside T.loaded P.spelled P.byte_count
        (ones (word_bits valid (list_length places.old))) bytes.now)
        (λ rest. TookMixed T.loaded P.spelled P.byte_count
        (word_bits valid (list_length places.old)) bytes.now rest.now [] (map T.loaded_number places.new)) }
{
    let mut rest = bytes;
    let mut bits = valid;
    while bits != 0 {
        let at = bits.trailing_zeros() as usize;
        if places.len() <= at {
            return Some(rest);
        }
        match load::<T, P>(rest) {
            Some(number) => places[at] = number,
            None => return None,
        }
        rest = skip(rest, P::width());
        bits = bits & (bits - 1);
    }
    Some(rest)
}

// Eight slots: each takes the number that is next where its bit is set, and what stands there is right or of no account, so that no branch and
// no step before it decides where a slot's number stands.
#[inline(always)]
fn spread_eight<T: FromStored<P>, P: StoredNumber>(
    places: &mut [T],
    source: &[u8],
    word: u64,
) -> bool
    requires eight { list_length places.old ≡ 8 }
    requires enough { P.byte_count * 8 ≤ list_length source.now }
    ensures { IsTrue result → TookMixed T.loaded P.spelled P.byte_count (word_bits word 8) source.now
        (drop (P.byte_count * ones (word_bits word 8)) source.now) [] (map T.loaded_number places.new) }
{
    for i in 0..8 {
        let at = count_set(word, i);
        match load::<T, P>(skip(source, P::width() * at)) {
            Some(number) => places[i] = number,
            None => return false,
        }
    }
    true
}

// The same by pairs, of bytes that begin with the number before the next one: the number of a pair's second slot stands behind as many as bits
// are set below it, and that of the first slot, where it is there, right before that.
#[inline(always)]
fn spread_pairs<T: FromStored<P>, P: StoredNumber>(
    places: &mut [T],
    source: &[u8],
    word: u64,
) -> bool
    requires eight { list_length places.old ≡ 8 }
    requires enough { P.byte_count * 9 ≤ list_length source.now }
    ensures { IsTrue result → TookMixed T.loaded P.spelled P.byte_count (word_bits word 8)
        (drop P.byte_count source.now) (drop (P.byte_count * ones (word_bits word 8))
        (drop P.byte_count source.now)) [] (map T.loaded_number places.new) }
{
    for k in 0..4 {
        let at = count_set(word, 2 * k + 1);
        let pair = skip(source, P::width() * at);
        let Some(first) = load::<T, P>(pair) else {
            return false;
        };
        let Some(second) = load::<T, P>(skip(pair, P::width())) else {
            return false;
        };
        places[2 * k] = first;
        places[2 * k + 1] = second;
    }
    true
}

// Eight slots, by the low bits of a word and the numbers from a place on; no where one of the next eight numbers is none of the leaf.
#[inline(always)]
fn fill_eight<T: FromStored<P>, P: StoredNumber>(
    places: &mut [T],
    bytes: &[u8],
    at: usize,
    word: u64,
) -> bool
    requires eight { list_length places.old ≡ 8 }
    requires enough { P.byte_count * (at + 8) ≤ list_length bytes.now }
    ensures { IsTrue result → TookMixed T.loaded P.spelled P.byte_count (word_bits word 8)
        (drop (P.byte_count * at) bytes.now) (drop (P.byte_count * (at + ones (word_bits word 8))) bytes.now) []
        (map T.loaded_number places.new) }
{
    if word % 256 == 255 {
        return copy_block::<T, P, 8>(places, skip(bytes, P::width() * at));
    }
    if at == 0 {
        return spread_eight::<T, P>(places, bytes, word);
    }
    spread_pairs::<T, P>(places, skip(bytes, P::width() * (at - 1)), word)
}

// Slots by eights, as many as there are; how many these are, the bits of the others, and the bytes behind.
fn fill_fronts<'a, T: FromStored<P>, P: StoredNumber>(
    places: &mut [T],
    bytes: &'a [u8],
    valid: u64,
) -> (usize, u64, &'a [u8])
    ensures within { result.0 ≤ list_length places.new }
    ensures word { result.1 ≡ valid / 2 ^ result.0 }
    ensures took { TookMixed T.loaded P.spelled P.byte_count (word_bits valid result.0) bytes.now result.2.now []
        (map T.loaded_number (take result.0 places.new)) }
{
    let mut word = valid;
    let mut eights = 0;
    let mut at = 0;
    if bytes.len() / P::width() < places.len() {
        return (0, valid, bytes);
    }
    while eights < places.len() / 8 {
        let part = &mut places[8 * eights..8 * eights + 8];
        if !fill_eight::<T, P>(part, bytes, at, word) {
            break;
        }
        at += count_set(word, 8);
        word = bits_behind(word, 8);
        eights += 1;
    }
    (8 * eights, word, skip(bytes, P::width() * at))
}

// The same, by eights and by runs first.
fn fill_mixed<'a, T: FromStored<P>, P: StoredNumber>(
    places: &mut [T],
    bytes: &'a [u8],
    valid: u64,
) -> Option<&'a [u8]>
    requires enough { P.byte_count * ones (word_bits valid (list_length places.old)) ≤ list_length bytes.now }
    ensures { MatchOption result (OneIsOutside T.loaded P.spelled P.byte_count
        (ones (word_bits valid (list_length places.old))) bytes.now)
        (λ rest. TookMixed T.loaded P.spelled P.byte_count
        (word_bits valid (list_length places.old)) bytes.now rest.now [] (map T.loaded_number places.new)) }
{
    let (done, word, rest) = fill_fronts::<T, P>(places, bytes, valid);
    let part = &mut places[done..];
    match fill_each::<T, P>(part, rest, word) {
        Some(behind) => Some(behind),
        None => None,
    }
}

// Writes a slot for each of the low bits behind the first ones: the next number where it is set. Gives the bytes behind the numbers.
fn write_mixed<'a, T: FromStored<P>, P: StoredNumber>(
    values: &mut Vec<T>,
    before: usize,
    bytes: &'a [u8],
    valid: u64,
    count: usize,
) -> Result<&'a [u8]>
    requires some { before ≤ list_length values.old.items }
    requires enough { P.byte_count * ones (word_bits valid count) ≤ list_length bytes.now }
    ensures ok { IfOk result (λ rest. TookMixed T.loaded P.spelled P.byte_count
        (word_bits valid count) bytes.now rest.now (map T.loaded_number (take before values.old.items))
        (map T.loaded_number (take (before + count) values.new.items))) }
    ensures long { OnOk result (before + count ≤ list_length values.new.items) }
    ensures kept { before ≤ list_length values.new.items }
    ensures err { IfErr result (λ e. (e ≡ Error.Memory) ⊎ ((e ≡ Error.OutOfSpec S.S7)
        × OneIsOutside T.loaded P.spelled P.byte_count (ones (word_bits valid count)) bytes.now)) }
{
    make_places(values, before, count, bytes.len() / P::width(), T::zero())?;
    match fill_mixed::<T, P>(&mut values[before..before + count], bytes, valid) {
        Some(rest) => Ok(rest),
        None => Err(Error::OutOfSpec(S::S7)),
    }
}

// A word of equal bits.
fn equal_bits(bit: bool) -> u64
    ensures { (n : ℕ) → n ≤ 64 → word_bits result n ≡ replicate n bit }
{
    if bit { u64::MAX } else { 0 }
}

// As many equal validities more. A whole word at once costs less from five on.
pub(crate) fn push_validities(
    validity: &mut MutableBitmap,
    is_valid: bool,
    count: usize,
) -> Result<()>
    ensures ok { OnOk result (validity.new.0 ≡ validity.old.0 ++ replicate count is_valid) }
    ensures err { IfErr result (λ e. (e ≡ Error.Memory) × (validity.new.0 ≡ validity.old.0)) }
{
    if count == 1 {
        validity.push(is_valid)
    } else if 4 < count && count <= 64 {
        validity.extend_from_word(equal_bits(is_valid), count)
    } else {
        validity.extend_constant(count, is_valid)
    }
}

// The next numbers among nulls, where both are wanted.
fn decode_mixed<'a, T: FromStored<P>, P: StoredNumber>(
    state: &mut PlainNumbers<'a>,
    decoded: &mut NumberValues<T>,
    valid: u64,
    count: usize,
) -> Result<()>
    requires few { count ≤ 64 }
    requires enough { ones (word_bits valid count) ≤ list_length state.old.values.now / P.byte_count }
    ensures ok { OnOk result (DecodesMixed (word_bits valid count)
        (stored_numbers T.loaded P.spelled P.byte_count state.old.values.now)
        (stored_numbers T.loaded P.spelled P.byte_count state.new.values.now)
        (number_slots (map T.loaded_number decoded.old.0) decoded.old.1)
        (number_slots (map T.loaded_number decoded.new.0) decoded.new.1)) }
    ensures err { IfErr result (CannotDecode 1 (ones (word_bits valid count))
        (stored_numbers T.loaded P.spelled P.byte_count state.old.values.now)
        (number_slots (map T.loaded_number decoded.old.0) decoded.old.1)) }
{
    let before = decoded.validity.len();
    match write_mixed::<T, P>(&mut decoded.values, before, state.values, valid, count) {
        Ok(rest) => state.values = rest,
        Err(error) => return Err(error),
    }
    match decoded.validity.extend_from_word(valid, count) {
        Ok(()) => Ok(()),
        Err(error) => {
            decoded.values.truncate(before);
            Err(error)
        }
    }
}

impl<'a, T: FromStored<P>, P: StoredNumber> NestedDecoder<'a> for PrimitiveDecoder<T, P> {
    ghost use Rattle.std.specs.Prelude.{map};
    ghost use Rattle.read_leaf.specs.Numbers.{number_slots, stored_numbers};

    type State = PlainNumbers<'a>;

    type DecodedState = NumberValues<T>;

    ghost left = { λ d s. stored_numbers T.loaded P.spelled P.byte_count s.values.now };

    ghost slots = { λ d. number_slots (map T.loaded_number d.0) d.1 };

    ghost byte_limit = { 1 };

    fn push_valid(
        &self,
        state: &mut PlainNumbers<'a>,
        decoded: &mut NumberValues<T>,
        count: usize,
    ) -> Result<()>
        ensures ok { OnOk result (Decodes count (stored_numbers T.loaded P.spelled P.byte_count state.old.values.now)
            (stored_numbers T.loaded P.spelled P.byte_count state.new.values.now)
            (number_slots (map T.loaded_number decoded.old.0) decoded.old.1)
            (number_slots (map T.loaded_number decoded.new.0) decoded.new.1)) }
        ensures err { IfErr result (CannotDecode 1 count
            (stored_numbers T.loaded P.spelled P.byte_count state.old.values.now)
            (number_slots (map T.loaded_number decoded.old.0) decoded.old.1)) }
    {
        if state.values.len() / P::width() < count {
            return Err(Error::OutOfSpec(S::S6));
        }
        let before = decoded.validity.len();
        match write_numbers::<T, P>(&mut decoded.values, before, state.values, count) {
            Ok(rest) => state.values = rest,
            Err(error) => return Err(error),
        }
        match push_validities(&mut decoded.validity, true, count) {
            Ok(()) => Ok(()),
            Err(error) => {
                decoded.values.truncate(before);
                Err(error)
            }
        }
    }

    fn push_null(&self, decoded: &mut NumberValues<T>, count: usize) -> Result<()>
        ensures ok { OnOk result (number_slots (map T.loaded_number decoded.new.0) decoded.new.1
            ≡ number_slots (map T.loaded_number decoded.old.0) decoded.old.1 ++ replicate count null) }
        ensures err { IfErr result (λ e. e ≡ Error.Memory) }
    {
        let before = decoded.validity.len();
        match make_places(&mut decoded.values, before, count, 0, T::zero()) {
            Ok(()) => {}
            Err(error) => return Err(error),
        }
        match push_validities(&mut decoded.validity, false, count) {
            Ok(()) => Ok(()),
            Err(error) => {
                decoded.values.truncate(before);
                Err(error)
            }
        }
    }

    fn push_mixed(
        &self,
        state: &mut PlainNumbers<'a>,
        decoded: &mut NumberValues<T>,
        valid: u64,
        count: usize,
    ) -> Result<()>
        requires few { count ≤ 64 }
        ensures ok { OnOk result (DecodesMixed (word_bits valid count)
            (stored_numbers T.loaded P.spelled P.byte_count state.old.values.now)
            (stored_numbers T.loaded P.spelled P.byte_count state.new.values.now)
            (number_slots (map T.loaded_number decoded.old.0) decoded.old.1)
            (number_slots (map T.loaded_number decoded.new.0) decoded.new.1)) }
        ensures err { IfErr result (CannotDecode 1 (ones (word_bits valid count))
            (stored_numbers T.loaded P.spelled P.byte_count state.old.values.now)
            (number_slots (map T.loaded_number decoded.old.0) decoded.old.1)) }
    {
        let wanted = count_set(valid, count);
        if wanted == count {
            return self.push_valid(state, decoded, count);
        }
        if wanted == 0 {
            return self.push_null(decoded, count);
        }
        if state.values.len() / P::width() < wanted {
            return Err(Error::OutOfSpec(S::S6));
        }
        decode_mixed::<T, P>(state, decoded, valid, count)
    }
}
