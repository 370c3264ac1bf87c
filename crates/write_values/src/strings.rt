//! Byte strings, texts among them.
ghost use Rattle.std.specs.Prelude.{◌≡◌, ◌+◌, ◌-◌, ◌*◌, ◌%◌, ◌^◌, ◌<◌, ◌≤◌, ◌++◌, map, length, take, drop, sum_by, slice_index_or, vec_len, bit_xor, [], ◌∷◌, IfSome, OnOk, IfErr};
ghost use Rattle.std.specs.Int.{w64, trailing_zeros};
ghost use Rattle.columns_base.specs.declared.error.Error.TheVariants.{Memory};
ghost use Rattle.shredding.specs.Slot.{bytes};
ghost use Rattle.columns_slots.specs.Slots.{IsPlaces};
ghost use Rattle.columns_slots.specs.Bytes.{pieces_values};
ghost use Rattle.pq_tree.specs.Physical.{byte_array};
ghost use Rattle.pq_files.specs.Layout.{plain_length, plain_size};
ghost use Rattle.pq_files.specs.Room.{max_size};
ghost use Rattle.write_places.specs.Places.{range, picked};
ghost use Rattle.write_values.specs.Numbers.{at_place};
ghost use Rattle.write_values.specs.Rows.{AppendsRow};

use crate::numbers::block_end;
use crate::row::LeafValues;
use crate::truths::low_ones;
use columns_core::{Offset, OffsetsBuffer, Result};
use columns_leaf::{BinaryArray, Utf8Array};
use pq_numbers::push_u32_le;
use write_places::full_word;

// Appends a string behind its length.
fn push_string(out: &mut Vec<u8>, text: &[u8]) -> Result<()>
    requires { length text.now < 2 ^ 32 }
    ensures ok { OnOk result (AppendsRow byte_array out.old.items out.new.items (bytes text.now ∷ [])) }
    ensures err { IfErr result (λ e. e ≡ Memory) }
{
    push_u32_le(out, text.len() as u32)?;
    out.extend_from_slice(text)?;
    Ok(())
}

// The bytes of a string.
#[tactic(auto, using(columns_leaf::proofs::Texts::step_of_places))]
pub fn string_at<'a, O: Offset>(offsets: &OffsetsBuffer<O>, all: &'a [u8], i: usize) -> &'a [u8]
    requires places { IsPlaces offsets.now (length all.now) }
    requires within { i + 1 < length offsets.now }
    ensures is { bytes result.now ≡ at_place (pieces_values offsets.now all.entry.now) i }
    ensures size { length result.now ≡ slice_index_or offsets.now (i + 1) 0 - slice_index_or offsets.now i 0 }
{
    let _strings = offsets.len_proxy();
    let start = offsets.place(i);
    let end = offsets.place(i + 1);
    &all[start..end]
}

// The number of bytes of the plain spelling of some strings.
#[tactic(auto, using(levels::proofs::Rising::rising))]
fn strings_size<O: Offset>(offsets: &OffsetsBuffer<O>, all: &[u8], from: usize, to: usize) -> u128
    requires places { IsPlaces offsets.now (length all.now) }
    requires ordered { from ≤ to }
    requires within { to < length offsets.now }
    ensures { result ≡ plain_length byte_array (map (at_place (pieces_values offsets.now all.now))
        (range from (to - from))) }
{
    offsets.know();
    let span = offsets.place(to) - offsets.place(from);
    (to - from) as u128 * 4 + span as u128
}

// The bytes that a string spans.
#[inline(always)]
#[tactic(auto, using(levels::proofs::Rising::rising))]
fn span_at<O: Offset>(offsets: &OffsetsBuffer<O>, i: usize) -> usize
    requires { i + 1 < length offsets.now }
    ensures { result ≡ slice_index_or offsets.now (i + 1) 0 - slice_index_or offsets.now i 0 }
{
    let _strings = offsets.len_proxy();
    offsets.know();
    offsets.place(i + 1) - offsets.place(i)
}

// The bytes that the strings at picked places span, without their lengths.
fn picked_span<O: Offset>(
    offsets: &OffsetsBuffer<O>,
    all: &[u8],
    from: usize,
    bits: u64,
    count: usize,
) -> usize
    requires places { IsPlaces offsets.now (length all.now) }
    requires few { count ≤ 64 }
    requires low { bits < 2 ^ count }
    requires within { from + count < length offsets.now }
    ensures { result + 4 * length (picked bits from count) ≡ plain_length byte_array
        (map (at_place (pieces_values offsets.now all.now)) (picked bits from count)) }
{
    let _strings = offsets.len_proxy();
    let mut left = bits;
    let mut span = 0;
    while left != 0 {
        span += span_at(offsets, from + left.trailing_zeros() as usize);
        left = without_lowest(left);
    }
    span
}

// The number of bytes of the plain spelling of the strings at picked places: where most are picked, that of all strings without the others.
fn picked_size<O: Offset>(
    offsets: &OffsetsBuffer<O>,
    all: &[u8],
    from: usize,
    bits: u64,
    count: usize,
) -> u128
    requires places { IsPlaces offsets.now (length all.now) }
    requires few { count ≤ 64 }
    requires low { bits < 2 ^ count }
    requires within { from + count < length offsets.now }
    ensures { result ≡ plain_length byte_array (map (at_place (pieces_values offsets.now all.now))
        (picked bits from count)) }
{
    let _strings = offsets.len_proxy();
    let size = bits.count_ones() as usize;
    if 2 * size < count {
        let span = picked_span(offsets, all, from, bits, count);
        return 4 * size as u128 + span as u128;
    }
    let whole = strings_size(offsets, all, from, from + count);
    let unset = picked_span(offsets, all, from, low_ones(count) - bits, count);
    whole - 4 * (count - size) as u128 - unset as u128
}

// Bytes take their place from one place on, and those before it stay.
#[inline(always)]
fn put_bytes(places: &mut [u8], at: usize, text: &[u8])
    requires { at + length text.now ≤ length places.old }
    ensures len { length places.new ≡ length places.old }
    ensures front { take (at + length text.now) places.new ≡ take at places.old ++ text.now }
{
    places[at..at + text.len()].copy_from_slice(text);
}

// A piece of some bytes takes its place from one place on, and what stands before it stays. A short piece is copied with the bytes behind it,
// for which there is room.
#[inline(always)]
fn put_piece(places: &mut [u8], at: usize, all: &[u8], from: usize, to: usize)
    requires ordered { from ≤ to }
    requires within { to ≤ length all.now }
    requires room { at + (to - from) + 32 ≤ length places.old }
    ensures len { length places.new ≡ length places.old }
    ensures front { take (at + (to - from)) places.new ≡ take at places.old ++ take (to - from) (drop from all.now) }
{
    match all[from..].first_chunk::<32>() {
        Some(chunk) if to - from <= 32 => {
            let chunk = *chunk;
            put_bytes(places, at, &chunk);
        }
        _ => put_bytes(places, at, &all[from..to]),
    }
}

// A string takes its place behind its length, and what stands before it stays. Answers the place behind it.
#[inline(always)]
fn put_string(places: &mut [u8], at: usize, all: &[u8], from: usize, to: usize) -> usize
    requires ordered { from ≤ to }
    requires within { to ≤ length all.now }
    requires short { to - from < 2 ^ 32 }
    requires room { at + 4 + (to - from) + 32 ≤ length places.old }
    ensures at { result ≡ at + 4 + (to - from) }
    ensures len { length places.new ≡ length places.old }
    ensures is { AppendsRow byte_array (take at places.old) (take result places.new)
        (bytes (take (to - from) (drop from all.now)) ∷ []) }
{
    let size = to - from;
    put_bytes(places, at, &(size as u32).to_le_bytes());
    put_piece(places, at + 4, all, from, to);
    at + 4 + size
}

// A word without its lowest set bit.
#[inline(always)]
pub fn without_lowest(word: u64) -> u64
    requires { 0 < word }
    ensures { result ≡ bit_xor word (1 * 2 ^ trailing_zeros w64 word % 2 ^ 64) }
{
    word & (word - 1)
}

// The strings at picked places stand one behind the other from the front on, each behind its length, in so many bytes.
fn put_picked<O: Offset>(
    offsets: &OffsetsBuffer<O>,
    all: &[u8],
    places: &mut [u8],
    from: usize,
    bits: u64,
    count: usize,
) -> usize
    requires places { IsPlaces offsets.now (length all.now) }
    requires few { count ≤ 64 }
    requires low { bits < 2 ^ count }
    requires within { from + count < length offsets.now }
    requires small { plain_length byte_array (map (at_place (pieces_values offsets.now all.now))
        (picked bits from count)) ≤ max_size }
    requires room { plain_length byte_array (map (at_place (pieces_values offsets.now all.now))
        (picked bits from count)) + 32 ≤ length places.old }
    ensures len { length places.new ≡ length places.old }
    ensures within { result ≤ length places.new }
    ensures are { AppendsRow byte_array [] (take result places.new)
        (map (at_place (pieces_values offsets.now all.now)) (picked bits from count)) }
{
    let _strings = offsets.len_proxy();
    let mut left = bits;
    let mut at = 0;
    while left != 0 {
        let i = left.trailing_zeros() as usize;
        let start = offsets.place(from + i);
        at = put_string(places, at, all, start, offsets.place(from + i + 1));
        left = without_lowest(left);
    }
    at
}

// Appends the strings at picked places, each behind its length, each by itself.
fn push_each<O: Offset>(
    offsets: &OffsetsBuffer<O>,
    all: &[u8],
    out: &mut Vec<u8>,
    from: usize,
    bits: u64,
    count: usize,
) -> Result<()>
    requires places { IsPlaces offsets.now (length all.now) }
    requires few { count ≤ 64 }
    requires low { bits < 2 ^ count }
    requires within { from + count < length offsets.now }
    requires small { plain_length byte_array (map (at_place (pieces_values offsets.now all.now))
        (picked bits from count)) ≤ max_size }
    ensures ok { OnOk result (AppendsRow byte_array out.old.items out.new.items
        (map (at_place (pieces_values offsets.now all.now)) (picked bits from count))) }
    ensures err { IfErr result (λ e. e ≡ Memory) }
{
    let _strings = offsets.len_proxy();
    let mut left = bits;
    while left != 0 {
        let i = left.trailing_zeros() as usize;
        push_string(out, string_at(offsets, all, from + i))?;
        left ^= 1 << i;
    }
    Ok(())
}

// The room that strings which span so many bytes want, each behind its length, with that of one copy more. None where they are few or long, so that
// each is appended by itself.
fn short_room(few: usize, span: usize) -> Option<usize>
    requires { few ≤ 64 }
    ensures { IfSome result (λ room. room ≡ 4 * few + span + 32) }
{
    if few < 3 || span > 32 * few {
        None
    } else {
        Some(4 * few + span + 32)
    }
}

// Appends the strings at picked places, each behind its length, in so many bytes that are cleared before.
fn push_short<O: Offset>(
    offsets: &OffsetsBuffer<O>,
    all: &[u8],
    out: &mut Vec<u8>,
    room: usize,
    from: usize,
    bits: u64,
    count: usize,
) -> Result<()>
    requires places { IsPlaces offsets.now (length all.now) }
    requires few { count ≤ 64 }
    requires low { bits < 2 ^ count }
    requires within { from + count < length offsets.now }
    requires small { plain_length byte_array (map (at_place (pieces_values offsets.now all.now))
        (picked bits from count)) ≤ max_size }
    requires room { plain_length byte_array (map (at_place (pieces_values offsets.now all.now))
        (picked bits from count)) + 32 ≤ room }
    requires fits { vec_len out.old + room < 2 ^ 64 }
    ensures ok { OnOk result (AppendsRow byte_array out.old.items out.new.items
        (map (at_place (pieces_values offsets.now all.now)) (picked bits from count))) }
    ensures err { IfErr result (λ e. e ≡ Memory) }
{
    let before = out.len();
    out.resize(before + room, 0)?;
    let size = put_picked(offsets, all, &mut out[before..], from, bits, count);
    out.truncate(before + size);
    Ok(())
}

// Appends the strings at picked places, each behind its length: at once where they are short and their room is there.
fn push_picked<O: Offset>(
    offsets: &OffsetsBuffer<O>,
    all: &[u8],
    out: &mut Vec<u8>,
    from: usize,
    bits: u64,
    count: usize,
) -> Result<()>
    requires places { IsPlaces offsets.now (length all.now) }
    requires few { count ≤ 64 }
    requires low { bits < 2 ^ count }
    requires within { from + count < length offsets.now }
    requires small { plain_length byte_array (map (at_place (pieces_values offsets.now all.now))
        (picked bits from count)) ≤ max_size }
    ensures ok { OnOk result (AppendsRow byte_array out.old.items out.new.items
        (map (at_place (pieces_values offsets.now all.now)) (picked bits from count))) }
    ensures err { IfErr result (λ e. e ≡ Memory) }
{
    let _strings = offsets.len_proxy();
    let start = offsets.place(from);
    let end = offsets.place(from + count);
    match short_room(bits.count_ones() as usize, end - start) {
        Some(room) if room <= out.capacity() - out.len() => push_short(
            offsets, all, out, room, from, bits, count,
        ),
        _ => push_each(offsets, all, out, from, bits, count),
    }
}

// Appends strings, each behind its length, in blocks.
fn push_strings<O: Offset>(
    offsets: &OffsetsBuffer<O>,
    all: &[u8],
    out: &mut Vec<u8>,
    from: usize,
    to: usize,
) -> Result<()>
    requires places { IsPlaces offsets.now (length all.now) }
    requires ordered { from ≤ to }
    requires within { to < length offsets.now }
    requires small { plain_length byte_array (map (at_place (pieces_values offsets.now all.now))
        (range from (to - from))) ≤ max_size }
    ensures ok { OnOk result (AppendsRow byte_array out.old.items out.new.items
        (map (at_place (pieces_values offsets.now all.now)) (range from (to - from)))) }
    ensures err { IfErr result (λ e. e ≡ Memory) }
{
    offsets.know();
    let mut at = from;
    while at < to {
        let end = block_end(at, to);
        push_picked(offsets, all, out, at, full_word(end - at), end - at)?;
        at = end;
    }
    Ok(())
}

// The texts of an array.
#[derive(Clone, Copy, Drop)]
pub struct Texts<'a, O: Offset> {
    pub array: &'a Utf8Array<O>,
}

impl<'a, O: Offset> LeafValues for Texts<'a, O> {
    ghost use Rattle.columns_slots.specs.Bytes.{pieces_values};
    ghost use Rattle.columns_slots.specs.Tree.{leaf_array};
    ghost use Rattle.columns_slots.specs.Slots.{tree_len};
    ghost use Rattle.pq_tree.specs.Physical.{byte_array};
    ghost use Rattle.write_values.specs.Numbers.{strings_in_a_row};
    ghost use Rattle.write_values.specs.Stored.{stored_at};

    ghost count = { λ s. tree_len (leaf_array s.array.now.0
        (pieces_values s.array.now.1.0 s.array.now.1.1.0) s.array.now.1.1.1) };

    ghost physical = { λ s. byte_array };

    ghost stored = { λ s. stored_at (leaf_array s.array.now.0
        (pieces_values s.array.now.1.0 s.array.now.1.1.0) s.array.now.1.1.1) byte_array };

    ghost in_a_row = { λ s. strings_in_a_row };

    fn plain_size(&self, from: usize, to: usize) -> u128 {
        self.array.know();
        strings_size(self.array.offsets(), self.array.values(), from, to)
    }

    fn push_plain(&self, out: &mut Vec<u8>, from: usize, to: usize) -> Result<()> {
        self.array.know();
        push_strings(self.array.offsets(), self.array.values(), out, from, to)
    }

    fn some_size(&self, from: usize, bits: u64, places: usize) -> u128 {
        self.array.know();
        picked_size(
            self.array.offsets(),
            self.array.values(),
            from,
            bits,
            places,
        )
    }

    fn push_some(&self, out: &mut Vec<u8>, from: usize, bits: u64, places: usize) -> Result<()> {
        self.array.know();
        push_picked(
            self.array.offsets(),
            self.array.values(),
            out,
            from,
            bits,
            places,
        )
    }
}

// The byte strings of an array.
#[derive(Clone, Copy, Drop)]
pub struct Strings<'a, O: Offset> {
    pub array: &'a BinaryArray<O>,
}

impl<'a, O: Offset> LeafValues for Strings<'a, O> {
    ghost use Rattle.columns_slots.specs.Bytes.{pieces_values};
    ghost use Rattle.columns_slots.specs.Tree.{leaf_array};
    ghost use Rattle.columns_slots.specs.Slots.{tree_len};
    ghost use Rattle.pq_tree.specs.Physical.{byte_array};
    ghost use Rattle.write_values.specs.Numbers.{strings_in_a_row};
    ghost use Rattle.write_values.specs.Stored.{stored_at};

    ghost count = { λ s. tree_len (leaf_array s.array.now.0
        (pieces_values s.array.now.1.0 s.array.now.1.1.0) s.array.now.1.1.1) };

    ghost physical = { λ s. byte_array };

    ghost stored = { λ s. stored_at (leaf_array s.array.now.0
        (pieces_values s.array.now.1.0 s.array.now.1.1.0) s.array.now.1.1.1) byte_array };

    ghost in_a_row = { λ s. strings_in_a_row };

    fn plain_size(&self, from: usize, to: usize) -> u128 {
        self.array.know();
        strings_size(self.array.offsets(), self.array.values(), from, to)
    }

    fn push_plain(&self, out: &mut Vec<u8>, from: usize, to: usize) -> Result<()> {
        self.array.know();
        push_strings(self.array.offsets(), self.array.values(), out, from, to)
    }

    fn some_size(&self, from: usize, bits: u64, places: usize) -> u128 {
        self.array.know();
        picked_size(
            self.array.offsets(),
            self.array.values(),
            from,
            bits,
            places,
        )
    }

    fn push_some(&self, out: &mut Vec<u8>, from: usize, bits: u64, places: usize) -> Result<()> {
        self.array.know();
        push_picked(
            self.array.offsets(),
            self.array.values(),
            out,
            from,
            bits,
            places,
        )
    }
}
