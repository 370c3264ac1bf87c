//! Truth values, which are spelled as bits (Parquet format, Encodings, "Plain").
ghost use Rattle.std.specs.Prelude.{◌≡◌, ◌+◌, ◌-◌, ◌*◌, ◌/◌, ◌%◌, ◌<◌, ◌≤◌, ◌^◌, ◌==◌, ◌++◌, count_ones, map, min, length, vec_len, OnOk, IfOk, IfErr};
ghost use Rattle.std.specs.Int.{bit_at};
ghost use Rattle.columns_base.specs.declared.error.Error.TheVariants.{Memory};
ghost use Rattle.columns_core.specs.Bits.{bits_from, word_bits};
ghost use Rattle.columns_slots.specs.Slots.{tree_len};
ghost use Rattle.columns_slots.specs.Tree.{leaf_array};
ghost use Rattle.levels.specs.Nested.{parts_of};
ghost use Rattle.levels.specs.Ranges.{leaf_count_or};
ghost use Rattle.pq_tree.specs.Physical.{boolean};
ghost use Rattle.shredding.specs.Parts.{IsPath};
ghost use Rattle.shredding.specs.Slot.{truth};
ghost use Rattle.write_places.specs.Places.{path_places, picked, range};
ghost use Rattle.write_values.specs.Rows.{AppendsPlain, Measures};
ghost use Rattle.write_values.specs.Stored.{stored_at};
ghost use Rattle.write_values.specs.Truths.{AddsBits, CountsBits, truth_at};

use crate::measured::Measured;
use columns_core::{Bitmap, MutableBitmap, Result};
use columns_leaf::BooleanArray;
use levels::Nested;
use std::alloc::Global;
use write_places::{Taker, take_places};

// How many bits were counted: all, up to the largest number, the whole bytes that they fill, and those behind the last whole byte.
#[derive(Clone, Copy, Drop)]
pub struct BitCount {
    pub all: usize,
    pub bytes: u128,
    pub behind: usize,
}

impl BitCount {
    // So many bits more.
    fn plus(self, count: usize) -> BitCount
        requires { self.behind < 8 }
        ensures { AddsBits count self result }
    {
        let bits = self.behind as u128 + count as u128;
        BitCount {
            all: self.all.saturating_add(count),
            bytes: self.bytes.saturating_add(bits / 8),
            behind: (bits % 8) as usize,
        }
    }

    // As many values, and the bytes that hold them.
    fn measured(self) -> Measured
        requires { self.behind < 8 }
        ensures values { result.values ≡ self.all }
        ensures plain { result.plain ≡ min (self.bytes + (self.behind + 7) / 8) (2 ^ 128 - 1) }
    {
        Measured {
            values: self.all,
            plain: self.bytes.saturating_add((self.behind as u128 + 7) / 8),
        }
    }
}

// Counts the truth values that it takes, of so many.
#[derive(Drop)]
struct CountsTruths {
    places: usize,
    count: BitCount,
}

impl Taker for CountsTruths {
    ghost use Rattle.std.specs.Prelude.{◌≡◌, ◌<◌, ℕ, List, refl};
    ghost use Rattle.write_values.specs.Truths.{CountsBits, counts-none};

    ghost limit = { λ s. s.places };

    ghost has = { λ a b taken. (b.places ≡ a.places) × CountsBits a.places taken a.count b.count };

    ghost sound = { λ s. s.count.behind < 8 };

    ghost accepts = { λ s taken. Unit {0} };

    ghost refuses = { λ s e. ⊥ };

    ghost none = { λ s. (refl, counts-none s.places s.count) };

    ghost front = { λ s xs ys h. tt };

    ghost back = { λ s xs ys h. tt };

    fn take(&mut self, from: usize, to: usize) -> Result<()> {
        self.count = self.count.plus(to - from);
        Ok(())
    }

    fn take_some(&mut self, from: usize, bits: u64, count: usize) -> Result<()> {
        self.count = self.count.plus(bits.count_ones() as usize);
        Ok(())
    }
}

// The number of the truth values that a path reaches and that of the bytes of their plain spelling. It takes no memory.
pub fn measure_truths(array: &BooleanArray, nested: &[Nested]) -> Measured
    requires well { IsPath (parts_of nested.now) }
    requires leaf { leaf_count_or 0 (parts_of nested.now) ≤ length array.now.1.0 }
    ensures { Measures boolean (tree_len (leaf_array array.now.0 (map truth array.now.1.0) array.now.1.1))
        (stored_at (leaf_array array.now.0 (map truth array.now.1.0) array.now.1.1) boolean)
        (path_places (parts_of nested.now)) result }
{
    let mut counting = CountsTruths {
        places: array.len(),
        count: BitCount {
            all: 0,
            bytes: 0,
            behind: 0,
        },
    };
    match take_places(&mut counting, nested) {
        Ok(()) => counting.count.measured(),
        Err(_) => unreachable!(),
    }
}

// Of the low bits of a word those whose bits in the other word are set, side by side from the lowest bit on: one after another.
fn pick_each(values: u64, bits: u64, count: usize) -> (u64, usize)
    requires few { count ≤ 64 }
    requires low { bits < 2 ^ count }
    ensures few { result.1 ≤ 64 }
    ensures are { word_bits result.0 result.1 ≡ map (λ i. bit_at values i == 1) (picked bits 0 count) }
{
    let mut left = bits;
    let mut word = 0;
    let mut size = 0;
    while left != 0 {
        let i = left.trailing_zeros();
        word += ((values >> i) % 2) << size;
        size += 1;
        left ^= 1 << i;
    }
    (word, size)
}

// So many set bits, from the lowest on.
pub fn low_ones(count: usize) -> u64
    requires { count ≤ 64 }
    ensures { result ≡ 2 ^ count - 1 }
{
    if count == 64 {
        u64::MAX
    } else {
        (1 << count) - 1
    }
}

// The place of the highest set bit.
#[inline(always)]
fn highest(word: u64) -> u32
    requires { 0 < word }
    ensures few { result < 64 }
    ensures least { 2 ^ result ≤ word }
    ensures most { word < 2 ^ (result + 1) }
{
    63 - word.leading_zeros()
}

// What is above a place of a word, from that place on.
#[inline(always)]
fn from_above(word: u64, at: u32) -> u64
    requires { at < 64 }
    ensures { result ≡ word / 2 ^ at / 2 * 2 ^ at }
{
    ((word >> at) >> 1) << at
}

// The same bits: from the highest place that is not among them on, what is above it goes one place down.
fn close_gaps(values: u64, bits: u64, count: usize) -> u64
    requires few { count ≤ 64 }
    requires low { bits < 2 ^ count }
    ensures { word_bits result (count_ones bits) ≡ map (λ i. bit_at values i == 1) (picked bits 0 count) }
{
    let mut gaps = low_ones(count) - bits;
    let mut word = values & bits;
    while gaps != 0 {
        let at = highest(gaps);
        word -= from_above(word, at);
        gaps -= 1 << at;
    }
    word
}

// The same bits, by way of what is fewer, and how many they are.
fn pick_bits(values: u64, bits: u64, count: usize) -> (u64, usize)
    requires few { count ≤ 64 }
    requires low { bits < 2 ^ count }
    ensures few { result.1 ≤ 64 }
    ensures are { word_bits result.0 result.1 ≡ map (λ i. bit_at values i == 1) (picked bits 0 count) }
{
    let size = bits.count_ones() as usize;
    if 2 * size < count {
        return pick_each(values, bits, count);
    }
    (close_gaps(values, bits, count), size)
}

// Appends at most 64 truth values from a place on, where there is room.
#[inline(always)]
fn append_word(values: &Bitmap, from: usize, count: usize, out: &mut MutableBitmap)
    requires few { count ≤ 64 }
    requires within { from + count ≤ length values.now }
    requires room { count ≤ out.old.1 }
    ensures same { out.new.0 ≡ out.old.0 ++ map (truth_at values.now) (range from count) }
    ensures room { out.old.1 ≤ out.new.1 + count }
{
    let word = values.word_at(from, count);
    out.extend_from_word(word, count).unwrap();
}

// Appends truth values from a place on, 64 at once, where there is room.
fn append_words(values: &Bitmap, from: usize, count: usize, out: &mut MutableBitmap)
    requires within { from + count ≤ length values.now }
    requires counted { from + count < 2 ^ 64 }
    requires room { count ≤ out.old.1 }
    ensures { out.new.0 ≡ out.old.0 ++ map (truth_at values.now) (range from count) }
{
    let mut done = 0;
    while done < count {
        let size = (count - done).min(64);
        append_word(values, from + done, size, out);
        done += size;
    }
}

// Appends the truth values that it takes.
#[derive(Drop)]
struct PlainTruths<'a> {
    values: &'a Bitmap,
    out: MutableBitmap,
}

impl<'a> Taker for PlainTruths<'a> {
    ghost use Rattle.std.specs.Prelude.{◌≡◌, ◌++◌, ℕ, List, map, length, refl};
    ghost use Rattle.std.proofs.Common.{sym, append-nil};
    ghost use Rattle.columns_base.specs.declared.error.Error.TheVariants.{Memory};
    ghost use Rattle.write_values.specs.Truths.{truth_at};

    ghost limit = { λ s. length s.values.now };

    ghost has = { λ a b taken. (b.values.now ≡ a.values.now) × (b.out.0
        ≡ a.out.0 ++ map (truth_at a.values.now) taken) };

    ghost sound = { λ s. Unit {0} };

    ghost accepts = { λ s taken. Unit {0} };

    ghost refuses = { λ s e. e ≡ Memory };

    ghost none = { λ s. (refl, sym (append-nil s.out.0)) };

    ghost front = { λ s xs ys h. tt };

    ghost back = { λ s xs ys h. tt };

    fn take(&mut self, from: usize, to: usize) -> Result<()> {
        self.out.reserve(to - from)?;
        append_words(self.values, from, to - from, &mut self.out);
        Ok(())
    }

    fn take_some(&mut self, from: usize, bits: u64, count: usize) -> Result<()> {
        let values = self.values.word_at(from, count);
        let (word, size) = pick_bits(values, bits, count);
        self.out.extend_from_word(word, size)?;
        Ok(())
    }
}

// Appends bytes of bits, with no byte behind the last of them.
fn push_bytes(bytes: &[u8], count: usize, mut out: Vec<u8>) -> Result<Vec<u8>>
    requires enough { count ≤ 8 * length bytes.now }
    requires least { 8 * length bytes.now < count + 8 }
    ensures ok { IfOk result (λ body. AppendsPlain boolean out.items body.items
        (map truth (bits_from bytes.now 0 count))) }
    ensures err { IfErr result (λ e. e ≡ Memory) }
{
    out.extend_from_slice(bytes)?;
    Ok(out)
}

// Appends the plain spelling of the truth values that a path reaches.
pub fn push_truths(
    alloc: Global,
    array: &BooleanArray,
    nested: &[Nested],
    out: Vec<u8>,
) -> Result<Vec<u8>>
    requires well { IsPath (parts_of nested.now) }
    requires leaf { leaf_count_or 0 (parts_of nested.now) ≤ length array.now.1.0 }
    ensures ok { IfOk result (λ body. AppendsPlain boolean out.items body.items
        (map (stored_at (leaf_array array.now.0 (map truth array.now.1.0) array.now.1.1) boolean)
        (path_places (parts_of nested.now)))) }
    ensures err { IfErr result (λ e. e ≡ Memory) }
{
    let mut truths = PlainTruths {
        values: array.values(),
        out: MutableBitmap::new(alloc),
    };
    take_places(&mut truths, nested)?;
    push_bytes(truths.out.as_slice(), truths.out.len(), out)
}
