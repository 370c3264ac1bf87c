//! Numbers that wait to be packed.

ghost use Rattle.std.specs.Prelude.{◌≡◌, ◌<◌, ◌≤◌, ◌+◌, ◌*◌, ◌/◌, ◌%◌, ◌^◌, ◌++◌, ℕ, List, [], ◌∷◌, length, replicate, OnOk, All};
ghost use Rattle.pq_numbers.specs.Varint.{varint};
ghost use Rattle.pq_runs.specs.Packing.{ArePacked};
ghost use Rattle.pq_runs.specs.Writing.{Extends};
ghost use Rattle.pq_runs.specs.Words.{bit_numbers};

use crate::bit_block::BitBlock;
use crate::narrow::{NarrowNumbers, are_narrow};
use crate::numbers::Numbers;
use crate::runs::{push_bit_groups, push_groups, push_narrow_groups};
use crate::settle::{front, narrow_front};
use crate::words::{copies_of, narrow_numbers_of, numbers_of};
use std::alloc::AllocError;
use std::marker::Model;

/// At most 63 groups of eight, so that the header of their run takes one byte. Those of a writer of one bit are packed as they come, and those of at most eight bits are bytes.
#[derive(Drop)]
pub struct Block {
    store: Store,
}

/// How a block keeps its numbers.
#[derive(Drop)]
pub enum Store {
    /// Each is 0 or 1.
    Bits(BitBlock),
    /// Each is below 256.
    Narrow(NarrowNumbers),
    /// As they are.
    Others(Numbers),
}

impl Model for Block {
    ghost use Rattle.std.specs.Prelude.{List, ℕ};
    ghost use Rattle.pq_runs.specs.Stored.{stored};

    ghost Value = { List ℕ };

    ghost view = { λ b. stored b.store };
}

impl Block {
    // A block for numbers of so many bits.
    pub fn new(width: u32) -> Self
        ensures { result ≡ [] }
    {
        if width == 1 {
            Block {
                store: Store::Bits(BitBlock::new()),
            }
        } else if width <= 8 {
            Block {
                store: Store::Narrow(NarrowNumbers::new()),
            }
        } else {
            Block {
                store: Store::Others(Numbers::new()),
            }
        }
    }

    pub fn len(&self) -> usize
        ensures value { result ≡ length self.now }
        ensures most { result ≤ 504 }
    {
        match &self.store {
            Store::Bits(bits) => bits.len(),
            Store::Narrow(numbers) => numbers.len(),
            Store::Others(numbers) => numbers.len(),
        }
    }

    // Appends so many copies of a number.
    #[inline(always)]
    pub fn push_few(&mut self, number: u32, count: usize)
        requires few { count ≤ 8 }
        requires room { length self.old + count ≤ 504 }
        ensures { self.new ≡ self.old ++ replicate count number }
    {
        match &mut self.store {
            Store::Narrow(narrow) => {
                if number < 256 {
                    narrow.push_few(number as u8, count);
                    return;
                }
            }
            Store::Bits(bits) => {
                if number < 2 {
                    bits.add(copies_of(number, count), count as u32);
                    return;
                }
            }
            Store::Others(numbers) => {
                numbers.push_few(number, count);
                return;
            }
        }
        self.push_few_wide(number, count);
    }

    // The same where they do not fit the others, which are kept as they are from now on.
    #[cold]
    #[inline(never)]
    fn push_few_wide(&mut self, number: u32, count: usize)
        requires few { count ≤ 8 }
        requires room { length self.old + count ≤ 504 }
        ensures { self.new ≡ self.old ++ replicate count number }
    {
        match &mut self.store {
            Store::Others(numbers) => numbers.push_few(number, count),
            Store::Narrow(narrow) => {
                let mut numbers = Numbers::of_narrow(narrow);
                numbers.push_few(number, count);
                self.store = Store::Others(numbers);
            }
            Store::Bits(bits) => {
                let mut numbers = Numbers::of(bits);
                numbers.push_few(number, count);
                self.store = Store::Others(numbers);
            }
        }
    }

    pub fn push(&mut self, number: u32)
        requires { length self.old < 504 }
        ensures { self.new ≡ self.old ++ number ∷ [] }
    {
        self.push_few(number, 1);
    }

    // Appends numbers.
    #[inline(always)]
    pub fn append(&mut self, numbers: &[u32])
        requires { length self.old + length numbers.now ≤ 504 }
        ensures { self.new ≡ self.old ++ numbers.now }
    {
        match &mut self.store {
            Store::Others(others) => others.append(numbers),
            Store::Narrow(narrow) => {
                if are_narrow(numbers) {
                    narrow.append_wide(numbers);
                } else {
                    let mut others = Numbers::of_narrow(narrow);
                    others.append(numbers);
                    self.store = Store::Others(others);
                }
            }
            Store::Bits(bits) => {
                let mut others = Numbers::of(bits);
                others.append(numbers);
                self.store = Store::Others(others);
            }
        }
    }

    // Appends numbers of at most eight bits.
    #[inline(always)]
    pub fn append_narrow(&mut self, numbers: &[u8])
        requires { length self.old + length numbers.now ≤ 504 }
        ensures { self.new ≡ self.old ++ numbers.now }
    {
        match &mut self.store {
            Store::Narrow(narrow) => narrow.append(numbers),
            Store::Others(others) => others.append_narrow(numbers),
            Store::Bits(_) => self.append_narrow_to_bits(numbers),
        }
    }

    // The same to bits, which are kept as they are from now on.
    #[cold]
    #[inline(never)]
    fn append_narrow_to_bits(&mut self, numbers: &[u8])
        requires { length self.old + length numbers.now ≤ 504 }
        ensures { self.new ≡ self.old ++ numbers.now }
    {
        match &mut self.store {
            Store::Narrow(narrow) => narrow.append(numbers),
            Store::Others(others) => others.append_narrow(numbers),
            Store::Bits(bits) => {
                let mut others = Numbers::of(bits);
                others.append_narrow(numbers);
                self.store = Store::Others(others);
            }
        }
    }

    // Appends numbers by the bits of a word.
    #[inline(always)]
    pub fn append_bits(&mut self, low: u32, word: u64, count: usize)
        requires few { count ≤ 64 }
        requires word { word < 2 ^ count }
        requires low { All (λ v. v < 2 ^ 32) (bit_numbers low word 0 count) }
        requires room { length self.old + count ≤ 504 }
        ensures { self.new ≡ self.old ++ bit_numbers low word 0 count }
    {
        match &mut self.store {
            Store::Narrow(narrow) => {
                if low < 255 {
                    append_narrow_spelled(narrow, low as u8, word, count);
                    return;
                }
            }
            Store::Bits(bits) => {
                if low == 0 {
                    bits.add_word(word, count as u32);
                    return;
                }
            }
            Store::Others(others) => {
                append_spelled(others, low, word, count);
                return;
            }
        }
        self.append_bits_wide(low, word, count);
    }

    // The same where they do not fit the others, which are kept as they are from now on.
    #[cold]
    #[inline(never)]
    fn append_bits_wide(&mut self, low: u32, word: u64, count: usize)
        requires few { count ≤ 64 }
        requires low { All (λ v. v < 2 ^ 32) (bit_numbers low word 0 count) }
        requires room { length self.old + count ≤ 504 }
        ensures { self.new ≡ self.old ++ bit_numbers low word 0 count }
    {
        match &mut self.store {
            Store::Others(others) => append_spelled(others, low, word, count),
            Store::Narrow(narrow) => {
                let mut others = Numbers::of_narrow(narrow);
                append_spelled(&mut others, low, word, count);
                self.store = Store::Others(others);
            }
            Store::Bits(bits) => {
                let mut others = Numbers::of(bits);
                append_spelled(&mut others, low, word, count);
                self.store = Store::Others(others);
            }
        }
    }

    pub fn clear(&mut self)
        ensures { self.new ≡ [] }
    {
        match &mut self.store {
            Store::Bits(bits) => bits.clear(),
            Store::Narrow(numbers) => numbers.clear(),
            Store::Others(numbers) => numbers.clear(),
        }
    }

    // Writes a run of the numbers, which are whole groups.
    pub fn push_run(&self, out: &mut Vec<u8>, width: u32) -> Result<(), AllocError>
        requires fits { width ≤ 32 }
        requires few { length self.now ≤ 504 }
        requires whole { length self.now % 8 ≡ 0 }
        requires below { All (λ v. v < 2 ^ width) self.now }
        ensures ok { OnOk result ((body : List ℕ)
            × (out.new.items ≡ out.old.items ++ (varint (2 * (length self.now / 8) + 1) ++ body))
            × ArePacked width self.now body) }
        ensures kept { Extends out.old.items out.new.items }
    {
        match &self.store {
            Store::Others(numbers) => push_groups(out, numbers.as_slice(), width),
            Store::Narrow(numbers) => {
                if width <= 8 {
                    push_narrow_groups(out, numbers.as_slice(), width)
                } else {
                    push_groups(out, Numbers::of_narrow(numbers).as_slice(), width)
                }
            }
            Store::Bits(bits) => {
                if width == 1 {
                    push_bit_groups(out, bits)
                } else {
                    push_groups(out, Numbers::of(bits).as_slice(), width)
                }
            }
        }
    }
}

// Appends numbers by the bits of a word as they are. It is no part of its callers, since it fills room for them first.
#[inline(never)]
fn append_spelled(others: &mut Numbers, low: u32, word: u64, count: usize)
    requires few { count ≤ 64 }
    requires low { All (λ v. v < 2 ^ 32) (bit_numbers low word 0 count) }
    requires room { length others.old + count ≤ 504 }
    ensures { others.new ≡ others.old ++ bit_numbers low word 0 count }
{
    others.append(front(&numbers_of(low, word), count));
}

// The same of numbers of at most eight bits.
#[inline(never)]
fn append_narrow_spelled(narrow: &mut NarrowNumbers, low: u8, word: u64, count: usize)
    requires few { count ≤ 64 }
    requires low { low < 255 }
    requires room { length narrow.old + count ≤ 504 }
    ensures { narrow.new ≡ narrow.old ++ bit_numbers low word 0 count }
{
    narrow.append(narrow_front(&narrow_numbers_of(low, word), count));
}
