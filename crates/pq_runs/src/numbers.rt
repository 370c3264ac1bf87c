//! Numbers of any width that wait to be packed.

ghost use Rattle.std.specs.Prelude.{◌≡◌, ◌<◌, ◌≤◌, ◌+◌, ◌++◌, List, [], ◌∷◌, length, take, replicate};

use crate::bit_block::BitBlock;
use crate::narrow::NarrowNumbers;
use std::marker::Model;

/// At most 63 groups of eight, so that the header of their run takes one byte. Behind them are eight places more, so that eight copies are always put at once.
#[derive(Drop)]
pub struct Numbers {
    numbers: [u32; 512],
    filled: usize,
}

impl Model for Numbers {
    ghost use Rattle.std.specs.Prelude.{List, ℕ, take, ◌≤◌};

    ghost Value = { List ℕ };

    ghost view = { λ b. take b.filled b.numbers };

    ghost invariant = { λ b. b.filled ≤ 504 };
}

impl Numbers {
    pub fn new() -> Self
        ensures { result ≡ [] }
    {
        Numbers {
            numbers: [0; 512],
            filled: 0,
        }
    }

    // The numbers of a block of bits.
    pub fn of(bits: &BitBlock) -> Self
        ensures { result ≡ bits.now }
    {
        let count = bits.len();
        let mut numbers = [0; 512];
        bits.unpack_to(&mut numbers[..count]);
        Numbers {
            numbers,
            filled: count,
        }
    }

    // The numbers of a block of narrow ones.
    pub fn of_narrow(narrow: &NarrowNumbers) -> Self
        ensures { result ≡ narrow.now }
    {
        let _count = narrow.len();
        let mut numbers = Numbers::new();
        numbers.append_narrow(narrow.as_slice());
        numbers
    }

    pub fn len(&self) -> usize
        ensures value { result ≡ length self.now }
        ensures most { result ≤ 504 }
    {
        self.filled
    }

    pub fn push(&mut self, number: u32)
        requires { length self.old < 504 }
        ensures { self.new ≡ self.old ++ number ∷ [] }
    {
        self.numbers[self.filled] = number;
        self.filled += 1;
    }

    // Appends so many copies of a number.
    #[inline(always)]
    pub fn push_few(&mut self, number: u32, count: usize)
        requires few { count ≤ 8 }
        requires room { length self.old + count ≤ 504 }
        ensures { self.new ≡ self.old ++ replicate count number }
    {
        put_eight(&mut self.numbers, self.filled, number);
        self.filled += count;
    }

    // Appends numbers.
    #[inline(always)]
    pub fn append(&mut self, numbers: &[u32])
        requires { length self.old + length numbers.now ≤ 504 }
        ensures { self.new ≡ self.old ++ numbers.now }
    {
        put_numbers(&mut self.numbers, self.filled, numbers);
        self.filled += numbers.len();
    }

    // Appends numbers of at most eight bits.
    pub fn append_narrow(&mut self, numbers: &[u8])
        requires { length self.old + length numbers.now ≤ 504 }
        ensures { self.new ≡ self.old ++ numbers.now }
    {
        for number in numbers {
            self.push(u32::from(*number));
        }
    }

    pub fn clear(&mut self)
        ensures { self.new ≡ [] }
    {
        self.filled = 0;
    }

    pub fn as_slice(&self) -> &[u32]
        ensures { result.now ≡ self.now }
    {
        &self.numbers[..self.filled]
    }
}

// Eight copies of a number take their places, and the numbers before them stay.
#[inline(always)]
fn put_eight(numbers: &mut [u32], at: usize, number: u32)
    requires { at + 8 ≤ length numbers.old }
    ensures len { length numbers.new ≡ length numbers.old }
    ensures front { take (at + 8) numbers.new ≡ take at numbers.old ++ replicate 8 number }
{
    numbers[at..at + 8].copy_from_slice(&[number; 8]);
}

// Numbers take their places, and those before them stay.
#[inline(always)]
fn put_numbers(places: &mut [u32], at: usize, numbers: &[u32])
    requires { at + length numbers.now ≤ length places.old }
    ensures len { length places.new ≡ length places.old }
    ensures front { take (at + length numbers.now) places.new ≡ take at places.old ++ numbers.now }
{
    places[at..at + numbers.len()].copy_from_slice(numbers);
}
