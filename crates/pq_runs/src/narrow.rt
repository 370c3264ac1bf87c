//! Numbers of at most eight bits that wait to be packed.

ghost use Rattle.std.specs.Prelude.{◌≡◌, ◌<◌, ◌≤◌, ◌+◌, ◌++◌, [], ◌∷◌, All, IsTrue, length, take, replicate};

use std::marker::Model;

/// At most 63 groups of eight, so that the header of their run takes one byte. Behind them are eight places more, so that eight copies are always put at once.
#[derive(Drop)]
pub struct NarrowNumbers {
    numbers: [u8; 512],
    filled: usize,
}

impl Model for NarrowNumbers {
    ghost use Rattle.std.specs.Prelude.{List, ℕ, take, ◌≤◌};

    ghost Value = { List ℕ };

    ghost view = { λ b. take b.filled b.numbers };

    ghost invariant = { λ b. b.filled ≤ 504 };
}

impl NarrowNumbers {
    pub fn new() -> Self
        ensures { result ≡ [] }
    {
        NarrowNumbers {
            numbers: [0; 512],
            filled: 0,
        }
    }

    pub fn len(&self) -> usize
        ensures value { result ≡ length self.now }
        ensures most { result ≤ 504 }
    {
        self.filled
    }

    pub fn push(&mut self, number: u8)
        requires { length self.old < 504 }
        ensures { self.new ≡ self.old ++ number ∷ [] }
    {
        self.numbers[self.filled] = number;
        self.filled += 1;
    }

    // Appends so many copies of a number.
    #[inline(always)]
    pub fn push_few(&mut self, number: u8, count: usize)
        requires few { count ≤ 8 }
        requires room { length self.old + count ≤ 504 }
        ensures { self.new ≡ self.old ++ replicate count number }
    {
        put_eight(&mut self.numbers, self.filled, number);
        self.filled += count;
    }

    // Appends numbers.
    #[inline(always)]
    pub fn append(&mut self, numbers: &[u8])
        requires { length self.old + length numbers.now ≤ 504 }
        ensures { self.new ≡ self.old ++ numbers.now }
    {
        put_numbers(&mut self.numbers, self.filled, numbers);
        self.filled += numbers.len();
    }

    // Appends numbers that have at most eight bits, too.
    pub fn append_wide(&mut self, numbers: &[u32])
        requires room { length self.old + length numbers.now ≤ 504 }
        requires narrow { All (λ v. v < 256) numbers.now }
        ensures { self.new ≡ self.old ++ numbers.now }
    {
        for number in numbers {
            self.push(*number as u8);
        }
    }

    pub fn clear(&mut self)
        ensures { self.new ≡ [] }
    {
        self.filled = 0;
    }

    pub fn as_slice(&self) -> &[u8]
        ensures { result.now ≡ self.now }
    {
        &self.numbers[..self.filled]
    }
}

// Whether all numbers have at most eight bits.
pub fn are_narrow(numbers: &[u32]) -> bool
    ensures { IsTrue result → All (λ v. v < 256) numbers.now }
{
    for number in numbers {
        if *number > 255 {
            return false;
        }
    }
    true
}

// Eight copies of a number take their places, and the numbers before them stay.
#[inline(always)]
fn put_eight(numbers: &mut [u8], at: usize, number: u8)
    requires { at + 8 ≤ length numbers.old }
    ensures len { length numbers.new ≡ length numbers.old }
    ensures front { take (at + 8) numbers.new ≡ take at numbers.old ++ replicate 8 number }
{
    numbers[at..at + 8].copy_from_slice(&[number; 8]);
}

// Numbers take their places, and those before them stay.
#[inline(always)]
fn put_numbers(places: &mut [u8], at: usize, numbers: &[u8])
    requires { at + length numbers.now ≤ length places.old }
    ensures len { length places.new ≡ length places.old }
    ensures front { take (at + length numbers.now) places.new ≡ take at places.old ++ numbers.now }
{
    places[at..at + numbers.len()].copy_from_slice(numbers);
}
