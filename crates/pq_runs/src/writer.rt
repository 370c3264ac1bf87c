//! A writer of runs.

ghost use Rattle.std.specs.Prelude.{◌≡◌, ◌==◌, ◌<◌, ◌≤◌, ◌^◌, ◌+◌, ◌-◌, ◌*◌, ◌++◌, ℕ, List, [], ◌∷◌, length, replicate, get_or, cond, OnOk, All, IsTrue};
ghost use Rattle.pq_runs.specs.WrittenRuns.{WrittenRuns};
ghost use Rattle.pq_runs.specs.Writing.{Extends, Wrote, Keeps, AppendsRuns};
ghost use Rattle.pq_runs.specs.Stretches.{filled_up, stretches};
ghost use Rattle.pq_runs.specs.Words.{bit_numbers};

use crate::block::Block;
use crate::changes::{are_all_narrow, are_narrow_mixed};
use crate::settle::{front, narrow_front, pack, pack_bits, pack_narrow, settle};
use crate::words::{are_mixed_bits, behind_bit, lower_bits, stretch_end};
use std::alloc::AllocError;
use std::marker::Model;

/// Writes numbers of a width as runs behind what a vector holds. Copies wait for the next number and packed numbers for whole groups, so
/// nothing that was written is written anew, and nothing but the output takes memory.
#[derive(Drop)]
pub struct RunWriter {
    width: u32,
    block: Block,
    number: u32,
    count: u64,
}

impl Model for RunWriter {
    ghost use Rattle.pq_runs.specs.Writing.{Waiting, IsReady};

    ghost Value = { Waiting };

    ghost view = { λ r. record { width = r.width; block = r.block; number = r.number; count = r.count } };

    ghost invariant = { λ r. IsReady
        (record { width = r.width; block = r.block; number = r.number; count = r.count }) };
}

// No more copies are taken at once, so that their number has no end of digits.
const MOST_COPIES: u64 = 1 << 40;

impl RunWriter {
    /// A writer of numbers of so many bits, from 1 to 32, to which nothing was given yet.
    pub fn new(width: u32) -> Self
        requires some { 1 ≤ width }
        requires most { width ≤ 32 }
        ensures width { result.width ≡ width }
        ensures none { (start : List ℕ) → Keeps start start result [] }
    {
        RunWriter {
            width,
            block: Block::new(width),
            number: 0,
            count: 0,
        }
    }

    // Some copies of a number, at most MOST_COPIES.
    #[inline(always)]
    pub(crate) fn push_some(
        &mut self,
        out: &mut Vec<u8>,
        number: u32,
        count: u64,
    ) -> Result<(), AllocError>
        requires low { number < 2 ^ self.old.width }
        requires some { 0 < count }
        requires few { count ≤ 2 ^ 40 }
        ensures width { self.new.width ≡ self.old.width }
        ensures added { OnOk result ((start xs : List ℕ) → Keeps start out.old.items self.old xs
            → Keeps start out.new.items self.new (xs ++ replicate count number)) }
        ensures kept { Extends out.old.items out.new.items }
    {
        if number == self.number && self.count < MOST_COPIES {
            self.count += count;
            return Ok(());
        }
        let settled = settle(out, &mut self.block, self.number, self.count, self.width);
        if settled.is_err() {
            self.block.clear();
            return settled;
        }
        self.number = number;
        self.count = count;
        Ok(())
    }

    // So many copies of a number, MOST_COPIES at once.
    #[cold]
    fn push_many(&mut self, out: &mut Vec<u8>, number: u32, count: u64) -> Result<(), AllocError>
        requires low { number < 2 ^ self.old.width }
        ensures width { self.new.width ≡ self.old.width }
        ensures added { OnOk result ((start xs : List ℕ) → Keeps start out.old.items self.old xs
            → Keeps start out.new.items self.new (xs ++ replicate count number)) }
        ensures kept { Extends out.old.items out.new.items }
    {
        let mut left = count;
        while left > 0 {
            let some = left.min(MOST_COPIES);
            self.push_some(out, number, some)?;
            left -= some;
        }
        Ok(())
    }

    /// Takes so many copies of a number. None change nothing.
    ///
    /// # Errors
    ///
    /// Want of memory; the writer is then of no more use, and `out` has what it had in front.
    pub fn push(&mut self, out: &mut Vec<u8>, number: u32, count: usize) -> Result<(), AllocError>
        requires low { number < 2 ^ self.old.width }
        ensures width { self.new.width ≡ self.old.width }
        ensures added { OnOk result ((start xs : List ℕ) → Keeps start out.old.items self.old xs
            → Keeps start out.new.items self.new (xs ++ replicate count number)) }
        ensures kept { Extends out.old.items out.new.items }
    {
        let count = count as u64;
        if count == 0 || count > MOST_COPIES {
            return self.push_many(out, number, count);
        }
        self.push_some(out, number, count)
    }

    // Numbers one after another, not all of which are equal.
    fn push_others(&mut self, out: &mut Vec<u8>, numbers: &[u32]) -> Result<(), AllocError>
        requires low { All (λ v. v < 2 ^ self.old.width) numbers.now }
        ensures width { self.new.width ≡ self.old.width }
        ensures added { OnOk result ((start xs : List ℕ) → Keeps start out.old.items self.old xs
            → Keeps start out.new.items self.new (xs ++ numbers.now)) }
        ensures kept { Extends out.old.items out.new.items }
    {
        for number in numbers {
            self.push_some(out, *number, 1)?;
        }
        Ok(())
    }

    // Numbers of many short stretches, which are packed as they stand. The last one waits.
    fn push_mixed(&mut self, out: &mut Vec<u8>, numbers: &[u32]) -> Result<(), AllocError>
        requires low { All (λ v. v < 2 ^ self.old.width) numbers.now }
        requires some { 1 ≤ length numbers.now }
        requires few { length numbers.now ≤ 504 }
        requires mixed { length numbers.now + 34 ≤ 14 * stretches numbers.now }
        ensures width { self.new.width ≡ self.old.width }
        ensures added { OnOk result ((start xs : List ℕ) → Keeps start out.old.items self.old xs
            → Keeps start out.new.items self.new (xs ++ numbers.now)) }
        ensures kept { Extends out.old.items out.new.items }
    {
        let rest = numbers.len() - 1;
        let settled = settle(out, &mut self.block, self.number, self.count, self.width);
        if settled.is_err() {
            self.block.clear();
            return settled;
        }
        let packed = pack(out, &mut self.block, front(numbers, rest), self.width);
        if packed.is_err() {
            self.block.clear();
            return packed;
        }
        self.number = numbers[rest];
        self.count = 1;
        Ok(())
    }

    /// Takes numbers one after another.
    ///
    /// # Errors
    ///
    /// Want of memory; the writer is then of no more use, and `out` has what it had in front.
    pub fn push_each(&mut self, out: &mut Vec<u8>, numbers: &[u32]) -> Result<(), AllocError>
        requires low { All (λ v. v < 2 ^ self.old.width) numbers.now }
        ensures width { self.new.width ≡ self.old.width }
        ensures added { OnOk result ((start xs : List ℕ) → Keeps start out.old.items self.old xs
            → Keeps start out.new.items self.new (xs ++ numbers.now)) }
        ensures kept { Extends out.old.items out.new.items }
    {
        if numbers.is_empty() {
            return Ok(());
        }
        let first = numbers[0];
        if are_mixed(numbers, first) {
            return self.push_mixed(out, numbers);
        }
        if are_all(numbers, first) {
            return self.push(out, first, numbers.len());
        }
        self.push_others(out, numbers)
    }

    // Numbers of at most eight bits one after another, not all of which are equal.
    fn push_narrow_others(&mut self, out: &mut Vec<u8>, numbers: &[u8]) -> Result<(), AllocError>
        requires low { All (λ v. v < 2 ^ self.old.width) numbers.now }
        ensures width { self.new.width ≡ self.old.width }
        ensures added { OnOk result ((start xs : List ℕ) → Keeps start out.old.items self.old xs
            → Keeps start out.new.items self.new (xs ++ numbers.now)) }
        ensures kept { Extends out.old.items out.new.items }
    {
        for number in numbers {
            self.push_some(out, u32::from(*number), 1)?;
        }
        Ok(())
    }

    // Numbers of at most eight bits in many short stretches, which are packed as they stand. The last one waits.
    fn push_narrow_mixed(&mut self, out: &mut Vec<u8>, numbers: &[u8]) -> Result<(), AllocError>
        requires low { All (λ v. v < 2 ^ self.old.width) numbers.now }
        requires some { 1 ≤ length numbers.now }
        requires few { length numbers.now ≤ 504 }
        requires mixed { length numbers.now + 34 ≤ 14 * stretches numbers.now }
        ensures width { self.new.width ≡ self.old.width }
        ensures added { OnOk result ((start xs : List ℕ) → Keeps start out.old.items self.old xs
            → Keeps start out.new.items self.new (xs ++ numbers.now)) }
        ensures kept { Extends out.old.items out.new.items }
    {
        let rest = numbers.len() - 1;
        let settled = settle(out, &mut self.block, self.number, self.count, self.width);
        if settled.is_err() {
            self.block.clear();
            return settled;
        }
        let packed = pack_narrow(
            out,
            &mut self.block,
            narrow_front(numbers, rest),
            self.width,
        );
        if packed.is_err() {
            self.block.clear();
            return packed;
        }
        self.number = u32::from(numbers[rest]);
        self.count = 1;
        Ok(())
    }

    /// Takes numbers of at most eight bits one after another.
    ///
    /// # Errors
    ///
    /// Want of memory; the writer is then of no more use, and `out` has what it had in front.
    pub fn push_bytes(&mut self, out: &mut Vec<u8>, numbers: &[u8]) -> Result<(), AllocError>
        requires low { All (λ v. v < 2 ^ self.old.width) numbers.now }
        ensures width { self.new.width ≡ self.old.width }
        ensures added { OnOk result ((start xs : List ℕ) → Keeps start out.old.items self.old xs
            → Keeps start out.new.items self.new (xs ++ numbers.now)) }
        ensures kept { Extends out.old.items out.new.items }
    {
        if numbers.is_empty() {
            return Ok(());
        }
        let first = numbers[0];
        if are_narrow_mixed(numbers, first) {
            return self.push_narrow_mixed(out, numbers);
        }
        if are_all_narrow(numbers, first) {
            return self.push(out, u32::from(first), numbers.len());
        }
        self.push_narrow_others(out, numbers)
    }

    // The same where one number waits that the word could tell too: it is packed before the others.
    #[inline(always)]
    fn push_behind_one(
        &mut self,
        out: &mut Vec<u8>,
        low: u32,
        word: u64,
        count: usize,
    ) -> Result<(), AllocError>
        requires one { self.old.count ≡ 1 }
        requires least { low ≤ self.old.number }
        requires near { self.old.number ≤ low + 1 }
        requires low { All (λ v. v < 2 ^ self.old.width) (bit_numbers low word 0 count) }
        requires some { 1 ≤ count }
        requires few { count ≤ 64 }
        requires mixed { count + 34 ≤ 14 * stretches (bit_numbers low word 0 count) }
        ensures width { self.new.width ≡ self.old.width }
        ensures added { OnOk result ((start xs : List ℕ) → Keeps start out.old.items self.old xs
            → Keeps start out.new.items self.new (xs ++ bit_numbers low word 0 count)) }
        ensures kept { Extends out.old.items out.new.items }
    {
        let _width = &self.width;
        let rest = count - 1;
        let last = low + ((word >> rest) & 1) as u32;
        let bits = behind_bit(lower_bits(word, rest), self.number - low, rest);
        let packed = pack_bits(out, &mut self.block, low, bits, count, self.width);
        if packed.is_err() {
            self.block.clear();
            return packed;
        }
        self.number = last;
        self.count = 1;
        Ok(())
    }

    // Numbers of many short stretches by the bits of a word, which are packed as they stand. The last one waits.
    #[inline(always)]
    fn push_mixed_bits(
        &mut self,
        out: &mut Vec<u8>,
        low: u32,
        word: u64,
        count: usize,
    ) -> Result<(), AllocError>
        requires low { All (λ v. v < 2 ^ self.old.width) (bit_numbers low word 0 count) }
        requires some { 1 ≤ count }
        requires few { count ≤ 64 }
        requires mixed { count + 34 ≤ 14 * stretches (bit_numbers low word 0 count) }
        ensures width { self.new.width ≡ self.old.width }
        ensures added { OnOk result ((start xs : List ℕ) → Keeps start out.old.items self.old xs
            → Keeps start out.new.items self.new (xs ++ bit_numbers low word 0 count)) }
        ensures kept { Extends out.old.items out.new.items }
    {
        let _width = &self.width;
        let rest = count - 1;
        let front = lower_bits(word, rest);
        let last = low + ((word >> rest) & 1) as u32;
        let settled = settle(out, &mut self.block, self.number, self.count, self.width);
        if settled.is_err() {
            self.block.clear();
            return settled;
        }
        let packed = pack_bits(out, &mut self.block, low, front, rest, self.width);
        if packed.is_err() {
            self.block.clear();
            return packed;
        }
        self.number = last;
        self.count = 1;
        Ok(())
    }

    // Numbers of few stretches by the bits of a word, stretch by stretch.
    fn push_stretches(
        &mut self,
        out: &mut Vec<u8>,
        low: u32,
        word: u64,
        count: usize,
    ) -> Result<(), AllocError>
        requires few { count ≤ 64 }
        requires low { All (λ v. v < 2 ^ self.old.width) (bit_numbers low word 0 count) }
        ensures width { self.new.width ≡ self.old.width }
        ensures added { OnOk result ((start xs : List ℕ) → Keeps start out.old.items self.old xs
            → Keeps start out.new.items self.new (xs ++ bit_numbers low word 0 count)) }
        ensures kept { Extends out.old.items out.new.items }
    {
        let _width = &self.width;
        let mut at = 0;
        while at < count {
            let number = low + ((word >> at) & 1) as u32;
            let end = stretch_end(word, at, count);
            self.push_some(out, number, (end - at) as u64)?;
            at = end;
        }
        Ok(())
    }

    /// Takes up to 64 numbers by the bits of a word, the lowest first: `low` where the bit is 0, and one more where it is 1.
    ///
    /// # Errors
    ///
    /// Want of memory; the writer is then of no more use, and `out` has what it had in front.
    pub fn push_bits(
        &mut self,
        out: &mut Vec<u8>,
        low: u32,
        word: u64,
        count: usize,
    ) -> Result<(), AllocError>
        requires few { count ≤ 64 }
        requires low { All (λ v. v < 2 ^ self.old.width) (bit_numbers low word 0 count) }
        ensures width { self.new.width ≡ self.old.width }
        ensures added { OnOk result ((start xs : List ℕ) → Keeps start out.old.items self.old xs
            → Keeps start out.new.items self.new (xs ++ bit_numbers low word 0 count)) }
        ensures kept { Extends out.old.items out.new.items }
    {
        if count == 0 {
            return Ok(());
        }
        if are_mixed_bits(word, count, self.width == 1) {
            if self.count == 1 && self.number >= low && self.number - low <= 1 {
                return self.push_behind_one(out, low, word, count);
            }
            return self.push_mixed_bits(out, low, word, count);
        }
        self.push_stretches(out, low, word, count)
    }

    /// Writes what waits. What was appended since the start is then written runs of all numbers that were given: whole groups, the last filled up
    /// with zeros, in at most `2 * width + 19` bytes for each stretch of up to `2^40` equal numbers and one byte.
    ///
    /// # Errors
    ///
    /// Want of memory; `out` has what it had in front.
    pub fn finish(mut self, out: &mut Vec<u8>) -> Result<(), AllocError>
        ensures ok { OnOk result ((start xs : List ℕ) → Keeps start out.old.items self xs
            → AppendsRuns self.width start out.new.items xs) }
        ensures kept { Extends out.old.items out.new.items }
    {
        settle(out, &mut self.block, self.number, self.count, self.width)?;
        push_last(out, &mut self.block, self.width)
    }
}

// Whether all of the numbers are one and the same.
fn are_all(numbers: &[u32], number: u32) -> bool
    ensures { IsTrue result → numbers.now ≡ replicate (length numbers.now) number }
{
    let mut same = true;
    for other in numbers {
        same &= *other == number;
    }
    same
}

// 1 where a number differs from the one before it.
#[inline(always)]
fn differs(last: u32, number: u32) -> u32
    ensures value { result ≡ cond (last == number) 0 1 }
    ensures most { result ≤ 1 }
{
    if last == number { 0 } else { 1 }
}

// How many stretches of equal numbers stand side by side, with one more number in front.
fn count_stretches(numbers: &[u32], first: u32) -> u32
    requires { length numbers.now ≤ 504 }
    ensures value { result ≡ stretches (first ∷ numbers.now) }
    ensures most { result ≤ 505 }
{
    let mut count = 1;
    let mut last = first;
    for number in numbers {
        count += differs(last, *number);
        last = *number;
    }
    count
}

// Whether so few numbers are in so many stretches that they are best packed as they stand: less than five numbers a stretch.
fn are_mixed(numbers: &[u32], first: u32) -> bool
    requires some { 1 ≤ length numbers.now }
    requires first { first ≡ get_or numbers.now 0 0 }
    ensures few { IsTrue result → length numbers.now ≤ 504 }
    ensures mixed { IsTrue result → length numbers.now + 34 ≤ 14 * stretches numbers.now }
{
    if numbers.len() > 504 {
        return false;
    }
    7 * count_stretches(numbers, first) as usize >= numbers.len() + 34
}

// Writes the block, behind which nothing comes. Its last group is filled up.
fn push_last(out: &mut Vec<u8>, block: &mut Block, width: u32) -> Result<(), AllocError>
    requires some { 1 ≤ width }
    requires fits { width ≤ 32 }
    requires room { length block.old < 504 }
    requires below { All (λ v. v < 2 ^ width) block.old }
    ensures ok { OnOk result ((start xs : List ℕ) → Wrote width start out.old.items block.old xs → (text : List ℕ)
        × (out.new.items ≡ start ++ text) × WrittenRuns width text xs) }
    ensures size { OnOk result (8 * length out.new.items ≤ 8 * length out.old.items + 8
        + width * filled_up (length block.old)) }
    ensures kept { Extends out.old.items out.new.items }
{
    if block.len() == 0 {
        return Ok(());
    }
    while block.len() % 8 != 0 {
        block.push(0);
    }
    block.push_run(out, width)
}
