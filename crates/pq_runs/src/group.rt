//! Packing whole groups of eight numbers of at most eight bits.

ghost use Rattle.std.specs.Prelude.{◌≡◌, ◌<◌, ◌≤◌, ◌^◌, ◌+◌, ◌-◌, ◌*◌, ◌%◌, ◌++◌, ℕ, List, length, take, drop, OnOk, All};
ghost use Rattle.pq_numbers.specs.Texts.{number_of};
ghost use Rattle.pq_runs.specs.Packing.{ArePacked};
ghost use Rattle.pq_runs.specs.Writing.{Extends};
ghost use Rattle.pq_runs.specs.Words.{paired, word_of};

use std::alloc::AllocError;

// Eight numbers, two side by side in each part of sixteen bits.
#[inline(always)]
fn pairs_of(numbers: [u8; 8], width: u32) -> u64
    requires fits { width ≤ 8 }
    requires below { All (λ v. v < 2 ^ width) numbers }
    ensures { result ≡ word_of 16 (paired width numbers) }
{
    let [a, b, c, d, e, f, g, h] = numbers;
    let first = u64::from_le_bytes([a, 0, c, 0, e, 0, g, 0]);
    let second = u64::from_le_bytes([b, 0, d, 0, f, 0, h, 0]);
    first.wrapping_add(second << width)
}

// Four pairs, two side by side in each half.
#[inline(always)]
fn fours_of(pairs: u64, width: u32) -> u64
    requires fits { width ≤ 8 }
    ensures { (xs : List ℕ) → length xs ≡ 4 → All (λ v. v < 2 ^ (2 * width)) xs → pairs ≡ word_of 16 xs
        → result ≡ word_of 32 (paired (2 * width) xs) }
{
    let [a, b, c, d, e, f, g, h] = pairs.to_le_bytes();
    let first = u64::from_le_bytes([a, b, 0, 0, e, f, 0, 0]);
    let second = u64::from_le_bytes([c, d, 0, 0, g, h, 0, 0]);
    first.wrapping_add(second << (2 * width))
}

// Two halves side by side.
#[inline(always)]
fn joined(fours: u64, width: u32) -> u64
    requires fits { width ≤ 8 }
    ensures { (xs : List ℕ) → length xs ≡ 2 → All (λ v. v < 2 ^ (4 * width)) xs → fours ≡ word_of 32 xs
        → result ≡ word_of (4 * width) xs }
{
    (fours % (1 << 32)).wrapping_add((fours >> 32) << (4 * width))
}

// Eight numbers as one number.
#[inline(always)]
fn word_of(numbers: [u8; 8], width: u32) -> u64
    requires fits { width ≤ 8 }
    requires below { All (λ v. v < 2 ^ width) numbers }
    ensures value { result ≡ word_of width numbers }
    ensures below { result < 2 ^ (8 * width) }
{
    let pairs = pairs_of(numbers, width);
    let fours = fours_of(pairs, width);
    joined(fours, width)
}

// Eight bytes take their places, and those before them stay.
#[inline(always)]
pub fn put_bytes(places: &mut [u8], at: usize, bytes: [u8; 8])
    requires { at + 8 ≤ length places.old }
    ensures len { length places.new ≡ length places.old }
    ensures front { take (at + 8) places.new ≡ take at places.old ++ bytes }
{
    places[at..at + 8].copy_from_slice(&bytes);
}

// Eight numbers take their places, and the bytes before them stay. Some bytes behind them may change.
#[inline(always)]
fn put_group(places: &mut [u8], at: usize, numbers: [u8; 8], width: u32)
    requires fits { width ≤ 8 }
    requires room { at + 8 ≤ length places.old }
    requires below { All (λ v. v < 2 ^ width) numbers }
    ensures len { length places.new ≡ length places.old }
    ensures put { (text : List ℕ) × (take (at + width) places.new ≡ take at places.old ++ text) × (length text ≡ width)
        × (number_of text ≡ word_of width numbers) }
{
    put_bytes(places, at, word_of(numbers, width).to_le_bytes());
}

// The first eight numbers.
#[inline(always)]
fn first_eight(numbers: &[u8]) -> [u8; 8]
    requires { 8 ≤ length numbers.now }
    ensures eight { length result ≡ 8 }
    ensures front { numbers.now ≡ result ++ drop 8 numbers.now }
{
    let mut eight = [0; 8];
    eight.copy_from_slice(&numbers[..8]);
    eight
}

// The numbers behind the first eight.
#[inline(always)]
fn behind_eight(numbers: &[u8]) -> &[u8]
    requires { 8 ≤ length numbers.now }
    ensures { result.now ≡ drop 8 numbers.now }
{
    &numbers[8..]
}

// Whole groups of numbers stand from the front on, in so many bytes.
#[inline(always)]
fn put_groups(places: &mut [u8], numbers: &[u8], width: u32) -> usize
    requires fits { width ≤ 8 }
    requires few { length numbers.now ≤ length places.old }
    requires whole { length numbers.now % 8 ≡ 0 }
    requires below { All (λ v. v < 2 ^ width) numbers.now }
    ensures within { result ≤ length places.new }
    ensures are { ArePacked width numbers.now (take result places.new) }
{
    let mut rest = numbers;
    let mut at = 0;
    while rest.len() >= 8 {
        put_group(places, at, first_eight(rest), width);
        rest = behind_eight(rest);
        at += width as usize;
    }
    at
}

// The same, by a loop of its own for each width that most levels have.
fn put_all(places: &mut [u8], numbers: &[u8], width: u32) -> usize
    requires fits { width ≤ 8 }
    requires few { length numbers.now ≤ length places.old }
    requires whole { length numbers.now % 8 ≡ 0 }
    requires below { All (λ v. v < 2 ^ width) numbers.now }
    ensures within { result ≤ length places.new }
    ensures are { ArePacked width numbers.now (take result places.new) }
{
    match width {
        2 => put_groups(places, numbers, 2),
        3 => put_groups(places, numbers, 3),
        4 => put_groups(places, numbers, 4),
        _ => put_groups(places, numbers, width),
    }
}

// Appends whole groups of numbers, which are spelled before they are appended, a word of eight at once.
pub fn push_narrow(out: &mut Vec<u8>, numbers: &[u8], width: u32) -> Result<(), AllocError>
    requires fits { width ≤ 8 }
    requires few { length numbers.now ≤ 504 }
    requires whole { length numbers.now % 8 ≡ 0 }
    requires below { All (λ v. v < 2 ^ width) numbers.now }
    ensures ok { OnOk result ((text : List ℕ) × (out.new.items ≡ out.old.items ++ text)
        × ArePacked width numbers.now text) }
    ensures kept { Extends out.old.items out.new.items }
{
    let mut places = [0; 504];
    let size = put_all(&mut places, numbers, width);
    out.extend_from_slice(&places[..size])
}
