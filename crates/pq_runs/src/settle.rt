//! Copies of a number into the block or into a run of their own.

ghost use Rattle.std.specs.Prelude.{◌≡◌, ◌<◌, ◌≤◌, ◌^◌, ◌+◌, ◌*◌, ◌/◌, ◌++◌, ℕ, List, length, take, drop, replicate, OnOk, All};
ghost use Rattle.pq_runs.specs.Writing.{Extends, Wrote, IsTight};
ghost use Rattle.pq_runs.specs.Stretches.{Takes, one_if_any, stretch_bits};
ghost use Rattle.pq_runs.specs.Words.{bit_numbers};

use crate::block::Block;
use crate::runs::{flush, push_copies};
use crate::words::{high_bits, low_bits};
use std::alloc::AllocError;

// From so many copies on a run of their own, with the header of the packed run before it, takes no more bytes than they would take packed.
fn fewest(width: u32) -> u64
    requires { 1 ≤ width }
    ensures eight { 8 ≤ result }
    ensures low { width + 24 ≤ width * result }
    ensures most { result ≤ 32 }
    ensures high { width * result ≤ 8 * width + 24 }
{
    u64::from(24 / width) + 8
}

// Takes so many copies of a number: into the groups of the block, a group at once, and where many are left, as a run of their own.
#[inline(never)]
fn settle_many(
    out: &mut Vec<u8>,
    block: &mut Block,
    number: u32,
    count: u64,
    width: u32,
) -> Result<(), AllocError>
    requires some { 1 ≤ width }
    requires fits { width ≤ 32 }
    requires few { count < 2 ^ 62 }
    requires room { length block.old < 504 }
    requires below { All (λ v. v < 2 ^ width) block.old }
    requires number { number < 2 ^ width }
    ensures room { OnOk result (length block.new < 504) }
    ensures below { OnOk result (All (λ v. v < 2 ^ width) block.new) }
    ensures wrote { OnOk result ((start xs : List ℕ) → Wrote width start out.old.items block.old xs
        → Wrote width start out.new.items block.new (xs ++ replicate count number)) }
    ensures tight { OnOk result ((start done : ℕ) → IsTight width start (length out.old.items) done → (more : ℕ)
        × (done + length block.old + count ≡ more + length block.new)
        × IsTight width start (length out.new.items) more) }
    ensures short { OnOk result (Takes width out.old.items block.old out.new.items block.new
        (stretch_bits width * one_if_any count)) }
    ensures kept { Extends out.old.items out.new.items }
{
    let many = fewest(width);
    let mut left = count;
    while left > 0 && (left < many || block.len() % 8 != 0) {
        let some = left.min(8 - block.len() as u64 % 8);
        block.push_few(number, some as usize);
        left -= some;
        if block.len() == 504 {
            flush(out, block, width)?;
        }
    }
    if left > 0 {
        flush(out, block, width)?;
        push_copies(out, number, left, width)?;
    }
    Ok(())
}

// Takes so many copies of a number. A few only wait in the block, where it has room.
#[inline(always)]
pub fn settle(
    out: &mut Vec<u8>,
    block: &mut Block,
    number: u32,
    count: u64,
    width: u32,
) -> Result<(), AllocError>
    requires some { 1 ≤ width }
    requires fits { width ≤ 32 }
    requires few { count < 2 ^ 62 }
    requires room { length block.old < 504 }
    requires below { All (λ v. v < 2 ^ width) block.old }
    requires number { number < 2 ^ width }
    ensures room { OnOk result (length block.new < 504) }
    ensures below { OnOk result (All (λ v. v < 2 ^ width) block.new) }
    ensures wrote { OnOk result ((start xs : List ℕ) → Wrote width start out.old.items block.old xs
        → Wrote width start out.new.items block.new (xs ++ replicate count number)) }
    ensures tight { OnOk result ((start done : ℕ) → IsTight width start (length out.old.items) done → (more : ℕ)
        × (done + length block.old + count ≡ more + length block.new)
        × IsTight width start (length out.new.items) more) }
    ensures short { OnOk result (Takes width out.old.items block.old out.new.items block.new
        (stretch_bits width * one_if_any count)) }
    ensures kept { Extends out.old.items out.new.items }
{
    if count <= 8 && block.len() < 496 {
        block.push_few(number, count as usize);
        return Ok(());
    }
    settle_many(out, block, number, count, width)
}

// The first numbers.
#[inline(always)]
pub fn front(numbers: &[u32], count: usize) -> &[u32]
    requires { count ≤ length numbers.now }
    ensures { result.now ≡ take count numbers.now }
{
    &numbers[..count]
}

// The numbers behind the first ones.
#[inline(always)]
fn behind(numbers: &[u32], count: usize) -> &[u32]
    requires { count ≤ length numbers.now }
    ensures { result.now ≡ drop count numbers.now }
{
    &numbers[count..]
}

// The first numbers.
#[inline(always)]
pub fn narrow_front(numbers: &[u8], count: usize) -> &[u8]
    requires { count ≤ length numbers.now }
    ensures { result.now ≡ take count numbers.now }
{
    &numbers[..count]
}

// The numbers behind the first ones.
#[inline(always)]
fn narrow_behind(numbers: &[u8], count: usize) -> &[u8]
    requires { count ≤ length numbers.now }
    ensures { result.now ≡ drop count numbers.now }
{
    &numbers[count..]
}

// Takes numbers into the groups of the block, as they stand.
pub fn pack(
    out: &mut Vec<u8>,
    block: &mut Block,
    numbers: &[u32],
    width: u32,
) -> Result<(), AllocError>
    requires some { 1 ≤ width }
    requires fits { width ≤ 32 }
    requires few { length numbers.now < 504 }
    requires room { length block.old < 504 }
    requires below { All (λ v. v < 2 ^ width) block.old }
    requires numbers { All (λ v. v < 2 ^ width) numbers.now }
    ensures room { OnOk result (length block.new < 504) }
    ensures below { OnOk result (All (λ v. v < 2 ^ width) block.new) }
    ensures wrote { OnOk result ((start xs : List ℕ) → Wrote width start out.old.items block.old xs
        → Wrote width start out.new.items block.new (xs ++ numbers.now)) }
    ensures tight { OnOk result ((start done : ℕ) → IsTight width start (length out.old.items) done → (more : ℕ)
        × (done + length block.old + length numbers.now ≡ more + length block.new)
        × IsTight width start (length out.new.items) more) }
    ensures short { OnOk result (Takes width out.old.items block.old out.new.items block.new
        (width * (length numbers.now + 7) + 8)) }
    ensures kept { Extends out.old.items out.new.items }
{
    let room = 504 - block.len();
    if numbers.len() < room {
        block.append(numbers);
        return Ok(());
    }
    block.append(front(numbers, room));
    flush(out, block, width)?;
    block.append(behind(numbers, room));
    Ok(())
}

// Takes numbers of at most eight bits into the groups of the block, as they stand.
pub fn pack_narrow(
    out: &mut Vec<u8>,
    block: &mut Block,
    numbers: &[u8],
    width: u32,
) -> Result<(), AllocError>
    requires some { 1 ≤ width }
    requires fits { width ≤ 32 }
    requires few { length numbers.now < 504 }
    requires room { length block.old < 504 }
    requires below { All (λ v. v < 2 ^ width) block.old }
    requires numbers { All (λ v. v < 2 ^ width) numbers.now }
    ensures room { OnOk result (length block.new < 504) }
    ensures below { OnOk result (All (λ v. v < 2 ^ width) block.new) }
    ensures wrote { OnOk result ((start xs : List ℕ) → Wrote width start out.old.items block.old xs
        → Wrote width start out.new.items block.new (xs ++ numbers.now)) }
    ensures tight { OnOk result ((start done : ℕ) → IsTight width start (length out.old.items) done → (more : ℕ)
        × (done + length block.old + length numbers.now ≡ more + length block.new)
        × IsTight width start (length out.new.items) more) }
    ensures short { OnOk result (Takes width out.old.items block.old out.new.items block.new
        (width * (length numbers.now + 7) + 8)) }
    ensures kept { Extends out.old.items out.new.items }
{
    let room = 504 - block.len();
    if numbers.len() < room {
        block.append_narrow(numbers);
        return Ok(());
    }
    block.append_narrow(narrow_front(numbers, room));
    flush(out, block, width)?;
    block.append_narrow(narrow_behind(numbers, room));
    Ok(())
}

// Takes numbers by the bits of a word into the groups of the block, as they stand.
pub fn pack_bits(
    out: &mut Vec<u8>,
    block: &mut Block,
    low: u32,
    word: u64,
    count: usize,
    width: u32,
) -> Result<(), AllocError>
    requires some { 1 ≤ width }
    requires fits { width ≤ 32 }
    requires few { count ≤ 64 }
    requires word { word < 2 ^ count }
    requires room { length block.old < 504 }
    requires below { All (λ v. v < 2 ^ width) block.old }
    requires numbers { All (λ v. v < 2 ^ width) (bit_numbers low word 0 count) }
    ensures room { OnOk result (length block.new < 504) }
    ensures below { OnOk result (All (λ v. v < 2 ^ width) block.new) }
    ensures wrote { OnOk result ((start xs : List ℕ) → Wrote width start out.old.items block.old xs
        → Wrote width start out.new.items block.new (xs ++ bit_numbers low word 0 count)) }
    ensures tight { OnOk result ((start done : ℕ) → IsTight width start (length out.old.items) done → (more : ℕ)
        × (done + length block.old + length (bit_numbers low word 0 count) ≡ more + length block.new)
        × IsTight width start (length out.new.items) more) }
    ensures short { OnOk result (Takes width out.old.items block.old out.new.items block.new
        (width * (length (bit_numbers low word 0 count) + 7) + 8)) }
    ensures kept { Extends out.old.items out.new.items }
{
    let room = 504 - block.len();
    if count < room {
        block.append_bits(low, word, count);
        return Ok(());
    }
    block.append_bits(low, low_bits(word, room), room);
    flush(out, block, width)?;
    block.append_bits(low, high_bits(word, room), count - room);
    Ok(())
}
