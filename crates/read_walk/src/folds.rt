//! Folds over the levels of a block, without an early exit, so that several levels are looked at together.
ghost use Rattle.std.specs.Prelude.{◌≡◌, ℕ, ◌<◌, ◌≤◌, IfSome, IsTrue, length, slice_index};
ghost use Rattle.pq_numbers.specs.Bits.{digits_of};
ghost use Rattle.read_walk.specs.Pairs.{rows_in};

use read_state::{levels_at, levels_to};
use std::simd::prelude::*;

/// The bits that any of 64 levels has, all at once.
pub fn block_bits(levels: &[u32]) -> u32
    requires { length levels.now ≡ 64 }
    ensures { (k : ℕ) → k < length levels.now → slice_index levels.now k ≤ result }
{
    Simd::<u32, 64>::from_slice(levels).reduce_or()
}

// Whether none of 64 levels is above this one.
fn is_block_within(levels: &[u32], max: u32) -> bool
    requires { length levels.now ≡ 64 }
    ensures { IsTrue result → (k : ℕ) → k < length levels.now → slice_index levels.now k ≤ max }
{
    levels_to(levels, max) == u64::MAX
}

/// The bits that any of the levels has.
pub fn all_bits(levels: &[u32]) -> u32
    ensures { (k : ℕ) → k < length levels.now → slice_index levels.now k ≤ result }
{
    if levels.len() == 64 {
        return block_bits(levels);
    }
    let mut bits = 0;
    for level in levels {
        bits = bits | *level;
    }
    bits
}

// A level that none of these is above.
fn greatest(levels: &[u32]) -> u32
    ensures { (k : ℕ) → k < length levels.now → slice_index levels.now k ≤ result }
{
    let mut most = 0;
    for level in levels {
        most = most.max(*level);
    }
    most
}

// 0 where no level is below this one. Each level is compared, so that several are at once.
fn any_below(levels: &[u32], floor: u32) -> u32
    ensures { result ≡ 0 → (k : ℕ) → k < length levels.now → floor ≤ slice_index levels.now k }
{
    let mut any = 0;
    for level in levels {
        any = any | u32::from(*level < floor);
    }
    any
}

/// Whether no level is above this one.
pub fn are_within(levels: &[u32], max: usize) -> bool
    ensures { IsTrue result → (k : ℕ) → k < length levels.now → slice_index levels.now k ≤ max }
{
    if all_bits(levels) as usize <= max {
        return true;
    }
    if levels.len() == 64 && max < 0x1_0000_0000 {
        return is_block_within(levels, max as u32);
    }
    greatest(levels) as usize <= max
}

/// Whether no level is below this one.
pub fn are_from(levels: &[u32], floor: usize) -> bool
    ensures { IsTrue result → (k : ℕ) → k < length levels.now → floor ≤ slice_index levels.now k }
{
    if floor == 0 {
        return true;
    }
    if floor >= 0x1_0000_0000 {
        return false;
    }
    any_below(levels, floor as u32) == 0
}

/// How many of the repetition levels begin a row.
pub fn count_zeros(reps: &[u32]) -> usize
    requires few { length reps.now ≤ 64 }
    ensures { result ≡ rows_in reps.now }
{
    if reps.len() == 64 {
        return levels_at(reps, 0).count_ones() as usize;
    }
    let mut count: u32 = 0;
    for i in 0..reps.len() {
        count += u32::from(reps[i] == 0);
    }
    count as usize
}
