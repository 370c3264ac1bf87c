//! Levels of 64 pairs in a byte each, compared all at once.
ghost use Rattle.std.specs.Prelude.{◌≡◌, ℕ, ◌<◌, ◌≤◌, IsTrue, length, slice_index};

use crate::folds::block_bits;
use read_state::BlockLevels;
use std::simd::prelude::*;

/// Whether none of 64 levels is certainly above 255.
pub fn are_bytes(levels: &[u32]) -> bool
    requires { length levels.now ≡ 64 }
    ensures { IsTrue result → (k : ℕ) → k < length levels.now → slice_index levels.now k ≤ 255 }
{
    if block_bits(levels) > 255 {
        false
    } else {
        true
    }
}

/// 64 levels in a byte each.
pub fn narrowed(levels: &[u32]) -> [u8; 64]
    requires size { length levels.now ≡ 64 }
    requires small { (k : ℕ) → k < length levels.now → slice_index levels.now k ≤ 255 }
    ensures { result ≡ levels.now }
{
    let lanes = Simd::<u32, 64>::from_slice(levels);
    lanes.cast::<u8>().to_array()
}

/// Whether none of 64 levels is above this one.
pub fn are_told_within(levels: &BlockLevels, max: u8) -> bool
    requires { length levels.now ≡ 64 }
    ensures { IsTrue result → (k : ℕ) → k < length levels.now → slice_index levels.now k ≤ max }
{
    levels.to(max) == u64::MAX
}
