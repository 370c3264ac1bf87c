//! Levels of 64 pairs, compared all at once.
ghost use Rattle.std.specs.Prelude.{◌≡◌, ℕ, ◌+◌, ◌<◌, ◌≤◌, ◌^◌, length, map, nat_eq, nat_le, min, slice_index};
ghost use Rattle.columns_core.specs.Bits.{word_bits};

use std::simd::prelude::*;

/// A bit for each of 64 levels, set where it is at most this one.
pub fn levels_to(levels: &[u32], most: u32) -> u64
    requires { length levels.now ≡ 64 }
    ensures { word_bits result 64 ≡ map (λ d. nat_le d most) levels.now }
{
    let lanes = Simd::<u32, 64>::from_slice(levels);
    lanes.simd_le(Simd::<u32, 64>::splat(most)).to_bitmask()
}

/// A bit for each of 64 levels, set where it is this one or above it.
pub fn levels_from(levels: &[u32], least: u32) -> u64
    requires { length levels.now ≡ 64 }
    ensures { word_bits result 64 ≡ map (λ d. nat_le least d) levels.now }
{
    if least == 0 {
        return u64::MAX;
    }
    let lanes = Simd::<u32, 64>::from_slice(levels);
    lanes.simd_ge(Simd::<u32, 64>::splat(least)).to_bitmask()
}

/// A bit for each of 64 levels, set where it is this one.
pub fn levels_at(levels: &[u32], level: u32) -> u64
    requires { length levels.now ≡ 64 }
    ensures { word_bits result 64 ≡ map (λ d. nat_eq d level) levels.now }
{
    let lanes = Simd::<u32, 64>::from_slice(levels);
    lanes.simd_eq(Simd::<u32, 64>::splat(level)).to_bitmask()
}

// The bits that any of 64 levels has.
fn block_bits(levels: &[u32]) -> u32
    requires { length levels.now ≡ 64 }
    ensures { (k : ℕ) → k < length levels.now → slice_index levels.now k ≤ result }
{
    Simd::<u32, 64>::from_slice(levels).reduce_or()
}

/// A bit for each of 64 pairs, set where it repeats in no list. Where none does, which is told first if the second pair does not, nothing is compared.
pub fn outer_word(reps: &[u32]) -> u64
    requires { length reps.now ≡ 64 }
    ensures { word_bits result 64 ≡ map (λ r. nat_le r 0) reps.now }
{
    if reps[1] == 0 {
        if block_bits(reps) == 0 {
            return u64::MAX;
        }
    }
    levels_to(reps, 0)
}

/// 64 levels in a byte each, where those above 255 are 255; `outer` has a bit for each that is 0.
pub fn narrowed_beside(levels: &[u32], outer: u64) -> [u8; 64]
    requires size { length levels.now ≡ 64 }
    requires outer { word_bits outer 64 ≡ map (λ d. nat_le d 0) levels.now }
    ensures { result ≡ map (λ d. min d 255) levels.now }
{
    if outer == u64::MAX {
        return [0; 64];
    }
    narrowed(levels)
}

/// 64 levels in a byte each, where those above 255 are 255.
pub fn narrowed(levels: &[u32]) -> [u8; 64]
    requires { length levels.now ≡ 64 }
    ensures { result ≡ map (λ d. min d 255) levels.now }
{
    let lanes = Simd::<u32, 64>::from_slice(levels);
    let low = lanes.simd_min(Simd::<u32, 64>::splat(255));
    low.cast::<u8>().to_array()
}

/// A bit for each of 64 levels in bytes, set where it is at most this one.
pub fn bytes_to(levels: &[u8], most: u8) -> u64
    requires { length levels.now ≡ 64 }
    ensures { word_bits result 64 ≡ map (λ d. nat_le d most) levels.now }
{
    let lanes = Simd::<u8, 64>::from_slice(levels);
    lanes.simd_le(Simd::<u8, 64>::splat(most)).to_bitmask()
}

/// A bit for each of 64 levels in bytes, set where it is this one or above it.
pub fn bytes_from(levels: &[u8], least: u8) -> u64
    requires { length levels.now ≡ 64 }
    ensures { word_bits result 64 ≡ map (λ d. nat_le least d) levels.now }
{
    let lanes = Simd::<u8, 64>::from_slice(levels);
    lanes.simd_ge(Simd::<u8, 64>::splat(least)).to_bitmask()
}

/// A bit for each of 64 levels in bytes, set where it is this one.
pub fn bytes_at(levels: &[u8], level: u8) -> u64
    requires { length levels.now ≡ 64 }
    ensures { word_bits result 64 ≡ map (λ d. nat_eq d level) levels.now }
{
    let lanes = Simd::<u8, 64>::from_slice(levels);
    lanes.simd_eq(Simd::<u8, 64>::splat(level)).to_bitmask()
}
