//! The values of a block of pairs.
ghost use Rattle.std.specs.Prelude.{◌≡◌, ℕ, ◌+◌, ◌*◌, ◌/◌, ◌%◌, ◌^◌, ◌<◌, ◌≤◌, List, ◌∷◌, ◌++◌, OnOk, IfErr, cond, true, length, replicate, drop};
ghost use Rattle.columns_core.specs.Bits.{word_bits};
ghost use Rattle.read_laws.specs.Step.{bit};
ghost use Rattle.read_state.specs.Reach.{chosen};
ghost use Rattle.read_walk.specs.Gives.{Decoded, called, mixed};
ghost use Rattle.read_walk.specs.Values.{CannotDecode};

use crate::block::PairBlock;
use crate::traits::NestedDecoder;
use columns_base::Result;
use read_state::{BlockLevels, levels_at, levels_from};

// 1 for true, 0 for false.
fn one_if(set: bool) -> u64
    ensures { result ≡ bit set }
{
    if set { 1 } else { 0 }
}

// A word of bits and their number, with a bit for a level in front of them where it is from `floor` on, set where it is `top`.
fn add_level(word: u64, count: usize, level: usize, floor: usize, top: usize) -> (u64, usize)
    requires below { word < 2 ^ count }
    requires few { count < 64 }
    ensures bits { (levels : List ℕ) → word_bits word count ≡ mixed floor top levels
        → word_bits result.0 result.1 ≡ mixed floor top (level ∷ levels) }
    ensures below { result.0 < 2 ^ result.1 }
    ensures few { result.1 ≤ count + 1 }
{
    if level < floor {
        return (word, count);
    }
    (2 * word + one_if(level == top), count + 1)
}

// The same in one loop.
fn mixed_bits(levels: &[u32], floor: usize, top: usize) -> (u64, usize)
    requires few { length levels.now ≤ 64 }
    ensures bits { word_bits result.0 result.1 ≡ mixed floor top levels.now }
    ensures few { result.1 ≤ 64 }
{
    let mut word = 0;
    let mut count = 0;
    for i in 0..levels.len() {
        let level = levels[levels.len() - 1 - i] as usize;
        let (more, size) = add_level(word, count, level, floor, top);
        word = more;
        count = size;
    }
    (word, count)
}

// A word without the bit at a place: those above it move down.
fn without_bit(word: u64, at: usize) -> u64
    requires { at < 64 }
    ensures { result ≡ word % 2 ^ at + word / 2 ^ at / 2 * 2 ^ at }
{
    word % (1 << at) + ((word >> at) / 2) * (1 << at)
}

// The bits of a word beside the set bits of another, and their number.
fn picked_bits(set: u64, word: u64) -> (u64, usize)
    ensures bits { word_bits result.0 result.1 ≡ chosen (word_bits set 64) (word_bits word 64) }
    ensures few { result.1 ≤ 64 }
{
    let mut left = set;
    let mut picked = word;
    let mut count = 64;
    while (left.trailing_ones() as usize) < count {
        let at = left.trailing_ones() as usize;
        left = without_bit(left, at);
        picked = without_bit(picked, at);
        count -= 1;
    }
    (picked, count)
}

// A bit for each level from `floor` on, set where it is `top`, the lowest for the first, and how many these are.
fn mixed_word(levels: &[u32], floor: usize, top: usize) -> (u64, usize)
    requires few { length levels.now ≤ 64 }
    ensures bits { word_bits result.0 result.1 ≡ mixed floor top levels.now }
    ensures few { result.1 ≤ 64 }
{
    if levels.len() == 64 && floor.max(top) < 0x1_0000_0000 {
        return picked_bits(
            levels_from(levels, floor as u32),
            levels_at(levels, top as u32),
        );
    }
    mixed_bits(levels, floor, top)
}

// The levels from a place on, at most 64.
fn some_levels(levels: &[u32], at: usize) -> &[u32]
    requires { at < length levels.now }
    ensures some { 0 < length result.now }
    ensures few { length result.now ≤ 64 }
    ensures parts { drop at levels.now ≡ result.now ++ drop (at + length result.now) levels.now }
{
    let count = (levels.len() - at).min(64);
    &levels[at..at + count]
}

/// Decodes what so many pairs of one definition level call for.
///
/// # Errors
///
/// Those of the decoder.
pub fn decode_copies<'a, D: NestedDecoder<'a>>(
    values: &mut D::State,
    decoded: &mut D::DecodedState,
    decoder: &D,
    level: usize,
    count: usize,
    floor: usize,
    top: usize,
) -> Result<()>
    requires ordered { floor ≤ top }
    requires suits { D.suits decoder.now decoded.old }
    ensures ok { OnOk result (Decoded floor top (replicate count level) (D.left decoder.now values.old)
        (D.left decoder.now values.new) (D.slots decoded.old) (D.slots decoded.new)) }
    ensures err { IfErr result (CannotDecode D.byte_limit (called top (replicate count level))
        (D.left decoder.now values.old) (D.slots decoded.old)) }
    ensures suits { D.suits decoder.now decoded.new }
{
    if level == top {
        return decoder.push_valid(values, decoded, count);
    }
    if floor <= level {
        return decoder.push_null(decoded, count);
    }
    Ok(())
}

/// Decodes what pairs of these definition levels call for: a value at each `top`, and a null from `floor` on.
///
/// # Errors
///
/// Those of the decoder.
pub fn decode_levels<'a, D: NestedDecoder<'a>>(
    values: &mut D::State,
    decoded: &mut D::DecodedState,
    decoder: &D,
    defs: &[u32],
    floor: usize,
    top: usize,
) -> Result<()>
    requires ordered { floor ≤ top }
    requires suits { D.suits decoder.now decoded.old }
    ensures ok { OnOk result (Decoded floor top defs.now (D.left decoder.now values.old) (D.left decoder.now values.new)
        (D.slots decoded.old) (D.slots decoded.new)) }
    ensures err { IfErr result (CannotDecode D.byte_limit (called top defs.now) (D.left decoder.now values.old)
        (D.slots decoded.old)) }
    ensures suits { D.suits decoder.now decoded.new }
{
    let mut at = 0;
    while at < defs.len() {
        let part = some_levels(defs, at);
        let (valid, count) = mixed_word(part, floor, top);
        match decoder.push_mixed(values, decoded, valid, count) {
            Ok(()) => {}
            Err(error) => return Err(error),
        }
        at += part.len();
    }
    Ok(())
}

// A bit for each of 64 levels from `floor` on, set where it is `top`, the lowest for the first, and how many these are.
fn told_word(defs: &BlockLevels, floor: usize, top: usize) -> (u64, usize)
    requires size { length defs.now ≡ 64 }
    requires ordered { floor ≤ top }
    requires low { top ≤ 255 }
    ensures bits { word_bits result.0 result.1 ≡ mixed floor top defs.now }
    ensures few { result.1 ≤ 64 }
{
    picked_bits(defs.from(floor as u8), defs.at(top as u8))
}

// The same of the levels of the next pairs, which are told or stand in a block.
#[inline(always)]
fn next_word(
    told: bool,
    defs: &BlockLevels,
    block: &PairBlock,
    floor: usize,
    top: usize,
) -> (u64, usize)
    requires size { told ≡ true → length defs.now ≡ 64 }
    requires few { length (cond told defs.now block.now.1) ≤ 64 }
    requires ordered { floor ≤ top }
    requires low { told ≡ true → top ≤ 255 }
    ensures bits { word_bits result.0 result.1 ≡ mixed floor top (cond told defs.now block.now.1) }
    ensures few { result.1 ≤ 64 }
{
    if told {
        return told_word(defs, floor, top);
    }
    mixed_word(block.defs(), floor, top)
}

/// Decodes what the next pairs call for, whose levels are told as bits or bytes or stand in a block.
///
/// # Errors
///
/// Those of the decoder.
pub fn decode_next<'a, D: NestedDecoder<'a>>(
    values: &mut D::State,
    decoded: &mut D::DecodedState,
    decoder: &D,
    told: bool,
    defs: &BlockLevels,
    block: &PairBlock,
    floor: usize,
    top: usize,
) -> Result<()>
    requires size { told ≡ true → length defs.now ≡ 64 }
    requires few { length (cond told defs.now block.now.1) ≤ 64 }
    requires ordered { floor ≤ top }
    requires low { told ≡ true → top ≤ 255 }
    requires suits { D.suits decoder.now decoded.old }
    ensures ok { OnOk result (Decoded floor top (cond told defs.now block.now.1) (D.left decoder.now values.old)
        (D.left decoder.now values.new) (D.slots decoded.old) (D.slots decoded.new)) }
    ensures err { IfErr result (CannotDecode D.byte_limit (called top (cond told defs.now block.now.1))
        (D.left decoder.now values.old) (D.slots decoded.old)) }
    ensures suits { D.suits decoder.now decoded.new }
{
    let (valid, count) = next_word(told, defs, block, floor, top);
    decoder.push_mixed(values, decoded, valid, count)
}
