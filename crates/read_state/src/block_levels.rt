//! The levels of a block of 64 pairs, compared all at once.
ghost use Rattle.std.specs.Prelude.{◌≡◌, length, map, min, nat_eq, nat_le, slice_index};
ghost use Rattle.columns_core.specs.Bits.{word_bits};
ghost use Rattle.read_laws.specs.Step.{bit};

use crate::words::{bytes_at, bytes_from, bytes_to};
use std::marker::Model;

/// The levels of 64 pairs: the bits of a word where all are 0 or 1, else a byte each. Contracts see them as a list.
#[derive(Drop)]
pub struct BlockLevels {
    are_bits: bool,
    word: u64,
    bytes: [u8; 64],
}

impl Model for BlockLevels {
    ghost use Rattle.std.specs.Prelude.{List, ℕ};
    ghost use Rattle.read_state.specs.Told.{told};

    ghost Value = { List ℕ };

    ghost view = { λ l. told l.are_bits l.word l.bytes };
}

// A bit for each bit of a word, set where it is at most this level.
fn bits_to(word: u64, most: u8) -> u64
    ensures { word_bits result 64 ≡ map (λ d. nat_le d most) (map bit (word_bits word 64)) }
{
    if most == 0 { u64::MAX - word } else { u64::MAX }
}

// A bit for each bit of a word, set where it is this level or above it.
fn bits_from(word: u64, least: u8) -> u64
    ensures { word_bits result 64 ≡ map (λ d. nat_le least d) (map bit (word_bits word 64)) }
{
    if least == 0 {
        return u64::MAX;
    }
    if least == 1 { word } else { 0 }
}

// A bit for each bit of a word, set where it is this level.
fn bits_at(word: u64, level: u8) -> u64
    ensures { word_bits result 64 ≡ map (λ d. nat_eq d level) (map bit (word_bits word 64)) }
{
    if level == 0 {
        return u64::MAX - word;
    }
    if level == 1 { word } else { 0 }
}

// The highest bit of a word.
fn highest_bit(word: u64) -> usize
    ensures { result ≡ slice_index (map bit (word_bits word 64)) 63 }
{
    (word >> 63) as usize
}

// A byte is not above 255.
fn know_bytes(bytes: &[u8])
    ensures { bytes.now ≡ map (λ d. min d 255) bytes.now }
{
    let _ = bytes;
}

impl BlockLevels {
    /// The bits of a word, the lowest first.
    #[inline(always)]
    pub fn of_word(word: u64) -> Self
        ensures { result ≡ map bit (word_bits word 64) }
    {
        BlockLevels {
            are_bits: true,
            word,
            bytes: [0; 64],
        }
    }

    /// A byte each.
    #[inline(always)]
    pub fn of_bytes(bytes: [u8; 64]) -> Self
        ensures { result ≡ bytes }
    {
        BlockLevels {
            are_bits: false,
            word: 0,
            bytes,
        }
    }

    /// The bits of a word in the place of the levels before.
    #[inline(always)]
    pub fn set_word(&mut self, word: u64)
        ensures { self.new ≡ map bit (word_bits word 64) }
    {
        self.are_bits = true;
        self.word = word;
    }

    /// Bytes in the place of the levels before.
    #[inline(always)]
    pub fn set_bytes(&mut self, bytes: [u8; 64])
        ensures { self.new ≡ bytes }
    {
        self.are_bits = false;
        self.bytes = bytes;
    }

    /// The last level.
    pub fn last(&self) -> usize
        ensures { result ≡ slice_index self.now 63 }
    {
        if self.are_bits {
            return highest_bit(self.word);
        }
        self.bytes[63] as usize
    }

    /// Callers learn that no level is above 255.
    #[inline(always)]
    pub fn know(&self)
        ensures { self.now ≡ map (λ d. min d 255) self.now }
    {
        know_bytes(&self.bytes);
    }

    /// A bit for each level, set where it is at most this one.
    #[inline(always)]
    pub fn to(&self, most: u8) -> u64
        ensures { word_bits result 64 ≡ map (λ d. nat_le d most) self.now }
    {
        if self.are_bits {
            return bits_to(self.word, most);
        }
        bytes_to(&self.bytes, most)
    }

    /// A bit for each level, set where it is this one or above it.
    #[inline(always)]
    pub fn from(&self, least: u8) -> u64
        ensures { word_bits result 64 ≡ map (λ d. nat_le least d) self.now }
    {
        if self.are_bits {
            return bits_from(self.word, least);
        }
        bytes_from(&self.bytes, least)
    }

    /// A bit for each level, set where it is this one.
    #[inline(always)]
    pub fn at(&self, level: u8) -> u64
        ensures { word_bits result 64 ≡ map (λ d. nat_eq d level) self.now }
    {
        if self.are_bits {
            return bits_at(self.word, level);
        }
        bytes_at(&self.bytes, level)
    }
}
