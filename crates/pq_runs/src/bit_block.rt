//! Numbers of one bit that wait to be packed.

ghost use Rattle.std.specs.Prelude.{◌≡◌, ◌<◌, ◌≤◌, ◌+◌, ◌%◌, ◌^◌, ◌++◌, [], length};
ghost use Rattle.pq_numbers.specs.Bits.{digits_of};
ghost use Rattle.pq_runs.specs.Packing.{ArePacked};
ghost use Rattle.pq_runs.specs.Words.{bit_numbers};

use crate::bits::unpack;
use crate::group::put_bytes;
use std::marker::Model;

/// At most 504 numbers of one bit, packed as they come: whole bytes, and what is held of the next one. Behind them are some places more, so that
/// a word is always put at once.
#[derive(Drop)]
pub struct BitBlock {
    bytes: [u8; 72],
    at: usize,
    held: u64,
    more: u32,
}

impl Model for BitBlock {
    ghost use Rattle.std.specs.Prelude.{List, ℕ};
    ghost use Rattle.pq_runs.specs.Held.{held_bits, IsHeld};

    ghost Value = { List ℕ };

    ghost view = { λ b. held_bits b.bytes b.at b.held b.more };

    ghost invariant = { λ b. IsHeld b.bytes b.at b.held b.more };
}

impl BitBlock {
    pub fn new() -> Self
        ensures { result ≡ [] }
    {
        BitBlock {
            bytes: [0; 72],
            at: 0,
            held: 0,
            more: 0,
        }
    }

    pub fn len(&self) -> usize
        ensures value { result ≡ length self.now }
        ensures most { result ≤ 504 }
    {
        8 * self.at + self.more as usize
    }

    // Appends so many bits of a word.
    #[inline(always)]
    pub fn add(&mut self, word: u64, count: u32)
        requires few { count ≤ 32 }
        requires low { word < 2 ^ count }
        requires room { length self.old + count ≤ 504 }
        ensures { self.new ≡ self.old ++ digits_of (2 ^ 1) count word }
    {
        let held = self.held + (word << self.more);
        let bits = self.more + count;
        put_bytes(&mut self.bytes, self.at, held.to_le_bytes());
        self.at += (bits / 8) as usize;
        self.held = held >> (bits / 8 * 8);
        self.more = bits % 8;
    }

    // Appends so many bits of a word, the first lowest.
    #[inline(always)]
    pub fn add_word(&mut self, word: u64, count: u32)
        requires few { count ≤ 64 }
        requires low { word < 2 ^ count }
        requires room { length self.old + count ≤ 504 }
        ensures { self.new ≡ self.old ++ bit_numbers 0 word 0 count }
    {
        if count <= 32 {
            self.add(word, count);
            return;
        }
        self.add(word % (1 << 32), 32);
        self.add(word >> 32, count - 32);
    }

    pub fn clear(&mut self)
        ensures { self.new ≡ [] }
    {
        self.at = 0;
        self.held = 0;
        self.more = 0;
    }

    // The bytes of whole groups.
    pub fn packed(&self) -> &[u8]
        requires { length self.now % 8 ≡ 0 }
        ensures { ArePacked 1 self.now result.now }
    {
        &self.bytes[..self.at]
    }

    // The numbers one after another.
    pub fn unpack_to(&self, numbers: &mut [u32])
        requires { length numbers.old ≡ length self.now }
        ensures { numbers.new ≡ self.now }
    {
        let mut bytes = self.bytes;
        bytes[self.at] = self.held as u8;
        unpack(&bytes, 1, numbers);
    }
}
